//! The object that was perhaps meant by a name that none has.
ghost use Rattle.std.specs.Prelude.{◌≡◌, drop};
ghost use Rattle.tsb_plan.specs.Names.{name_of};
ghost use Rattle.tsb_plan_notes.specs.Near.{differs_by, meets, near_among, near_by, near_object};

use tsb_plan::Object;

/// The differences by which a name may be a slip or a short form, the nearest first: how many letters the right name and
/// the other have in the one place where they differ.
const DIFFERENCES: [(usize, usize); 18] = [
    (1, 0),
    (0, 1),
    (1, 1),
    (2, 2),
    (2, 1),
    (1, 2),
    (2, 0),
    (0, 2),
    (3, 0),
    (0, 3),
    (4, 0),
    (0, 4),
    (5, 0),
    (0, 5),
    (6, 0),
    (0, 6),
    (7, 0),
    (0, 7),
];

/// The object that was perhaps meant by a name: the one with the least difference, and of several the first.
#[tactic(auto, unfolding(crate::specs::Near::near_object))]
pub(crate) fn near_object(name: &str) -> Option<Object>
    ensures { result ≡ near_object name.now }
{
    near_among(&DIFFERENCES, name)
}

/// The first object whose name differs from a name by the first of these by which one does.
fn near_among(differences: &[(usize, usize)], name: &str) -> Option<Object>
    ensures { result ≡ near_among differences.now name.now }
{
    for difference in differences {
        if let Some(object) = near_by(*difference, name) {
            return Some(object);
        }
    }
    None
}

/// The first object whose name differs by this from a name.
#[tactic(auto, unfolding(tsb_plan::specs::Objects::objects))]
fn near_by(difference: (usize, usize), name: &str) -> Option<Object>
    ensures { result ≡ near_by difference name.now }
{
    Object::ALL.iter().copied().find(|object| differs_by(
        difference,
        object.name().as_bytes(),
        name.as_bytes(),
    ))
}

/// Whether a word differs by this from a right one, past the letters with which both begin.
fn differs_by(difference: (usize, usize), right: &[u8], word: &[u8]) -> bool
    ensures { result ≡ differs_by difference right.now word.now }
{
    let mut left = right;
    let mut other = word;
    while let [x, xs @ ..] = left {
        let [y, ys @ ..] = other else {
            return meets(difference, left, other);
        };
        if *x != *y {
            return meets(difference, left, other);
        }
        left = xs;
        other = ys;
    }
    meets(difference, left, other)
}

/// Whether two texts go on alike behind so many letters of the one and of the other.
fn meets(difference: (usize, usize), left: &[u8], other: &[u8]) -> bool
    ensures { result ≡ meets difference left.now other.now }
{
    behind(left, difference.0) == behind(other, difference.1)
}

/// What a text has behind so many letters.
fn behind(text: &[u8], count: usize) -> &[u8]
    ensures { result.now ≡ drop count text.now }
{
    &text[count.min(text.len())..]
}
