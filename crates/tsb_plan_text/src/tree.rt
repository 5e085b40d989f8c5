//! What the tree of a plan text takes of memory, counted before it is made.
ghost use Rattle.std.specs.Prelude.{◌≡◌, ◌≤◌, length};
ghost use Rattle.tsb_plan_text.specs.TreeSize.{weight, tree_bytes, has_room};

/// The length of a text, in bytes, up to which it is read whatever is in it.
const SHORT: usize = 262_144;

/// The most that the tree of a longer text may take, in bytes.
const MOST_TREE: u32 = 67_108_864;

/// What an object takes with its first names, in bytes.
const OBJECT: u32 = 900;

/// What an array takes with its first values, in bytes.
const ARRAY: u32 = 176;

/// What a name takes beside its text, in bytes.
const NAME: u32 = 128;

/// What a value takes after another one, in bytes.
const VALUE: u32 = 32;

/// Half of what the text of a string takes, in bytes.
const HALF_STRING: u32 = 16;

/// Whether there is room for the tree of a text.
///
/// `serde_json` makes a tree, and small arrays and objects without end take many times what their text does.
#[tactic(auto, unfolding(crate::specs::TreeSize::has_room))]
pub(crate) fn has_room(text: &[u8]) -> bool
    requires { length text.now ≤ 1048576 }
    ensures { result ≡ has_room text.now }
{
    text.len() <= SHORT || tree_bytes(text) <= MOST_TREE
}

/// What the tree of a text takes at most, in bytes.
fn tree_bytes(text: &[u8]) -> u32
    requires { length text.now ≤ 1048576 }
    ensures { result ≡ tree_bytes text.now }
{
    let mut bytes = 0;
    for byte in text {
        bytes += weight(*byte);
    }
    bytes
}

/// What the tree takes for a byte of the text, in bytes.
fn weight(byte: u8) -> u32
    ensures value { result ≡ weight byte }
    ensures small { result ≤ 900 }
{
    match byte {
        b'{' => OBJECT,
        b'[' => ARRAY,
        b':' => NAME,
        b',' => VALUE,
        b'"' => HALF_STRING,
        _ => 0,
    }
}
