//! The fields of a display line that say what heads show, found by sets of heads.
ghost use Rattle.std.specs.Prelude.{◌≡◌, ℕ, ◌+◌, ◌<◌, ◌≤◌, get_or, length, if◌then◌else◌};
ghost use Rattle.tsb_types.specs.Sets.{has, has_number};
ghost use Rattle.tsb_heads.specs.Reading.{heads_of};
ghost use Rattle.tsb_display_text.specs.Letters.{AreOf};
ghost use Rattle.tsb_display_text.specs.Line.{vehicle_field, pedestrian_field, wide_overlap_field};

use tsb_heads::Display;
use tsb_types::{NumberSet, PhaseSet};

/// The letters of a display line.
#[derive(Clone, Copy)]
pub(crate) struct Letters {
    /// Those of the vehicle heads of phases 1 to 16.
    pub(crate) vehicles: [u8; 16],
    /// Those of the pedestrian heads of phases 1 to 16.
    pub(crate) pedestrians: [u8; 16],
    /// Those of the heads of overlaps 1 to 16.
    pub(crate) overlaps: [u8; 16],
}

impl Letters {
    /// The letters of what the heads show.
    pub(crate) fn of(heads: &Display) -> Letters
        ensures { AreOf result (heads_of heads.now) }
    {
        Letters {
            vehicles: vehicle_letters(heads),
            pedestrians: pedestrian_letters(heads),
            overlaps: overlap_letters(heads),
        }
    }
}

/// The letter of a head that is dark.
const DARK: u8 = b'-';

/// The numbers of the phases of a set.
#[inline(always)]
fn numbers_of(set: PhaseSet) -> NumberSet
    ensures { (p : ℕ) → has_number result p ≡ has set p }
{
    NumberSet::from_list(set.list())
}

/// The letters of heads 1 to `N`, with this letter for each head of a set, and for the others what they had.
#[inline(always)]
fn with_letter<const N: usize>(letters: [u8; N], heads: NumberSet, letter: u8) -> [u8; N]
    requires few { N ≤ 16 }
    ensures full { length result ≡ N }
    ensures each { (k : ℕ) → k < N
        → get_or result k 0 ≡ (if has_number heads (1 + k) then letter else get_or letters.entry k 0) }
{
    let mut all = letters;
    for k in 0..N {
        all[k] = if heads.contains(1 + k as u8) {
            letter
        } else {
            letters[k]
        };
    }
    all
}

/// The letters of the vehicle heads of phases 1 to 16.
#[inline(always)]
fn vehicle_letters(heads: &Display) -> [u8; 16]
    ensures { result ≡ vehicle_field (heads_of heads.now).vehicle }
{
    let dark = [DARK; 16];
    let red = with_letter(dark, numbers_of(heads.vehicle_reds()), b'R');
    let yellow = with_letter(red, numbers_of(heads.vehicle_yellows()), b'Y');
    let green = with_letter(yellow, numbers_of(heads.vehicle_greens()), b'G');
    with_letter(green, numbers_of(heads.vehicles_flashing()), b'F')
}

/// The letters of the pedestrian heads of phases 1 to 16.
#[inline(always)]
fn pedestrian_letters(heads: &Display) -> [u8; 16]
    ensures { result ≡ pedestrian_field (heads_of heads.now).pedestrian }
{
    let dark = [DARK; 16];
    let wait = with_letter(dark, numbers_of(heads.dont_walks()), b'D');
    let clear = with_letter(wait, numbers_of(heads.clearances()), b'C');
    with_letter(clear, numbers_of(heads.walks()), b'W')
}

/// The letters of the heads of overlaps 1 to 16.
#[inline(always)]
fn overlap_letters(heads: &Display) -> [u8; 16]
    ensures { result ≡ wide_overlap_field (heads_of heads.now).overlap }
{
    let dark = [DARK; 16];
    let red = with_letter(dark, heads.overlap_reds(), b'R');
    let yellow = with_letter(red, heads.overlap_yellows(), b'Y');
    let green = with_letter(yellow, heads.overlap_greens(), b'G');
    let arrow = with_letter(green, heads.overlap_arrows(), b'P');
    with_letter(arrow, heads.overlaps_flashing(), b'F')
}
