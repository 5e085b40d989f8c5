//! Where phases 1 to 8 stand as usual. A leg of the intersection has the number of the through phase that comes in by
//! it: leg 2 is in the west, leg 4 in the north, leg 6 in the east and leg 8 in the south.
#![tactic(auto)]

ghost use Rattle.std.specs.Prelude.{◌≡◌};
ghost use Rattle.tsb_review.specs.Legs.{comes_in_by, goes_out_by, right_of, goes_through, turns_left, is_of_other_street};

use tsb_types::Phase;

/// No leg: phases 9 to 16 have no usual place.
const NO_LEG: u8 = 0;

/// The leg that the phase comes in by: left turns 1, 3, 5 and 7 come in beside through phases 6, 8, 2 and 4.
fn comes_in_by(phase: Phase) -> u8
    ensures { result ≡ comes_in_by phase }
{
    match phase.number() {
        2 | 5 => 2,
        4 | 7 => 4,
        1 | 6 => 6,
        3 | 8 => 8,
        _ => NO_LEG,
    }
}

/// The leg that the phase goes out by: a through phase by the leg across, a left turn by the leg at its left.
pub(crate) fn goes_out_by(phase: Phase) -> u8
    ensures { result ≡ goes_out_by phase }
{
    match phase.number() {
        3 | 6 => 2,
        5 | 8 => 4,
        2 | 7 => 6,
        1 | 4 => 8,
        _ => NO_LEG,
    }
}

/// The leg at the right of a through phase: right turns beside it go out by this leg, and its crossing lies over it.
pub(crate) fn right_of(phase: Phase) -> u8
    ensures { result ≡ right_of phase }
{
    match phase.number() {
        2 => 8,
        4 => 2,
        6 => 4,
        8 => 6,
        _ => NO_LEG,
    }
}

/// Whether the phase is a through phase: 2, 4, 6 or 8.
pub(crate) fn goes_through(phase: Phase) -> bool
    ensures { result ≡ goes_through phase }
{
    comes_in_by(phase) != NO_LEG && comes_in_by(phase) == phase.number()
}

/// Whether the phase turns left: 1, 3, 5 or 7.
pub(crate) fn turns_left(phase: Phase) -> bool
    ensures { result ≡ turns_left phase }
{
    comes_in_by(phase) != NO_LEG && comes_in_by(phase) != phase.number()
}

/// Whether the phase comes in by the other street than the through phase: neither by its leg nor by the one across.
pub(crate) fn is_of_other_street(through: Phase, phase: Phase) -> bool
    ensures { result ≡ is_of_other_street through phase }
{
    comes_in_by(phase) != through.number() && comes_in_by(phase) != goes_out_by(through)
}
