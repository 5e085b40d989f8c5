//! Arrows, overlaps that trail and the card, in every run. Each law is the contract of a function that does nothing.
ghost use Rattle.tsb_laws.specs.Arrows.{ArrowsFlashByPermissions, ArrowsGoWithPhases, GreenArrowsAreProtected, IdleOverlapsAreUnlit, TimedOverlapsClearInYellow};
ghost use Rattle.tsb_laws.specs.Cards.{CardsPermitWhatIsLit};

/// An arrow flashes only by permission. While its head flashes a phase that it includes is Green, its turn is Red, and no
/// ring is committed to its turn.
///
/// Not said: how long that green has lasted.
/// Mistake: an arrow that flashes on while a phase that opposes it clears, `flashes_on` of OverlapRuns in tsb_step
/// (`clears`, `would_flash_on`).
/// Witness: `flashes`, `opposed` of OverlapRuns in tsb_step.
pub fn arrows_flash_by_permissions()
    ensures { ArrowsFlashByPermissions }
{}

/// A green arrow is protected. Its turn is Green, and no phase that it includes is in service.
///
/// Not said: anything of pedestrians.
/// Mistake: an arrow that is green as soon as the ring is committed to its turn, `green_by_commitment` of ArrowMistakes
/// (`is_not_green`).
/// Witness: `points`, `turns` of OverlapRuns in tsb_step.
pub fn green_arrows_are_protected()
    ensures { GreenArrowsAreProtected }
{}

/// An arrow goes with its phases. Where its head is lit, a phase that it includes, or its turn, is in service. So each
/// phase in service, and each with right of way, by a green arrow among them, is that phase or concurrent with it.
///
/// Not said: anything of a lamp that a fault lights.
/// Mistake: an arrow that flashes wherever its turn is Red, `flashes_by_turn` of ArrowMistakes (`none_serves`,
/// `is_unlit`, `would_flash`).
/// Witness: `flashes` to `turns` of OverlapRuns in tsb_step.
pub fn arrows_go_with_phases()
    ensures { ArrowsGoWithPhases }
{}

/// The head of an arrow, or of an overlap that trails, turns red only by its yellow. Over each input it stays lit, or the
/// input is a tick that turns it red, and then it has shown yellow for the last 3.0 s.
///
/// Needs: an untripped run, and an input that does not trip the controller.
/// Not said: which colour it stays lit in; a yellow may be followed by flashing yellow.
/// Mistake: an arrow that is red once it flashes no more, `ends_red` of OverlapRuns in tsb_step (`flashes`, `clears`,
/// `would_be_red`).
/// Witness: `clears` to `is_red`, `has_yellow` to `is_off` of OverlapRuns in tsb_step.
pub fn timed_overlaps_clear_in_yellow()
    ensures { TimedOverlapsClearInYellow }
{}

/// Where the rings do not serve no overlap is lit. So no commit of the structure, which waits for the rings, finds one.
///
/// Needs: that the controller has not tripped.
/// Mistake: a phase that is over with its own clearance, though an overlap holds it, of OverlapRuns in tsb_step
/// (`is_over_2`, `is_held_2`, `still_yellow`).
/// Witness: `serves_none` and `is_unlit` of ArrowMistakes, the state at power-up.
pub fn idle_overlaps_are_unlit()
    ensures { IdleOverlapsAreUnlit }
{}

/// The card of a plan permits what its runs light. Two channels of the monitor that are lit at once are a pair of the card
/// of the plan in effect: vehicles in green or yellow, a crosswalk in walk or clearance, an overlap in green, yellow or
/// flashing yellow.
///
/// Needs: of a crosswalk that is lit, that the plan has a walk for it still, which a commit may take meanwhile.
/// Not said: that no fewer pairs would do; anything of a lamp that a fault lights.
/// Mistake: an arrow that is lit by the phases it includes alone, `by_included` of Mistakes of tsb_card
/// (`is_lit_with_its_turn`, `would_forbid`).
/// Witness: `two_and_six` of Mistakes of tsb_card, whose phases go together.
pub fn cards_permit_what_is_lit()
    ensures { CardsPermitWhatIsLit }
{}
