//! What heads show, each law the contract of a function that does nothing.
ghost use Rattle.tsb_laws.specs.LitHeads.{LitOverlapsClearInYellow, LitPhasesClearInYellow, OthersKeepLitHeads};
ghost use Rattle.tsb_laws.specs.Trips.{ResetsEndTrips, TrippedHeadsFlash, TripsStay};

/// `stays`: A trip stays until a reset. It stays over inputs of every other kind, with its cause and its tick number.
/// This holds from any state.
///
/// Mistake: a tick that judges a controller which has tripped, `judged_again` (`stays_tripped`, `would_recover`).
/// Witness: `tripped` of SignsExamples in tsb_step, a controller that has tripped.
///
/// `ends`: A reset ends a trip. After a reset there is none, from any state.
///
/// Not said: that no later input trips the controller.
/// Mistake: a reset that keeps the trip, `reset_tripped` (`has_ended`, `would_stay`).
/// Witness: `a_reset` of CoordinationRuns, a reset after a trip.
pub fn trips_stay()
    ensures stays { TripsStay }
    ensures ends { ResetsEndTrips }
{}

/// The heads of a controller that has tripped flash red or are dark. The heads of enabled phases and of overlaps that
/// include a phase flash, and all others are dark, those of pedestrians among them. This holds from any state.
///
/// Not said: anything of a lamp that a fault has lit, as the display is the controller's own.
/// Mistake: heads that a trip leaves, `heads_left` (`is_in_flash`, `would_be_green`).
/// Witness: `tripped` of SignsExamples in tsb_step, a controller that has tripped.
pub fn tripped_heads_flash()
    ensures { TrippedHeadsFlash }
{}

/// Only ticks, trips and the reset of a trip change a lit head. Any other input that is taken leaves each head with
/// right of way: of a phase in green or yellow, of pedestrians in walk or clearance, of an overlap in green, yellow or
/// flashing yellow.
///
/// Not said: anything of heads that are red or dark, which a commit may turn dark or red.
/// Mistake: a commit of overlaps that does not wait, `unlisting` (`shows_green`, `has_to_wait`, `would_go_dark`).
/// Witness: `a_lit_head` of HeadMistakes.
pub fn lit_heads_stay()
    ensures { OthersKeepLitHeads }
{}

/// `phases`: A lit head of a phase turns red only by its yellow. Over each input, of whatever kind, it keeps right of
/// way, or the input is a tick that turns it red, and then it has shown yellow for the last 3.0 s.
///
/// Needs: an untripped run, and an input that does not trip the controller.
/// Mistake: a pattern that ends greens, `pattern_ends` (`stays_green`, `would_be_red`).
/// Witness: `a_phase` of RedRevertRuns, whose tick turns a head red.
///
/// `overlaps`: So does the head of a normal overlap.
///
/// Needs: as of phases.
/// Not said: anything of overlaps of type minusGreenYellow, whose yellows may be shorter, or of arrows, which
/// `timed_overlaps_clear_in_yellow` has.
/// Mistake: a commit of overlaps that does not wait, `relisting` (`waits_too`, `would_turn_red`).
/// Witness: `a_lit_overlap` of RedRevertRuns, whose tick turns a head red.
pub fn lit_heads_clear_in_yellow()
    ensures phases { LitPhasesClearInYellow }
    ensures overlaps { LitOverlapsClearInYellow }
{}
