//! What holds of every card, each law the contract of a function that does nothing.
ghost use Rattle.tsb_card.specs.Pairs.{PairsAreByPhases};

/// Each pair of a card is of two phases that the plan lets go together: one lights the one channel, one lights the other,
/// and they are equal or concurrent.
///
/// Not said: that two channels which a run lights together are a pair of the card of its plan. A law of runs says that.
/// Mistake: two channels are a pair where each is lit at some time, `of_lit` (`would_permit`, `not_two_and_three`).
/// Witness: `two_and_six` of Mistakes, the built-in plan of eight phases.
pub fn cards_permit_by_phases()
    ensures { PairsAreByPhases }
{}
