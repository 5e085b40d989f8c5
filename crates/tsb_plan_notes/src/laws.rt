//! What holds of the place of each text: a law, the contract of a function that does nothing.
ghost use Rattle.tsb_plan_notes.specs.Laws.{StopsWhateverFollows};

/// A text that stops being JSON before its end stops there as well where more follows. So the place that is told is
/// found by the bytes up to it alone.
///
/// Not said: that a text stops exactly where the plan's reader refuses it, which is tested.
/// Mistake: a text stops at its end wherever something is wrong, `stop_at_end` (`would_be_first`, `would_move`).
/// Witness: `stops_at_first`, `stops_there_again` of Mistakes.
pub fn texts_stop_whatever_follows()
    ensures { StopsWhateverFollows }
{}
