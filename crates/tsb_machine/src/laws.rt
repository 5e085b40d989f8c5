//! What holds of the way back of every machine, each law the contract of a function that does nothing.
ghost use Rattle.tsb_machine.specs.Machine.{Machine};
ghost use Rattle.tsb_machine.specs.Laws.{BenchesAnswer, EarlierAreReplays, LastIsGreatest, PastsAreTheRun, SeeksAreLeast, SeeksAreReplays, SessionsAreReplays, UndoGivesBack};

/// Undo takes back what was done. Taking back the input that was just applied gives state and history as they were, in
/// every machine of states and inputs.
///
/// Needs: a record that, taken back, gives the state before it.
/// Mistake: a record that is taken back stays in the history, `taken_back_kept` (`is_as_before`, `would_keep_record`).
/// Witness: `gives_back` of Mistakes, a run of three ticks.
pub fn undo_gives_back<S, I, C>()
    ensures { (m : Machine S I C) → UndoGivesBack m }
{}

/// Earlier states are those of shorter runs. With the newest k records taken back, state and history are those of a
/// replay without the newest k inputs.
///
/// Needs: as `undo_gives_back`, for each input of the run.
/// Mistake: a record that is taken back stays in the history, `taken_back_kept` (`is_at_start`, `would_have_7`).
/// Witness: `gives_back` of Mistakes, a run of three ticks.
pub fn earlier_are_replays<S, I, C>()
    ensures pasts { (m : Machine S I C) (start : S) → PastsAreTheRun m start }
    ensures earlier { (m : Machine S I C) (start : S) → EarlierAreReplays m start }
{}

/// Seek is undo repeated, as few times as it takes to reach the tick number. What it reaches is a replay without these
/// inputs.
///
/// Needs: as `earlier_are_replays`, and a tick number that begins at 0 and goes on by one at most.
/// Mistake: a seek takes a record back before it looks, `sought_behind` (`stays_at_3`, `would_be_at_start`).
/// Witness: `gives_back`, `counts` and `seeks_1` of Mistakes.
pub fn seeks_are_undo_repeated<S, I, C>()
    ensures replays { (m : Machine S I C) (start : S) → SeeksAreReplays m start }
    ensures least { (m : Machine S I C) (start : S) → SeeksAreLeast m start }
{}

/// `when` gives the last change of a value. It is the greatest of the tick numbers not taken back at which the value
/// changed.
///
/// Needs: as `seeks_are_undo_repeated`.
/// Mistake: the tick number of a change is that of the state before it, `TellsTickBefore` (`tells_3`, `would_tell_2`).
/// Witness: `gives_back`, `counts` and `tells_3` of Mistakes.
pub fn last_is_greatest<S, I, C, V>()
    ensures { (m : Machine S I C) (start : S) (value : S → V) → LastIsGreatest m start value }
{}

/// A session is a replay of what remains. A bench that does what it says at each command answers right, and is in the
/// state of a replay of the inputs that were not undone, each of which was taken.
///
/// Needs: a record of its input's kind.
/// Mistake: an input that was undone remains, `taken_in_all` (`remains_7`, `would_remain`, `would_have_5`).
/// Witness: `tells_kinds`, `done` of Mistakes, a session of two inputs and an undo.
pub fn sessions_are_replays<S, I, C, W, V>()
    ensures answers { (m : Machine S I C) (start : S) (watched : W → S → V) → BenchesAnswer m start watched }
    ensures replays { (m : Machine S I C) (start : S) (watched : W → S → V) → SessionsAreReplays m start watched }
{}
