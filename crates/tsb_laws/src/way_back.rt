//! What holds of the cells and the records of every run, each law the contract of a function that does nothing.
ghost use Rattle.tsb_laws.specs.WayBack.{CellsTellTheState, CheckedPlansAreHeld, CheckedPlansAreInRange, EarlierAreShorterRuns, EqualCellsAreEqualStates, PastsAreTheRun, RecordsTakeBack, StatesHaveRows, WaitingTimersAreNotWritten};

/// The cells are the state. The cells of a state of a run, read at its tick number, are that state; equal cells at
/// equal tick numbers are equal states, whatever runs they come from; and the bench has rows for each (`HasRows`).
///
/// Needs: a plan such as the program holds (`IsHeld`), and inputs whose numbers are of its types (`AreTyped`).
/// Not said: that a run can be kept in memory.
/// Mistakes: a clock that goes on while the controller has tripped, `clock_goes_on` (`reads_12`, `would_read_22`);
/// cells without the commitments, `cells_without` (`would_be_equal`); cells of the pattern without how its local
/// counter comes into step, `pattern_alone` (`are_told`, `would_be_alike`).
/// Witness: `ran` of Witness, a run with a transaction, a fault and a trip, and `comes_into_step`.
pub fn cells_tell_the_state()
    ensures told { CellsTellTheState }
    ensures equal { EqualCellsAreEqualStates }
    ensures rows { StatesHaveRows }
{}

/// `held`: The plans that the program runs are among those that the laws of cells and records speak of. Each checked
/// plan is one of them.
///
/// Mistake: plans that break no rule, whatever their values are, `over` (`would_pass`, `is_too_great`).
/// Witness: `held` of Witness, the built-in plan of two phases.
///
/// `range`: No value of a checked plan is over the greatest that its numbers of phases and sides allow. So the law that
/// all red ends speaks of it too.
///
/// Mistake: plans that break no rule, whatever their values are, `over` (`would_pass`, `is_too_great`).
/// Witness: `held` of Witness, the built-in plan of two phases.
pub fn checked_plans_are_held()
    ensures held { CheckedPlansAreHeld }
    ensures range { CheckedPlansAreInRange }
{}

/// The records are the run. The record of each input of a run gives back the state before it; so the records, taken
/// back one by one, give the earlier states of the run.
///
/// Needs: as `cells_tell_the_state`.
/// Mistakes: a record of what cells hold after the input (`gives_back`, `would_stay`); one that leaves the tick number,
/// `ticks_of_none` of tsb_step (`goes_to_6`, `would_be_at_7`).
/// Witness: `ran` of Witness.
pub fn pasts_are_the_run()
    ensures back { RecordsTakeBack }
    ensures pasts { PastsAreTheRun }
    ensures earlier { EarlierAreShorterRuns }
{}

/// A timer that waits or runs on is not written. In the record of a tick the cell of a timer has an entry exactly where
/// it did not stay Off and did not run on.
///
/// Mistake: a cell that counts, `counting_cell` (`stays_8`, `would_be_written`).
/// Witness: `ran` of Witness, in whose first tick a timer starts (`was_off`, `starts`) and another runs on (`runs_on`).
pub fn waiting_timers_are_not_written()
    ensures { WaitingTimersAreNotWritten }
{}
