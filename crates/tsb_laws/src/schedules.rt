//! What the schedule of a plan does in a session, each law the contract of a function that does nothing.
ghost use Rattle.tsb_laws.specs.Schedules.{NothingFollowsWithoutClock, NothingFollowsWithoutSchedule, PatternsFollowAlone, SchedulesAreCommands};

/// What a schedule does are commands. The inputs that a command leaves where the schedule acts are those that parts of
/// it leave where the schedule does not act: the command itself or some of its ticks, and `pattern` and `omit` commands
/// between. So all laws of runs are of runs with a schedule, too.
///
/// Not said: which patterns and arrows these are, which `followers` of tsb_text gives; the text, which `Obeys` gives.
/// Mistake: free operation is selected by a reset, `by_reset` (`would_reset`, `is_no_part`).
/// Witness: `at_a_minute` of Witness, a tick that ends a minute, and a pattern after it.
pub fn schedules_are_commands()
    ensures { SchedulesAreCommands }
{}

/// Without a clock nothing follows an input. Where the state after it has no clock, the schedule selects nothing.
///
/// Mistake: where no clock is set tick number 0 is the first moment, `from_zero` (`would_follow`).
/// Witness: `has_no_clock` of Witness, a tick from power-up of a plan with a schedule.
pub fn nothing_follows_without_a_clock()
    ensures { NothingFollowsWithoutClock }
{}

/// Without a schedule nothing follows an input. Where the plan in effect after it has no entry that names a day plan,
/// the schedule selects nothing.
///
/// Mistake: an action is in force in every plan, and it is none without an entry, `in_any_plan` (`would_free`).
/// Witness: `has_no_schedule` of Witness, a clock that is set in the built-in plan of eight phases.
pub fn nothing_follows_without_a_schedule()
    ensures { NothingFollowsWithoutSchedule }
{}

/// A pattern follows alone where no action omits other arrows than those that are omitted, as in each plan whose actions
/// omit none and in which no `omit` command came: what follows an input is the pattern that the schedule selects, if it
/// selects one.
///
/// Mistake: the arrows follow each pattern, also where they are those that are omitted, `at_each_pattern` (`would_omit`).
/// Witness: `tick_selects_1` of Witness, a tick that ends a minute, which is followed by pattern 1 and nothing else.
pub fn patterns_follow_alone()
    ensures { PatternsFollowAlone }
{}
