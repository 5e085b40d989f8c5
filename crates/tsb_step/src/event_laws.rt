//! Laws of events, each the contract of a function that does nothing.
ghost use Rattle.tsb_step.specs.EventLaws.{GreensEndWithOneCause, OthersHaveNoCause, QuietTicksTellNothing};

/// `one`: A green that a tick ends, and that no preempt asked to end, has an event with exactly one cause: gap, maximum
/// or force-off. This holds from any state that has not tripped, not only in runs.
///
/// Mistake: each cause that applies has an event of its own, `gap_applies` and `maximum_applies` of tsb_phase.
/// Witness: `ends_freely_2` of EventExamples.
///
/// `none`: No other phase has an event with a cause: none that stays Green, and none that a preempt ends.
///
/// Mistake: each green that ends has an event with its cause, `is_preempted` and `would_be_told` of EventExamples.
/// Witness: `stays` of EventExamples.
pub fn greens_end_with_one_cause()
    ensures one { GreensEndWithOneCause }
    ensures none { OthersHaveNoCause }
{}

/// A tick in which only time passes has no event. Its inputs are those of the tick before, and no minimum green and no
/// red clearance ends its time in it. The local counter goes on as before, and comes neither to local zero nor to a
/// yield point. So a bench that passes over such ticks leaves no event out.
///
/// Needs: that the row of the tick before is the same; of another one the inputs that change have events. And that no
/// such time ends and no such place is met: nothing else changes then for a phase that rests, or that waits for the
/// other ring (`completed`, `waits_on`, `told_as_it_waits`).
/// Not said: which ticks are quiet.
/// Mistake: each tick repeats the events of all calls that stay, `stands` of EventExamples.
/// Witness: `quiet_as_it_flashes` of EventExamples, with `is_quiet` and `no_time_ends`.
pub fn quiet_ticks_tell_nothing()
    ensures { QuietTicksTellNothing }
{}
