//! What holds of all breaches of a plan, each the contract of a function that does nothing.
ghost use Rattle.tsb_breaches.specs.Laws.{FirstIsFirstBroken, NoneWhereConsistent};

/// Breaches begin with the rule that a check names. Of each plan of 16 phases and 4 sides the first breach is of the first
/// rule that the plan breaks, and there is no breach exactly where it breaks none.
///
/// Not said: that each rule behind the first has all its places where the first is broken: a pattern without a split
/// table has none of K18, K19 and K20.
/// Mistakes: a K8 that tells a yellow of 3 seconds too, `tells_at_least_yellow` (`breaks_none`, `would_be_told`); a K20
/// that tells the ends of a pattern that leads and lags too, `tells_all_ends` (`may_end_apart`, `would_tell_ends`); a
/// K23 that does not tell a permissive time of the whole cycle, `tells_over_cycle` (`breaks_23`, `would_not_be_told`).
/// Witness: `breaks_8` of Mistakes, the built-in plan of eight phases with a yellow of 2.9 s.
pub fn breaches_begin_with_the_first_rule()
    ensures first { FirstIsFirstBroken }
    ensures none { NoneWhereConsistent }
{}
