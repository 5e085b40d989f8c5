//! How the local counter comes into step once a pattern is selected while another one ran (`coordCorrectionMode`,
//! profile). Times are in ticks.
ghost use Rattle.std.specs.Prelude.{◌≡◌, ◌<◌, ◌≤◌, ◌+◌, ◌-◌, true, Some, IfSome};
ghost use Rattle.tsb_objects.specs.tsb_types.declared.clock_time.TheConstants.{DAY, FIRST_MOMENT};
ghost use Rattle.tsb_objects.specs.tsb_types.declared.limits.TheConstants.{TICKS};
ghost use Rattle.tsb_objects.specs.tsb_plan.declared.plan.patterns.CorrectionMode.TheVariants.{Dwell};
ghost use Rattle.tsb_objects.specs.tsb_plan.Parts.{cycle, is_used};
ghost use Rattle.tsb_objects.specs.Checked.{checked_plan};
ghost use Rattle.tsb_coord.specs.Clock.{shift};
ghost use Rattle.tsb_coord.specs.Correction.{lost, gained, longest_wait, waited, way, by_short_way, ahead_by, ahead_in, begun, ahead_with, ahead_from};

use crate::clock::shift;
use crate::counting::{counter, cycle_of};
use tsb_objects::{Checked, CorrectionMode, Pattern};

/// Since when the local counter is being brought into step, and how far it was ahead then.
#[derive(Clone, Copy, PartialEq, Eq)]
pub struct Correction {
    /// The tick number at which the pattern was selected.
    pub since: u32,
    /// How many ticks the local counter was ahead of the one in step; 0 for in step.
    pub ahead: u32,
    /// The midnight that it counts from, as cell 3 has it: how long after it tick number 0 comes, in ticks, and eight
    /// days; 0 where no clock is set.
    pub midnight: u32,
}

/// How many ticks a cycle that is made longer loses in so many.
fn lost(limit: u32, ticks: u32) -> u32
    requires limit { limit ≤ 50 }
    requires ticks { ticks ≤ TICKS }
    ensures { result ≡ lost limit ticks }
{
    ticks * limit / (100 + limit)
}

/// How many ticks a cycle that is made shorter gains in so many.
fn gained(limit: u32, ticks: u32) -> u32
    requires limit { limit ≤ 50 }
    requires ticks { ticks ≤ TICKS }
    ensures { result ≡ gained limit ticks }
{
    ticks * limit / (100 - limit)
}

/// For how long the counter waits in a cycle at most.
fn longest_wait(limit: u32, cycle: u32) -> u32
    requires limit { limit ≤ 50 }
    requires small { cycle ≤ 2550 }
    ensures value { result ≡ longest_wait limit cycle }
    ensures within { result ≤ 2550 }
{
    if limit == 0 {
        cycle
    } else {
        (cycle * limit / 100).max(1)
    }
}

/// How long the counter has waited, so many ticks after it first came to where it waits.
fn waited(cycle: u32, most: u32, ticks: u32) -> u32
    requires some { 1 ≤ cycle }
    requires small { cycle ≤ 2550 }
    requires most { most ≤ 2550 }
    ensures value { result ≡ waited cycle most ticks }
    ensures within { result ≤ ticks }
{
    let round = cycle + most;
    ticks / round * most + most.min(ticks % round)
}

/// How many ticks the local counter takes to where it waits from where it stood at the selection.
fn way(plan: &Checked, n: Pattern, begun: Correction) -> u32
    requires used { is_used (checked_plan plan.now) n ≡ true }
    requires since { begun.since ≤ TICKS }
    requires ahead { begun.ahead ≤ 2550 }
    requires midnight { begun.midnight < FIRST_MOMENT + DAY }
    ensures value { result ≡ way (checked_plan plan.now) n begun }
    ensures below { result < cycle (checked_plan plan.now) n }
{
    let cycle = cycle_of(plan, n);
    let since = begun.since + shift(plan, n, begun.midnight);
    let from = (counter(plan, n, since) + begun.ahead) % cycle;
    (plan.waiting_point(n) + (cycle - from)) % cycle
}

/// How far a counter is ahead that goes the short way, so many ticks after the selection.
fn by_short_way(cycle: u32, limit: u32, ahead: u32, ticks: u32) -> u32
    requires some { 1 ≤ cycle }
    requires small { cycle ≤ 2550 }
    requires limit { limit ≤ 50 }
    requires ahead { ahead < cycle }
    requires ticks { ticks ≤ TICKS }
    ensures value { result ≡ by_short_way cycle limit ahead ticks }
    ensures below { result < cycle }
{
    if 2 * ahead <= cycle {
        return ahead.saturating_sub(lost(limit, ticks));
    }
    let rest = cycle - ahead;
    (ahead + rest.min(gained(limit, ticks))) % cycle
}

/// How far a counter is ahead that waits by that limit, so many ticks after the selection.
fn by_dwell(plan: &Checked, n: Pattern, begun: Correction, ticks: u32) -> u32
    requires used { is_used (checked_plan plan.now) n ≡ true }
    requires since { begun.since ≤ TICKS }
    requires ahead { begun.ahead ≤ 2550 }
    requires midnight { begun.midnight < FIRST_MOMENT + DAY }
    ensures value { result ≡ ahead_by Dwell (checked_plan plan.now) n begun ticks }
    ensures within { result ≤ begun.ahead }
{
    let cycle = cycle_of(plan, n);
    let most = longest_wait(plan.plan().correction_limit(), cycle);
    let there = ticks.saturating_sub(way(plan, n, begun));
    begun.ahead.saturating_sub(waited(cycle, most, there))
}

/// How many ticks the local counter of a pattern is ahead of the one in step in tick `t`.
pub(crate) fn ahead_in(plan: &Checked, n: Pattern, correction: Correction, t: u32) -> u32
    requires used { is_used (checked_plan plan.now) n ≡ true }
    requires since { correction.since ≤ TICKS }
    requires midnight { correction.midnight < FIRST_MOMENT + DAY }
    requires in_time { t ≤ TICKS }
    ensures value { result ≡ ahead_in (checked_plan plan.now) (Some n) correction t }
    ensures small { result ≤ 2550 }
{
    if correction.ahead == 0 {
        return 0;
    }
    let cycle = cycle_of(plan, n);
    let within = Correction {
        ahead: correction.ahead % cycle,
        ..correction
    };
    let ahead = within.ahead;
    let ticks = t.saturating_sub(correction.since);
    let limit = plan.plan().correction_limit();
    match plan.plan().correction_mode() {
        CorrectionMode::AtOnce => 0,
        CorrectionMode::Dwell => by_dwell(plan, n, within, ticks),
        CorrectionMode::ShortWay => by_short_way(cycle, limit, ahead, ticks),
        CorrectionMode::AddOnly => ahead.saturating_sub(lost(limit, ticks)),
    }
}

/// How many ticks the local counter of a pattern was ahead before tick `t`; where it was in step, it is and stays so.
#[inline(always)]
pub(crate) fn ahead_before(plan: &Checked, n: Pattern, correction: Correction, t: u32) -> u32
    requires used { is_used (checked_plan plan.now) n ≡ true }
    requires since { correction.since ≤ TICKS }
    requires midnight { correction.midnight < FIRST_MOMENT + DAY }
    requires in_time { t ≤ TICKS }
    ensures value { result ≡ ahead_in (checked_plan plan.now) (Some n) correction (t - 1) }
    ensures small { result ≤ 2550 }
{
    if correction.ahead == 0 {
        return 0;
    }
    ahead_in(plan, n, correction, t.saturating_sub(1))
}

/// How many ticks a counter is ahead that goes on from another one's place, by mode.
fn ahead_with(mode: CorrectionMode, ahead: u32) -> u32
    ensures value { result ≡ ahead_with mode ahead }
    ensures within { result ≤ ahead }
{
    match mode {
        CorrectionMode::AtOnce => 0,
        CorrectionMode::Dwell | CorrectionMode::ShortWay | CorrectionMode::AddOnly => ahead,
    }
}

/// How the local counter of a pattern that is selected in tick `now` comes into step with this midnight, where that of the
/// old pattern stood there, if one ran.
pub(crate) fn begun(
    plan: &Checked,
    n: Pattern,
    now: u32,
    midnight: u32,
    local: &Option<u32>,
) -> Correction
    requires used { IfSome local.now (λ l. is_used (checked_plan plan.now) n ≡ true) }
    requires in_time { now ≤ TICKS }
    requires midnight { midnight < FIRST_MOMENT + DAY }
    ensures value { result ≡ begun now midnight (ahead_from (checked_plan plan.now) n (now + shift (cycle (checked_plan plan.now) n) midnight) local.now) }
    ensures since { result.since ≤ TICKS }
    ensures ahead { result.ahead ≤ 2550 }
    ensures midnight { result.midnight < FIRST_MOMENT + DAY }
{
    let in_step = Correction {
        since: 0,
        ahead: 0,
        midnight,
    };
    let Some(local) = local else {
        return in_step;
    };
    let cycle = cycle_of(plan, n);
    let rest = cycle - counter(plan, n, now + shift(plan, n, midnight));
    let mode = plan.plan().correction_mode();
    let ahead = ahead_with(mode, (*local % cycle + rest) % cycle);
    if ahead == 0 {
        in_step
    } else {
        Correction {
            since: now,
            ahead,
            midnight,
        }
    }
}
