//! What is left of the times of a phase, and what its green lacks, of the timers as the last tick left them. Times are in
//! tenths of a second.
ghost use Rattle.std.specs.Prelude.{◌≡◌, None, if◌then◌else◌};
ghost use Rattle.tsb_step.specs.tsb_cells.Timer.{has_reached, advanced};
ghost use Rattle.tsb_objects.specs.Checked.{checked_plan};
ghost use Rattle.tsb_phase.specs.Green.{conflict_timer, floats_off, forced_latch, gap_has_expired, gapped_latch, has_maxed_out, initial_has_passed, is_gapped, passage_timer, reduction_timer};
ghost use Rattle.tsb_phase.specs.Green as timing;
ghost use Rattle.tsb_phase.specs.Pedestrian.{clearance_time, ended_by, walk_time};
ghost use Rattle.tsb_phase.specs.Phase.{held_of};
ghost use Rattle.tsb_phase.specs.Ready.{is_over, may_end, red_revert_passed, yellow_is_done};
ghost use Rattle.tsb_step.specs.Waits.{cause_lack, clearance_left_in, gap_left, green_lack, left, part_lack, time_to_last};
ghost use Rattle.tsb_status.specs.Times.{given_by, phase_by, read_by};

use tsb_cells::Timer;
use tsb_objects::{Checked, Interval, Pattern, PedestrianInterval, Phase, Preempt};
use tsb_phase::{PhaseTimes, Phases};
use tsb_step::Lack;

/// What the times of a green depend on beside its timers.
#[derive(Clone, Copy)]
pub struct GreenFound {
    /// The vehicles that it has counted, up to 255.
    pub count: u8,
    /// The pattern that runs.
    pub runs: Option<Pattern>,
    /// The preempt in service.
    pub service: Option<Preempt>,
    /// Whether it is a coordinated phase of the pattern that runs.
    pub is_held: bool,
    /// Whether a preempt is in service whose stage does not have it.
    pub must_end: bool,
}

/// What is left of a time: all of it while its timer is Off.
pub fn left(time: u32, timer: Timer) -> u32
    ensures { result ≡ left time timer }
{
    match timer {
        Timer::Off => time,
        Timer::On(ticks) => time.saturating_sub(ticks),
    }
}

/// Whether a timer has reached a time in the next tick.
fn reaches(timer: Timer, time: u32) -> bool
    ensures { result ≡ has_reached (advanced timer) time }
{
    match timer {
        Timer::Off => false,
        Timer::On(ticks) => time.saturating_sub(1) <= ticks,
    }
}

/// What is left of the yellow change and red clearance of a phase.
pub fn until_over(plan: &Checked, p: Phase, x: &PhaseTimes) -> u32
    ensures { result ≡ clearance_left_in (checked_plan plan.now) p x.now.timer x.now.interval }
{
    match x.interval {
        Interval::Red => 0,
        Interval::Green => 0,
        Interval::Yellow => {
            let yellow = left(plan.plan().yellow_change(p), x.timer);
            yellow.saturating_add(plan.plan().red_clear(p))
        }
        Interval::RedClear => left(plan.plan().red_clear(p), x.timer),
    }
}

/// Whether the yellow of a phase is done in the next tick.
fn ends_yellow(plan: &Checked, p: Phase, x: &PhaseTimes) -> bool
    ensures { result ≡ yellow_is_done (checked_plan plan.now) p (read_by x.now) }
{
    matches!(x.interval, Interval::Yellow) && reaches(x.timer, plan.plan().yellow_change(p))
}

/// Whether the clearance of a phase is done in the next tick.
#[tactic(auto, unfolding(tsb_phase::specs::Ready::is_over))]
pub fn is_over(plan: &Checked, p: Phase, x: &PhaseTimes) -> bool
    ensures { result ≡ is_over (checked_plan plan.now) p (read_by x.now) }
{
    match x.interval {
        Interval::Red => false,
        Interval::Green => false,
        Interval::Yellow => ends_yellow(plan, p, x) && plan.plan().red_clear(p) == 0,
        Interval::RedClear => reaches(x.timer, plan.plan().red_clear(p)),
    }
}

/// Whether the red revert of a phase has passed in the next tick.
#[tactic(auto, unfolding(tsb_phase::specs::Ready::red_revert_passed))]
pub fn is_reverted(plan: &Checked, p: Phase, x: &PhaseTimes) -> bool
    ensures { result ≡ red_revert_passed (checked_plan plan.now) p (read_by x.now) }
{
    if ends_yellow(plan, p, x) {
        return plan.plan().red_revert(p) == 0;
    }
    match x.red_revert {
        Timer::Off => true,
        Timer::On(_) => reaches(x.red_revert, plan.plan().red_revert(p)),
    }
}

/// The preempt that ends a phase.
fn ending(found: &GreenFound) -> Option<Preempt>
    ensures { result ≡ (if found.now.must_end then found.now.service else None) }
{
    if found.must_end { found.service } else { None }
}

/// The time that a green has to last.
fn to_last(plan: &Checked, p: Phase, found: &GreenFound, x: &PhaseTimes) -> u32
    ensures { result ≡ time_to_last (checked_plan plan.now) (given_by found.now x.now) p (ended_by (given_by found.now x.now) p) }
{
    let initial = Phases::initial(plan, p, found.count);
    match ending(found) {
        None => initial,
        Some(n) => initial.min(plan.plan().preempt_minimum_green(n)),
    }
}

/// What is left of the initial time of a green.
pub fn initial_left(plan: &Checked, p: Phase, found: &GreenFound, x: &PhaseTimes) -> u32
    ensures { result ≡ left (time_to_last (checked_plan plan.now) (given_by found.now x.now) p (ended_by (given_by found.now x.now) p)) x.now.timer }
{
    left(to_last(plan, p, found, x), x.timer)
}

/// What is left of a walk.
pub fn walk_left(plan: &Checked, p: Phase, found: &GreenFound, x: &PhaseTimes) -> u32
    ensures { result ≡ left (walk_time (checked_plan plan.now) p (ended_by (given_by found.now x.now) p)) x.now.pedestrian_timer }
{
    let walk = plan.plan().walk(p);
    let time = match ending(found) {
        None => walk,
        Some(n) => walk.min(plan.plan().preempt_minimum_walk(n)),
    };
    left(time, x.pedestrian_timer)
}

/// What is left of a pedestrian clearance.
pub fn clearance_left(plan: &Checked, p: Phase, found: &GreenFound, x: &PhaseTimes) -> u32
    ensures { result ≡ left (clearance_time (checked_plan plan.now) p (ended_by (given_by found.now x.now) p)) x.now.pedestrian_timer }
{
    let clearance = plan.plan().pedestrian_clear(p);
    let time = match ending(found) {
        None => clearance,
        Some(n) => clearance.min(plan.plan().enter_pedestrian_clear(n)),
    };
    left(time, x.pedestrian_timer)
}

/// The gap for a reduction timer.
pub fn gap_of(plan: &Checked, p: Phase, reduction: Timer) -> u32
    ensures { result ≡ timing.gap (checked_plan plan.now) p reduction }
{
    match reduction {
        Timer::Off => Phases::gap(plan, p, None),
        Timer::On(ticks) => Phases::gap(plan, p, Some(ticks)),
    }
}

/// What is left of the gap in force.
pub fn gap_left(plan: &Checked, p: Phase, x: &PhaseTimes) -> u32
    ensures { result ≡ gap_left (checked_plan plan.now) p (phase_by x.now) }
{
    left(gap_of(plan, p, x.reduction), x.passage)
}

/// The reduction timer of a green, which runs while there is a conflict.
#[tactic(auto, unfolding(tsb_phase::specs::Green::reduction_timer, tsb_phase::specs::Green::cars_waiting))]
fn reduction(plan: &Checked, p: Phase, found: &GreenFound, x: &PhaseTimes) -> Timer
    ensures { result ≡ reduction_timer (checked_plan plan.now) (given_by found.now x.now) p (held_of (phase_by x.now)) }
{
    if !x.conflict.is_on() {
        return Timer::Off;
    }
    match x.reduction {
        Timer::On(ticks) => Timer::On(ticks),
        Timer::Off => {
            if x.conflict.has_reached(plan.plan().time_before_reduction(p)) {
                Timer::On(0)
            } else {
                Timer::Off
            }
        }
    }
}

/// The passage timer of a green.
fn passage(p: Phase, found: &GreenFound, x: &PhaseTimes) -> Timer
    ensures { result ≡ passage_timer (given_by found.now x.now) p (held_of (phase_by x.now)) }
{
    match x.passage {
        Timer::Off => Timer::Off,
        Timer::On(ticks) => Timer::On(ticks),
    }
}

/// The conflict timer of a green.
fn conflict(p: Phase, found: &GreenFound, x: &PhaseTimes) -> Timer
    ensures { result ≡ conflict_timer (given_by found.now x.now) p (held_of (phase_by x.now)) }
{
    match x.conflict {
        Timer::Off => Timer::Off,
        Timer::On(ticks) => Timer::On(ticks),
    }
}

/// Whether a green has lasted its initial time.
fn has_lasted(plan: &Checked, p: Phase, found: &GreenFound, x: &PhaseTimes) -> bool
    ensures { result ≡ initial_has_passed (checked_plan plan.now) (given_by found.now x.now) p (held_of (phase_by x.now)) }
{
    x.timer.has_reached(Phases::initial(plan, p, found.count))
}

/// Whether the gap of a green has expired.
fn has_expired(plan: &Checked, p: Phase, found: &GreenFound, x: &PhaseTimes) -> bool
    ensures { result ≡ gap_has_expired (checked_plan plan.now) (given_by found.now x.now) p (held_of (phase_by x.now)) }
{
    passage(p, found, x).has_reached(gap_of(plan, p, reduction(plan, p, found, x)))
}

/// Whether a green has gapped out for as long as there is a conflict.
fn stays_gapped(plan: &Checked, p: Phase, found: &GreenFound, x: &PhaseTimes) -> bool
    ensures { result ≡ gapped_latch (checked_plan plan.now) (given_by found.now x.now) p (held_of (phase_by x.now)) }
{
    let lasts = has_lasted(plan, p, found, x);
    let expired = has_expired(plan, p, found, x);
    let gapped = x.gapped || (lasts && expired);
    plan.plan().disables_simultaneous_gap(p) && (x.conflict.is_on() && gapped)
}

/// Whether a green has gapped out.
pub fn has_gapped(plan: &Checked, p: Phase, found: &GreenFound, x: &PhaseTimes) -> bool
    ensures { result ≡ is_gapped (checked_plan plan.now) (given_by found.now x.now) p (held_of (phase_by x.now)) }
{
    has_expired(plan, p, found, x) || stays_gapped(plan, p, found, x)
}

/// Whether a green has lasted its split, with floating force-off.
fn floats_off(plan: &Checked, p: Phase, found: &GreenFound, x: &PhaseTimes) -> bool
    ensures { result ≡ floats_off (checked_plan plan.now) (given_by found.now x.now) p (held_of (phase_by x.now)) }
{
    match plan.plan().floating_time(found.runs, p) {
        None => false,
        Some(time) => x.timer.has_reached(time),
    }
}

/// Whether its force-off has come.
#[tactic(auto, using(crate::proofs::TimesLemmas::once_forced))]
fn is_forced(plan: &Checked, p: Phase, found: &GreenFound, x: &PhaseTimes) -> bool
    ensures { result ≡ forced_latch (checked_plan plan.now) (given_by found.now x.now) p (held_of (phase_by x.now)) }
{
    let comes = x.forced || floats_off(plan, p, found, x);
    found.runs.is_some() && (found.service.is_none() && (x.conflict.is_on() && comes))
}

/// Whether the maximum that acts on it has passed, if one does.
fn has_maxed_out(plan: &Checked, p: Phase, found: &GreenFound, x: &PhaseTimes) -> bool
    ensures { result ≡ has_maxed_out (checked_plan plan.now) (given_by found.now x.now) p (held_of (phase_by x.now)) x.now.running_maximum }
{
    let conflict = conflict(p, found, x);
    match Phases::maximum(plan, found.runs, p, x.running_maximum) {
        None => false,
        Some(maximum) => conflict.has_reached(maximum),
    }
}

/// Whether a green that has lasted its initial time may end.
fn may_end(plan: &Checked, p: Phase, found: &GreenFound, x: &PhaseTimes) -> bool
    ensures { result ≡ may_end (checked_plan plan.now) (given_by found.now x.now) p (phase_by x.now) }
{
    let forced = is_forced(plan, p, found, x);
    if found.is_held && found.service.is_none() {
        return forced;
    }
    let gapped = has_gapped(plan, p, found, x);
    let by_gap = gapped && !plan.plan().is_on_maximum_recall(found.runs, p);
    let maxed = has_maxed_out(plan, p, found, x);
    by_gap || (maxed || forced)
}

/// What is lacking of all but its pedestrians and its initial time.
fn cause_lack(plan: &Checked, p: Phase, found: &GreenFound, x: &PhaseTimes) -> Option<Lack>
    ensures { result ≡ cause_lack (checked_plan plan.now) (given_by found.now x.now) p (phase_by x.now) }
{
    let ends = ending(found).is_some();
    if ends || may_end(plan, p, found, x) {
        return None;
    }
    if found.is_held && found.service.is_none() {
        return Some(Lack::ForceOff);
    }
    Some(Lack::Gap(gap_left(plan, p, x)))
}

/// What is lacking of all but its pedestrians.
fn green_lack(plan: &Checked, p: Phase, found: &GreenFound, x: &PhaseTimes) -> Option<Lack>
    ensures { result ≡ green_lack (checked_plan plan.now) (given_by found.now x.now) p (phase_by x.now) }
{
    let time = to_last(plan, p, found, x);
    if x.timer.has_reached(time) {
        cause_lack(plan, p, found, x)
    } else {
        Some(Lack::Initial(left(time, x.timer)))
    }
}

/// What a green lacked in the last tick; none where it could have ended.
pub fn lack(plan: &Checked, p: Phase, found: &GreenFound, x: &PhaseTimes) -> Option<Lack>
    ensures { result ≡ part_lack (checked_plan plan.now) (given_by found.now x.now) p (phase_by x.now) x.now.pedestrian }
{
    match x.pedestrian {
        PedestrianInterval::DontWalk => green_lack(plan, p, found, x),
        PedestrianInterval::Walk => Some(Lack::Walk(walk_left(plan, p, found, x))),
        PedestrianInterval::PedestrianClear => {
            Some(Lack::Clearance(clearance_left(plan, p, found, x)))
        }
    }
}
