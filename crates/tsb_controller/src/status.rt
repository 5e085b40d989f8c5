//! The status of the controller, by the names of NTCIP 1202's status objects.
ghost use Rattle.std.specs.Prelude.{◌≡◌, ◌<◌, ◌≤◌, ◌||◌, ◌+◌, ◌*◌, ◌%◌, [], ◌∷◌, ℕ, true, option_map, if◌then◌else◌, IfSome, Some, None};
ghost use Rattle.tsb_objects.specs.Checked.{checked_plan};
ghost use Rattle.tsb_step.specs.tsb_types.declared.clock_time.TheConstants.{DAY, LAST_DAY};
ghost use Rattle.tsb_coord.specs.Cells as coord;
ghost use Rattle.tsb_ring.specs.Cells as rings;
ghost use Rattle.tsb_step.specs.tsb_plan.Parts.{cycle, is_used};
ghost use Rattle.tsb_step.specs.tsb_types.declared.event.TheConstants.{FREE};
ghost use Rattle.tsb_step.specs.tsb_types.Lists.{is, or_number};
ghost use Rattle.tsb_step.specs.tsb_types.Sets.{has_number};
ghost use Rattle.tsb_step.specs.declared.status.FlashStatus.TheVariants.{Mmu, NotFlash};
ghost use Rattle.tsb_step.specs.Status.{free_status, global_time, has_arrows, idle_state, state_in};
ghost use Rattle.tsb_step.specs.Step.{last_tick};
ghost use Rattle.tsb_controller.specs.Rows.{AreBy};
ghost use Rattle.tsb_controller.specs.StatusPromises.{TellsPattern, TellsPreempt, TellsPreempts, TellsSets, TellsStatus, force_off_by, ring_status_by, stage_by, state_by};

use crate::controller::Controller;
use crate::found::{RingTold, RingsTold};
use crate::seen::numbers;
use tsb_events::Seen;
use tsb_objects::limits::PREEMPTS;
use tsb_objects::{Checked, Interval, NumberSet, Pattern, Preempt, Stage, Station};
use tsb_status::{PhaseFound, RingStatus, Status, ring};
use tsb_step::{FlashStatus, FreeStatus, PreemptState};
use tsb_transact::DeskState;
use tsb_types::clock_time::CLOCK_EPOCH;
use tsb_types::event::FREE;

/// What a status has that the controller does not keep.
#[derive(Clone, Copy)]
pub struct Beside {
    /// The tick number.
    pub tick: u32,
    /// The tick number at which timers are read: that of the trip, where there is one.
    pub clock: u32,
    /// Whether the monitor has tripped the controller.
    pub tripped: bool,
    /// The station whose transaction is open.
    pub owner: Option<Station>,
    /// How far the transaction is.
    pub desk: DeskState,
}

/// The sets of a status that the log of a controller does not see.
#[derive(Clone, Copy)]
pub(crate) struct Sets {
    /// `phaseStatusGroupReds`.
    reds: NumberSet,
    /// `phaseStatusGroupDontWalks`.
    dont_walks: NumberSet,
    /// `phaseStatusGroupPhaseOns`.
    phase_ons: NumberSet,
    /// `overlapStatusGroupReds`.
    overlap_reds: NumberSet,
    /// Phases that are called and not Green.
    waiting: NumberSet,
}

/// The status of the pattern that runs.
#[derive(Clone, Copy)]
pub(crate) struct PatternTold {
    /// Its number, or `FREE`.
    number: u8,
    /// Why no pattern runs.
    free: FreeStatus,
    /// The local counter.
    local: Option<u32>,
    /// Where its cycle is.
    sync: Option<u32>,
    /// `globalTime`.
    time: Option<u32>,
}

/// The phases that the rings start next.
fn nexts(rings: &RingsTold) -> NumberSet
    ensures { (n : ℕ) → has_number result n ≡ (is n rings.now.first.next || is n rings.now.second.next) }
{
    let mut set = NumberSet::empty();
    if let Some(phase) = rings.first.next {
        set = set.with(phase.number(), true);
    }
    if let Some(phase) = rings.second.next {
        set = set.with(phase.number(), true);
    }
    set
}

/// The number of the pattern that runs.
fn number_of(runs: &Option<Pattern>) -> u8
    ensures { result ≡ or_number runs.now FREE }
{
    match runs {
        None => FREE,
        Some(n) => n.number(),
    }
}

/// Why no pattern runs, by the pattern that runs and the one that is selected.
fn free_status(runs: &Option<Pattern>, selected: Option<Pattern>) -> FreeStatus
    ensures { result ≡ free_status runs.now selected }
{
    if runs.is_some() {
        return FreeStatus::NotFree;
    }
    if selected.is_some() {
        FreeStatus::BadPlan
    } else {
        FreeStatus::CommandFree
    }
}

/// Where the cycle of the pattern that runs is, so many ticks after its reference.
fn sync(runs: &Option<Pattern>, clocked: u32, plan: &Checked) -> Option<u32>
    requires used { IfSome runs.now (λ n. is_used (checked_plan plan.now) n ≡ true) }
    ensures { result ≡ option_map (λ n. clocked % cycle (checked_plan plan.now) n) runs.now }
{
    match runs {
        None => None,
        Some(n) => Some(clocked % plan.plan().cycle(*n)),
    }
}

/// `globalTime` at tick number `now`, by the moment of tick number 0.
fn time(start: &Option<u64>, now: u32) -> Option<u32>
    requires counted { IfSome start.now (λ m. m < (LAST_DAY + 1) * DAY) }
    requires in_time { now ≤ last_tick }
    ensures { result ≡ option_map (λ m. global_time (m + now)) start.now }
{
    match start {
        None => None,
        Some(start) => Some(CLOCK_EPOCH + ((*start + u64::from(now)) / 10) as u32),
    }
}

/// Whether some overlap of the plan is an arrow.
fn has_arrows(plan: &Checked) -> bool
    ensures { result ≡ has_arrows (checked_plan plan.now) }
{
    plan.arrows().first().is_some()
}

/// The arrows that flash yellow, where the plan has an arrow.
fn arrows_of(seen: &Seen, plan: &Checked) -> Option<NumberSet>
    ensures { result ≡ (if has_arrows (checked_plan plan.now) then Some seen.now.overlap_arrows else None) }
{
    if has_arrows(plan) {
        Some(seen.overlap_arrows)
    } else {
        None
    }
}

/// `preemptState` of a stage, of a preempt that has entered or not.
fn state_in(entered: bool, stage: Stage) -> PreemptState
    ensures { result ≡ state_in entered stage }
{
    match stage {
        Stage::Exit => PreemptState::ExitStarted,
        Stage::Track if entered => PreemptState::TrackService,
        Stage::Dwell if entered => PreemptState::Dwell,
        _ => PreemptState::EntryStarted,
    }
}

/// `preemptState` of a preempt that is not in service: whether it is spent, and whether it is called.
fn idle_state(spent: bool, called: bool) -> PreemptState
    ensures { result ≡ idle_state spent called }
{
    if spent {
        return PreemptState::MaxPresence;
    }
    if called {
        PreemptState::NotActiveWithCall
    } else {
        PreemptState::NotActive
    }
}

/// The stage of a preempt, if it is the one in service.
fn stage_of(stage: &Option<(Preempt, Stage)>, n: Preempt) -> Option<Stage>
    ensures { result ≡ stage_by stage.now n }
{
    match stage {
        None => None,
        Some(served) => if served.0 == n { Some(served.1) } else { None },
    }
}

/// `preemptState` of a preempt by its stage, if it is the one in service.
fn state_by(entered: bool, spent: bool, called: bool, stage: Option<Stage>) -> PreemptState
    ensures { result ≡ state_by entered spent called stage }
{
    match stage {
        Some(stage) => state_in(entered, stage),
        None => idle_state(spent, called),
    }
}

/// `unitFlashStatus`.
fn flash(tripped: bool) -> FlashStatus
    ensures { result ≡ (if tripped then Mmu else NotFlash) }
{
    if tripped {
        FlashStatus::Mmu
    } else {
        FlashStatus::NotFlash
    }
}

impl Controller {
    ghost use Rattle.tsb_controller.specs.Layer.{rows_of};

    /// The sets of a status that the log does not see, beside those that it sees.
    fn sets(&self, seen: &Seen, plan: &Checked) -> Sets
        requires rings_by { rings.IsBy (rows_of self.now).rings }
        ensures { TellsSets seen.now (checked_plan plan.now) (rows_of self.now) result }
    {
        let display = self.heads(seen.flashes, plan);
        let lit = seen.greens.union(seen.yellows);
        let walking = seen.walks.union(seen.clearances);
        let called = seen.vehicle_calls.union(seen.pedestrian_calls);
        Sets {
            reds: numbers(plan.enabled()).difference(lit),
            dont_walks: numbers(plan.enabled().intersection(plan.with_walk())).difference(walking),
            phase_ons: lit.union(seen.red_clearances),
            overlap_reds: display.overlap_reds().union(display.overlaps_flashing()),
            waiting: called.difference(numbers(self.phases.intervals().green)),
        }
    }

    /// `preemptState` of a preempt, where the one in service has entered or not.
    fn preempt_state(&self, entered: bool, n: Preempt) -> PreemptState
        ensures { TellsPreempt entered (rows_of self.now) n result }
    {
        let spent = self.preempts.is_spent(n);
        let called = self.preempts.is_called(n);
        let stage = stage_of(&self.preempts.stage(), n);
        state_by(entered, spent, called, stage)
    }

    /// `preemptState` of each preempt in turn.
    fn preempt_states(&self, plan: &Checked) -> [PreemptState; PREEMPTS as usize]
        ensures { TellsPreempts (checked_plan plan.now) (rows_of self.now) result }
    {
        let entered = self.preempts.has_entered(&self.phases.intervals(), plan);
        let mut states = [PreemptState::NotActive; PREEMPTS as usize];
        for k in 0..PREEMPTS as usize {
            states[k] = self.preempt_state(entered, Preempt::of(k as u8 + 1));
        }
        states
    }

    /// The status of the pattern that runs, at tick number `now`.
    fn pattern_told(&self, now: u32, plan: &Checked) -> PatternTold
        requires pattern_by { coord.IsBy (rows_of self.now).pattern }
        requires in_time { now ≤ last_tick }
        ensures { TellsPattern now (checked_plan plan.now) (rows_of self.now) result }
    {
        let runs = self.coord.running(plan);
        PatternTold {
            number: number_of(&runs),
            free: free_status(&runs, self.coord.pattern()),
            local: self.coord.local(now, plan),
            sync: sync(&runs, self.coord.clocked(now, plan), plan),
            time: time(&self.coord.start(), now),
        }
    }

    /// Until the local counter is at the force-off instant of a green in a pattern, at tick number `now`.
    fn force_off_in(&self, served: &Option<PhaseFound>, now: u32, plan: &Checked) -> Option<u32>
        requires pattern_by { coord.IsBy (rows_of self.now).pattern }
        requires in_time { now ≤ last_tick }
        ensures { result ≡ force_off_by (checked_plan plan.now) now (rows_of self.now) served.now }
    {
        let Some(q) = served else {
            return None;
        };
        let (Interval::Green, Some(n)) = (q.times.interval, self.coord.running(plan)) else {
            return None;
        };
        let local = self.coord.local(now, plan)?;
        let instant = plan.force_off(n, q.phase)?;
        let cycle = plan.plan().cycle(n);
        Some((instant + cycle).saturating_sub(local) % cycle)
    }

    /// The status of a ring.
    fn ring_status(&self, told: &RingTold, beside: &Beside, plan: &Checked) -> RingStatus
        requires pattern_by { coord.IsBy (rows_of self.now).pattern }
        requires in_time { beside.now.tick ≤ last_tick }
        ensures { result ≡ ring_status_by (checked_plan plan.now) beside.now (rows_of self.now) told.now }
    {
        let served = if beside.tripped { None } else { told.served };
        let force_off_in = self.force_off_in(&served, beside.tick, plan);
        ring(plan, told.next, &served, force_off_in)
    }

    /// The statuses of both rings.
    fn ring_statuses(&self, told: &RingsTold, beside: &Beside, plan: &Checked) -> [RingStatus; 2]
        requires pattern_by { coord.IsBy (rows_of self.now).pattern }
        requires in_time { beside.now.tick ≤ last_tick }
        ensures { result ≡ ring_status_by (checked_plan plan.now) beside.now (rows_of self.now) told.now.first
            ∷ ring_status_by (checked_plan plan.now) beside.now (rows_of self.now) told.now.second ∷ [] }
    {
        [
            self.ring_status(&told.first, beside, plan),
            self.ring_status(&told.second, beside, plan),
        ]
    }

    /// The status of the controller. It takes no memory.
    pub fn status(&self, beside: &Beside, plan: &Checked) -> Status
        requires by { AreBy beside.now.clock (rows_of self.now) }
        requires clock { beside.now.clock ≤ last_tick }
        requires in_time { beside.now.tick ≤ last_tick }
        ensures { TellsStatus beside.now (checked_plan plan.now) (rows_of self.now) result }
    {
        let seen = self.view(beside.tripped, beside.clock, beside.tick, plan);
        let sets = self.sets(&seen, plan);
        let rings = self.rings_told(beside.clock, plan);
        let pattern = self.pattern_told(beside.tick, plan);
        Status {
            now: beside.tick,
            reds: sets.reds,
            yellows: seen.yellows,
            greens: seen.greens,
            dont_walks: sets.dont_walks,
            pedestrian_clears: seen.clearances,
            walks: seen.walks,
            vehicle_calls: seen.vehicle_calls,
            pedestrian_calls: seen.pedestrian_calls,
            phase_ons: sets.phase_ons,
            phase_nexts: nexts(&rings),
            overlap_reds: sets.overlap_reds,
            overlap_yellows: seen.overlap_yellows,
            overlap_greens: seen.overlap_greens,
            overlap_arrows: arrows_of(&seen, plan),
            active: self.detectors.outputs(),
            alarms: seen.alarms,
            preempts: self.preempt_states(plan),
            pattern: pattern.number,
            free: pattern.free,
            local: pattern.local,
            sync: pattern.sync,
            time: pattern.time,
            flash: flash(beside.tripped),
            owner: beside.owner,
            desk: beside.desk,
            rings: self.ring_statuses(&rings, beside, plan),
            waits: self.waits_of(sets.waiting, &rings, beside, plan),
        }
    }
}
