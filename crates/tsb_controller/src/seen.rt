//! What the log of a controller sees of the layers.
ghost use Rattle.tsb_types.specs.declared.limits.TheConstants.{OVERLAPS};
ghost use Rattle.std.specs.Prelude.{◌≡◌, ◌==◌, ◌&&◌, ◌||◌, ◌≤◌, ◌<◌, ℕ, Bool, true, false, not, if◌then◌else◌};
ghost use Rattle.std.specs.List.{list_any};
ghost use Rattle.tsb_step.specs.tsb_types.declared.interval.Interval.TheVariants.{Red};
ghost use Rattle.tsb_step.specs.tsb_types.declared.interval.PedestrianInterval.TheVariants.{DontWalk};
ghost use Rattle.tsb_step.specs.tsb_types.Flow.{interval_of, pedestrian_of};
ghost use Rattle.tsb_step.specs.tsb_types.Lists.{run_from};
ghost use Rattle.tsb_step.specs.tsb_types.Sets.{has, has_number};
ghost use Rattle.tsb_step.specs.tsb_plan.Parts.{is_arrow, is_modifier};
ghost use Rattle.tsb_step.specs.tsb_plan.Plan.{Plan};
ghost use Rattle.tsb_step.specs.tsb_plan.Running.{is_on_maximum_recall, is_on_minimum_recall, running};
ghost use Rattle.tsb_step.specs.Step.{last_tick};
ghost use Rattle.tsb_step.specs.Events.{is_by, is_track, serves, stage_is_green};
ghost use Rattle.tsb_preempt.specs.Preempts.{is_dwell, is_exit};
ghost use Rattle.tsb_preempt.specs.Service.{all_green};
ghost use Rattle.tsb_objects.specs.Checked.{checked_plan};
ghost use Rattle.tsb_ring.specs.Cells as rings;
ghost use Rattle.tsb_coord.specs.Cells as coord;
ghost use Rattle.tsb_overlap.specs.Cells as overlaps;
ghost use Rattle.tsb_coord.specs.Cells.{pattern_in};
ghost use Rattle.tsb_controller.specs.Seen.{IsStanding, TellsSeen, TellsTrails, is_off_beside};

use crate::controller::Controller;
use tsb_calls::{Observed, Standing};
use tsb_events::Seen;
use tsb_objects::limits::OVERLAPS;
use tsb_objects::{Checked, Intervals, NumberSet, Overlap, Pedestrians, PhaseSet, Preempt, Stage};
use tsb_preempt::stage_phases;

/// The numbers of the phases of a set.
pub(crate) fn numbers(phases: PhaseSet) -> NumberSet
    ensures { (n : ℕ) → has_number result n ≡ has phases n }
{
    NumberSet::from_list(phases.list())
}

/// The intervals as a log sees them: in flash no phase is in service (profile).
pub(crate) fn shown_intervals(tripped: bool, intervals: &Intervals) -> Intervals
    ensures { (p : ℕ) → interval_of result p ≡ (if tripped then Red else interval_of intervals.now p) }
{
    if !tripped {
        return *intervals;
    }
    Intervals {
        green: PhaseSet::empty(),
        yellow: PhaseSet::empty(),
        red_clear: PhaseSet::empty(),
    }
}

/// The pedestrian parts as a log sees them: in flash none walks (profile).
fn shown_pedestrians(tripped: bool, pedestrians: &Pedestrians) -> Pedestrians
    ensures { (p : ℕ) → pedestrian_of result p ≡ (if tripped then DontWalk else pedestrian_of pedestrians.now p) }
{
    if !tripped {
        return *pedestrians;
    }
    Pedestrians {
        walk: PhaseSet::empty(),
        clearance: PhaseSet::empty(),
    }
}

/// The preempt in service, as a set for each stage.
#[derive(Clone, Copy)]
struct Stages {
    /// In whatever stage.
    any: NumberSet,
    /// In its track stage.
    track: NumberSet,
    /// In its dwell.
    dwell: NumberSet,
    /// In its exit.
    exit: NumberSet,
}

/// The set of a preempt alone.
fn only(preempt: Preempt) -> NumberSet
    ensures { (n : ℕ) → has_number result n ≡ (preempt == n) }
{
    NumberSet::empty().with(preempt.number(), true)
}

/// The preempt in service by its stage.
fn stages_of(stage: &Option<(Preempt, Stage)>) -> Stages
    ensures any { (n : ℕ) → has_number result.any n ≡ serves (λ k. true) stage.now n }
    ensures track { (n : ℕ) → has_number result.track n ≡ serves is_track stage.now n }
    ensures dwell { (n : ℕ) → has_number result.dwell n ≡ serves is_dwell stage.now n }
    ensures exit { (n : ℕ) → has_number result.exit n ≡ serves is_exit stage.now n }
{
    let none = NumberSet::empty();
    let Some(served) = stage else {
        return Stages {
            any: none,
            track: none,
            dwell: none,
            exit: none,
        };
    };
    let any = only(served.0);
    match served.1 {
        Stage::Track => Stages {
            any,
            track: any,
            dwell: none,
            exit: none,
        },
        Stage::Dwell => Stages {
            any,
            track: none,
            dwell: any,
            exit: none,
        },
        Stage::Exit => Stages {
            any,
            track: none,
            dwell: none,
            exit: any,
        },
    }
}

/// Whether each of these phases is Green.
fn are_green(phases: PhaseSet, intervals: &Intervals) -> bool
    ensures { (plan : Plan) (list : ℕ → Bool) → 16 ≤ plan.phase_count → ((p : ℕ) → has phases p ≡ list p) →
        result ≡ all_green plan (interval_of intervals.now) list }
{
    phases.difference(intervals.green).first().is_none()
}

/// Whether each phase of the stage in service is Green.
fn stage_is_green(stage: &Option<(Preempt, Stage)>, intervals: &Intervals, plan: &Checked) -> bool
    ensures { result ≡ stage_is_green (checked_plan plan.now) (interval_of intervals.now) stage.now }
{
    match stage {
        None => false,
        Some(served) => are_green(stage_phases(plan.plan(), served.0, served.1), intervals),
    }
}

/// The protected turn of an overlap that is an arrow, as a set; of any other none.
fn turn_of(overlap: Overlap, plan: &Checked) -> PhaseSet
    ensures { (p : ℕ) → has result p ≡ (is_arrow (checked_plan plan.now) overlap && is_modifier (checked_plan plan.now) overlap p) }
{
    if plan.plan().is_arrow(overlap) {
        plan.plan().modifier_phases(overlap)
    } else {
        PhaseSet::empty()
    }
}

/// Whether one of these phases is included in an overlap, or is the protected turn of an arrow.
fn includes_one(overlap: Overlap, phases: PhaseSet, plan: &Checked) -> bool
    ensures { result ≡ list_any (λ p. is_by (checked_plan plan.now) overlap p && has phases p) (run_from 1 16) }
{
    let included = plan.plan().included_phases(overlap);
    let by = included.union(turn_of(overlap, plan));
    by.intersection(phases).first().is_some()
}

/// The overlaps that are not lit, and of whose phases, the turn of an arrow among them, none is in service.
fn overlaps_off(lit: NumberSet, served: PhaseSet, plan: &Checked) -> NumberSet
    ensures off { (o : ℕ) → 1 ≤ o → o ≤ OVERLAPS → has_number result o ≡ is_off_beside (checked_plan plan.now) lit served o }
    ensures few { (o : ℕ) → OVERLAPS < o → has_number result o ≡ false }
{
    let mut off = NumberSet::empty();
    for number in 1..OVERLAPS + 1 {
        let overlap = Overlap::of(number);
        let is_off = !lit.contains(number) && !includes_one(overlap, served, plan);
        off = off.joined(number, is_off);
    }
    off
}

impl Controller {
    ghost use Rattle.tsb_controller.specs.Layer.{rows_of};

    /// The overlaps that are green after their phases, as a log sees them: in flash none is (profile).
    fn trails(&self, tripped: bool) -> NumberSet
        ensures { TellsTrails tripped (rows_of self.now) result }
    {
        if tripped {
            NumberSet::empty()
        } else {
            self.overlaps.trailing_greens()
        }
    }

    /// The calls in force, of phases in these intervals and pedestrian parts.
    fn standing(&self, intervals: &Intervals, pedestrians: &Pedestrians, plan: &Checked) -> Standing
        requires pattern_by { coord.IsBy (rows_of self.now).pattern }
        ensures { IsStanding intervals.now pedestrians.now (checked_plan plan.now) (rows_of self.now) result }
    {
        let observed = Observed {
            outputs: self.detectors.outputs(),
            actuated: self.detectors.actuations(),
            buttons: NumberSet::empty(),
            intervals: *intervals,
            pedestrians: *pedestrians,
            runs: self.coord.running(plan),
            omit: PhaseSet::empty(),
            service_ended: false,
        };
        self.calls.standing(&observed, plan)
    }

    /// The phases on minimum or maximum recall, their own or by the pattern that runs.
    fn recalls(&self, plan: &Checked) -> PhaseSet
        requires pattern_by { coord.IsBy (rows_of self.now).pattern }
        ensures { (p : ℕ) → 1 ≤ p → p ≤ 16 → has result p
            ≡ (is_on_minimum_recall (checked_plan plan.now) (running (checked_plan plan.now) (pattern_in (rows_of self.now).pattern)) p
            || is_on_maximum_recall (checked_plan plan.now) (running (checked_plan plan.now) (pattern_in (rows_of self.now).pattern)) p) }
    {
        let least = plan.on_minimum_recall(self.coord.running(plan));
        least.union(plan.on_maximum_recall(self.coord.running(plan)))
    }

    /// What the log of a controller sees at tick number `tick`, of one that has tripped or has not. Timers are read at tick
    /// `clock`: the tick number, or that of the trip.
    pub fn view(&self, tripped: bool, clock: u32, tick: u32, plan: &Checked) -> Seen
        requires in_time { tick ≤ last_tick }
        requires rings_by { rings.IsBy (rows_of self.now).rings }
        requires overlaps_by { (now : ℕ) × overlaps.IsBy now (rows_of self.now).overlaps }
        requires pattern_by { coord.IsBy (rows_of self.now).pattern }
        ensures { TellsSeen clock tick (checked_plan plan.now) tripped (rows_of self.now) result }
    {
        let intervals = self.phases.intervals();
        let pedestrians = self.phases.pedestrians();
        let standing = self.standing(&intervals, &pedestrians, plan);
        let display = self.heads(tripped, plan);
        let stage = self.preempts.stage();
        let stages = stages_of(&stage);
        let shown = shown_intervals(tripped, &intervals);
        let walking = shown_pedestrians(tripped, &pedestrians);
        let served = shown.green.union(shown.yellow).union(shown.red_clear);
        let overlap_greens = display.overlap_greens();
        let overlap_yellows = display.overlap_yellows();
        let overlap_arrows = display.overlap_arrows();
        Seen {
            greens: numbers(shown.green),
            yellows: numbers(shown.yellow.difference(shown.green)),
            red_clearances: numbers(
                shown
                    .red_clear
                    .difference(shown.green)
                    .difference(shown.yellow),
            ),
            red_timings: numbers(self.red_timings(tripped, clock, plan)),
            conflicts: numbers(shown.green.intersection(self.phases.conflicts())),
            walks: numbers(walking.walk),
            clearances: numbers(walking.clearance.difference(walking.walk)),
            vehicle_calls: numbers(standing.vehicle),
            pedestrian_calls: numbers(standing.pedestrian),
            recalls: numbers(self.recalls(plan)),
            pedestrian_recalls: numbers(plan.on_pedestrian_recall(self.coord.running(plan))),
            overlap_greens,
            overlap_trails: self.trails(tripped),
            overlap_yellows,
            overlap_arrows,
            overlaps_off: overlaps_off(
                overlap_greens.union(overlap_yellows).union(overlap_arrows),
                served,
                plan,
            ),
            outputs: self.detectors.outputs(),
            alarms: self.detectors.alarms(),
            switches: self.preempts.switches(),
            preempts: stages.any,
            tracks: stages.track,
            dwells: stages.dwell,
            exits: stages.exit,
            is_preempted: stage.is_some(),
            stage_is_green: stage_is_green(&stage, &shown, plan),
            cycle: self.coord.cycle_state(tick, plan),
            crosses: self.rings.crossing().is_some(),
            side: self.rings.side(),
            flashes: tripped,
        }
    }
}
