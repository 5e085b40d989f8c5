//! What a plan says of sets of detectors and phases: the unions of what it says of their members.
#![tactic(auto, unfolding(tsb_plan::specs::PlanOf::plan_of))]

ghost use Rattle.std.specs.Prelude.{◌≡◌, ℕ, ◌+◌, ◌<◌, ◌≤◌, ◌==◌, ◌&&◌, not, None, length, slice_index};
ghost use Rattle.tsb_objects.specs.Unions.{AreUnionTables, AreUnions, AreWideUnions};
ghost use Rattle.tsb_plan.specs.Parts.{call_phase, pedestrian_call_phase};
ghost use Rattle.tsb_plan.specs.Plan.{is_concurrent};
ghost use Rattle.tsb_plan.specs.PlanOf.{plan_of};
ghost use Rattle.tsb_rules.specs.Rules.{first_broken};
ghost use Rattle.tsb_types.specs.Lists.{is};
ghost use Rattle.tsb_types.specs.Sets.{names, has};
ghost use Rattle.tsb_types.specs.declared.limits.TheConstants.{PEDESTRIAN_DETECTORS, VEHICLE_DETECTORS};

use crate::agreement::agree_for_unions;
use crate::unions::{Unions, WideUnions};
use tsb_plan::Plan;
use tsb_types::limits::{PEDESTRIAN_DETECTORS, VEHICLE_DETECTORS};
use tsb_types::{Detector, PedestrianDetector, Phase, PhaseSet};

/// What a plan that meets the rules says of sets of detectors and phases.
#[derive(Clone, Copy)]
pub struct UnionTables {
    /// The phases that vehicle detectors call (`vehicleDetectorCallPhase`).
    pub(crate) called: WideUnions,
    /// The phases whose walk pedestrian detectors call (`pedestrianDetectorCallPhase`).
    pub(crate) walks_called: Unions,
    /// The other phases that are not concurrent with a phase (`phaseConcurrency`).
    pub(crate) conflicts: Unions,
}

impl UnionTables {
    /// The tables of a plan.
    pub(crate) fn of(plan: &Plan) -> UnionTables
        requires { first_broken (plan_of plan.now) ≡ None }
        ensures { AreUnionTables (plan_of plan.now) result }
    {
        UnionTables {
            called: unions_of_calls(plan),
            walks_called: unions_of_walks(plan),
            conflicts: unions_of_conflicts(plan),
        }
    }

    /// Makes them the tables of a plan, from those of the plan before it: they stay where both plans agree on what they
    /// are made from.
    pub(crate) fn renew(&mut self, before: &Plan, plan: &Plan)
        requires before { AreUnionTables (plan_of before.now) self.old }
        requires passed { first_broken (plan_of plan.now) ≡ None }
        ensures { AreUnionTables (plan_of plan.now) self.new }
    {
        if !agree_for_unions(before, plan) {
            self.called = unions_of_calls(plan);
            self.walks_called = unions_of_walks(plan);
            self.conflicts = unions_of_conflicts(plan);
        }
    }
}

/// The set of this phase alone, if there is one.
fn alone(p: Option<Phase>) -> PhaseSet
    ensures { (q : ℕ) → has result q ≡ is q p }
{
    match p {
        Some(p) => PhaseSet::empty().with(p, true),
        None => PhaseSet::empty(),
    }
}

/// The phase that each vehicle detector calls, as a list.
fn called(plan: &Plan) -> [u16; VEHICLE_DETECTORS as usize]
    ensures full { length result ≡ VEHICLE_DETECTORS }
    ensures told { (k p : ℕ) → k < VEHICLE_DETECTORS → names (slice_index result k) p ≡ is p (call_phase (plan_of plan.now) (k + 1)) }
{
    let mut sets = [0; VEHICLE_DETECTORS as usize];
    for k in 0..VEHICLE_DETECTORS {
        let detector = Detector::of(k + 1);
        sets[usize::from(k)] = alone(plan.call_phase(detector)).list();
    }
    sets
}

/// The phases that vehicle detectors call.
fn unions_of_calls(plan: &Plan) -> WideUnions
    ensures { AreWideUnions (λ d p. is p (call_phase (plan_of plan.now) d)) result }
{
    WideUnions::new(&called(plan))
}

/// The phase whose walk each pedestrian detector calls, as a list; no phase above these.
fn walks_called(plan: &Plan) -> [u16; 16]
    ensures full { length result ≡ 16 }
    ensures told { (k p : ℕ) → k < PEDESTRIAN_DETECTORS → names (slice_index result k) p ≡ is p (pedestrian_call_phase (plan_of plan.now) (k + 1)) }
{
    let mut sets = [0; 16];
    for k in 0..PEDESTRIAN_DETECTORS {
        let detector = PedestrianDetector::of(k + 1);
        sets[usize::from(k)] = alone(plan.pedestrian_call_phase(detector)).list();
    }
    sets
}

/// The phases whose walk pedestrian detectors call.
fn unions_of_walks(plan: &Plan) -> Unions
    ensures { AreUnions (λ d p. is p (pedestrian_call_phase (plan_of plan.now) d)) result }
{
    Unions::new(&walks_called(plan))
}

/// The other phases that are not concurrent with a phase: by rule K5 those that it does not name, as they do not name
/// it.
fn conflicts_of(plan: &Plan, q: Phase) -> PhaseSet
    requires { first_broken (plan_of plan.now) ≡ None }
    ensures { (p : ℕ) → 1 ≤ p → p ≤ 16 → has result p ≡ (not (q == p) && not (is_concurrent (plan_of plan.now) p q)) }
{
    q.known();
    let others = PhaseSet::from_list(u16::MAX).with(q, false);
    others.difference(plan.concurrency(q))
}

/// For each phase, the other phases that are not concurrent with it, as a list.
fn conflicts(plan: &Plan) -> [u16; 16]
    requires { first_broken (plan_of plan.now) ≡ None }
    ensures full { length result ≡ 16 }
    ensures told { (k p : ℕ) → k < 16 → 1 ≤ p → p ≤ 16 →
        names (slice_index result k) p ≡ (not (k + 1 == p) && not (is_concurrent (plan_of plan.now) p (k + 1))) }
{
    let mut sets = [0; 16];
    for k in 0..16u8 {
        let phase = Phase::of(k + 1);
        sets[usize::from(k)] = conflicts_of(plan, phase).list();
    }
    sets
}

/// The other phases that are not concurrent with a phase.
fn unions_of_conflicts(plan: &Plan) -> Unions
    requires { first_broken (plan_of plan.now) ≡ None }
    ensures { AreUnions (λ q p. not (q == p) && not (is_concurrent (plan_of plan.now) p q)) result }
{
    Unions::new(&conflicts(plan))
}
