//! What a tick does to the preempts and asks of the phases, in the order in which it is found: inputs, delays, the
//! request, the service that begins or moves on, and what is spent.
ghost use Rattle.tsb_types.specs.declared.limits.TheConstants.{PREEMPTS};
ghost use Rattle.std.specs.Prelude.{◌≡◌, ℕ, ◌+◌, ◌<◌, ◌≤◌, ◌^◌, ◌||◌, ◌&&◌, is_some, is_none, Bool, true, false, None, slice_index};
ghost use Rattle.tsb_objects.specs.tsb_plan.PlanOf.{plan_of};
ghost use Rattle.tsb_types.specs.Flow.{target_of};
ghost use Rattle.tsb_types.specs.Lists.{first, run_from, is};
ghost use Rattle.tsb_types.specs.Sets.{has, has_number, names, list_in};
ghost use Rattle.tsb_preempt.specs.Preempts.{wanted_by, is_outside};
ghost use Rattle.tsb_preempt.specs.Cells.{IsBy};
ghost use Rattle.tsb_preempt.specs.Promises.{given_by};
ghost use Rattle.tsb_preempt.specs.Rows.{serving_of, requests_by};
ghost use Rattle.tsb_preempt.specs.Done.{IsDone};

use crate::cells::{SPENT, SWITCHES};
use crate::orders::PreemptOrders;
use crate::preempts::Preempts;
use crate::serving::{Serving, beginning, requests, served, spends, stage_phases};
use tsb_cells::lists::list;
use tsb_objects::limits::PREEMPTS;
use tsb_objects::{Intervals, NumberSet, PhaseSet, Plan, Preempt, Row};

/// The list that names phases 1 to 16.
const ALL_PHASES: u16 = 65535;

/// The set with the preempt, if there is one.
#[inline(always)]
fn with_spent(set: NumberSet, n: &Option<Preempt>) -> NumberSet
    ensures { (k : ℕ) → has_number result k ≡ (has_number set k || is k n.now) }
{
    match n {
        None => set,
        Some(n) => set.with(n.number(), true),
    }
}

/// The phases of the stage in service.
#[inline(always)]
fn target(plan: &Plan, serving: &Option<Serving>) -> Option<PhaseSet>
    ensures { (now : ℕ) → target_of result ≡ wanted_by (plan_of plan.now) (serving_of now serving.now) }
{
    match serving {
        None => None,
        Some(s) => Some(stage_phases(plan, s.preempt, s.stage)),
    }
}

/// The phases outside of a target.
#[inline(always)]
fn outside(target: &Option<PhaseSet>) -> PhaseSet
    ensures { (p : ℕ) → 1 ≤ p → p ≤ 16 → has result p ≡ is_outside (target_of target.now) p }
{
    match target {
        None => PhaseSet::empty(),
        Some(list) => PhaseSet::from_list(ALL_PHASES).difference(*list),
    }
}

/// Whether service ended.
#[inline(always)]
fn has_ended(was: &Option<Serving>, serving: &Option<Serving>) -> bool
    ensures { (now : ℕ) → result ≡ (is_some (serving_of now was.now) && is_none (serving_of now serving.now)) }
{
    was.is_some() && serving.is_none()
}

/// What the stage in service asks, and whether service ended.
#[inline(always)]
fn orders(plan: &Plan, serving: &Option<Serving>, ended: bool) -> PreemptOrders
    ensures target { (now : ℕ) → target_of result.target ≡ wanted_by (plan_of plan.now) (serving_of now serving.now) }
    ensures must_end { (p : ℕ) → 1 ≤ p → p ≤ 16 → has result.must_end p ≡ is_outside (target_of result.target) p }
    ensures ended { result.ended ≡ ended }
{
    let target = target(plan, serving);
    PreemptOrders {
        target,
        must_end: outside(&target),
        ended,
    }
}

/// What is asked where none is in service.
#[inline(always)]
pub(crate) fn none_asked() -> PreemptOrders
    ensures target { result.target ≡ None }
    ensures must_end { (p : ℕ) → has result.must_end p ≡ false }
    ensures ended { result.ended ≡ false }
{
    PreemptOrders {
        target: None,
        must_end: PhaseSet::empty(),
        ended: false,
    }
}

impl Preempts {
    ghost use Rattle.tsb_preempt.specs.Layer.{cells_of, kept_of, is_open};

    /// Whether a preempt requests service.
    #[inline(always)]
    fn requests(&self, now: u32, plan: &Plan, n: u8, inputs: NumberSet, spent: NumberSet) -> bool
        requires fits { now + 1 < 2 ^ 32 }
        requires from { 1 ≤ n }
        requires within { n ≤ PREEMPTS }
        ensures { result ≡ requests_by now (plan_of plan.now) n (has_number inputs n) (has_number spent n) (slice_index (cells_of self.now) (1 + n)) }
    {
        requests(
            now,
            plan,
            Preempt::of(n),
            inputs.contains(n),
            spent.contains(n),
            self.delay(n),
        )
    }

    /// The least requesting preempt.
    #[inline(always)]
    fn requesting(
        &self,
        now: u32,
        plan: &Plan,
        inputs: NumberSet,
        spent: NumberSet,
    ) -> Option<Preempt>
        requires { now + 1 < 2 ^ 32 }
        ensures { result ≡ first (λ n. requests_by now (plan_of plan.now) n (has_number inputs n) (has_number spent n) (slice_index (cells_of self.now) (1 + n))) (run_from 1 PREEMPTS) }
    {
        for n in 1..PREEMPTS + 1 {
            if self.requests(now, plan, n, inputs, spent) {
                return Some(Preempt::of(n));
            }
        }
        None
    }

    /// The preempts whose input is on, by the row or by a switch.
    #[inline(always)]
    pub(crate) fn inputs(&self, row: &Row) -> NumberSet
        ensures { (n : ℕ) → has_number result n ≡ (has_number row.now.preempts n || names (list_in (cells_of self.now) 0) n) }
    {
        row.preempts.union(list(&self.bank, SWITCHES))
    }

    /// Runs tick `now` of the preempts, and gives what they ask of the phases. Most ticks change nothing.
    #[inline(never)]
    pub(crate) fn run(
        &mut self,
        now: u32,
        row: &Row,
        intervals: &Intervals,
        plan: &Plan,
    ) -> PreemptOrders
        requires opened { is_open self.old ≡ true }
        requires fits { now + 1 < 2 ^ 32 }
        requires by { IsBy now (cells_of self.old) }
        ensures done { IsDone now (plan_of plan.now) (given_by row.now intervals.now) (cells_of self.old) (cells_of self.new) result }
        ensures kept { kept_of self.new ≡ kept_of self.old }
        ensures opened { is_open self.new ≡ true }
    {
        let inputs = self.inputs(row);
        if !self.is_settled(inputs) {
            return self.change(now, row, intervals, plan);
        }
        let was = self.load();
        if self.is_still(now, plan, intervals, inputs, &was) {
            return orders(plan, &was, false);
        }
        self.change(now, row, intervals, plan)
    }

    /// `run` where something changes.
    #[inline(never)]
    fn change(&mut self, now: u32, row: &Row, intervals: &Intervals, plan: &Plan) -> PreemptOrders
        requires opened { is_open self.old ≡ true }
        requires fits { now + 1 < 2 ^ 32 }
        requires by { IsBy now (cells_of self.old) }
        ensures done { IsDone now (plan_of plan.now) (given_by row.now intervals.now) (cells_of self.old) (cells_of self.new) result }
        ensures kept { kept_of self.new ≡ kept_of self.old }
        ensures opened { is_open self.new ≡ true }
    {
        let inputs = self.inputs(row);
        let was = self.load();
        let still = list(&self.bank, SPENT).intersection(inputs);
        self.put_delays(now, inputs);
        let asks = self.requesting(now, plan, inputs, still);
        let begins = beginning(&was, asks);
        let serving = served(now, plan, intervals, inputs, &was, &begins);
        let spender = spends(now, plan, inputs, &was, &begins);
        let spent = with_spent(still, &spender);
        self.put_set(SPENT, spent);
        self.store(&serving);
        orders(plan, &serving, has_ended(&was, &serving))
    }
}
