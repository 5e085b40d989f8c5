//! The phases with a walk, and those that the plan recalls.
ghost use Rattle.std.specs.Prelude.{◌≡◌, ℕ, ◌≤◌, ◌||◌};
ghost use Rattle.tsb_objects.specs.tsb_types.Sets.{has};
ghost use Rattle.tsb_objects.specs.tsb_plan.Running.{is_on_minimum_recall, is_on_maximum_recall};
ghost use Rattle.tsb_objects.specs.Checked.{checked_plan};
ghost use Rattle.tsb_objects.specs.tsb_rules.Rules.{serves_pedestrians};

use crate::observed::Observed;
use tsb_objects::{Checked, PhaseSet};

/// The enabled phases with a walk.
#[inline(always)]
pub(crate) fn with_pedestrians(plan: &Checked) -> PhaseSet
    ensures { (p : ℕ) → has result p ≡ serves_pedestrians (checked_plan plan.now) p }
{
    plan.enabled().intersection(plan.with_walk())
}

/// The phases on minimum or maximum recall, their own or by the pattern that runs.
#[inline(always)]
pub(crate) fn with_recall(plan: &Checked, observed: &Observed) -> PhaseSet
    ensures { (p : ℕ) → 1 ≤ p → p ≤ 16 → has result p
        ≡ (is_on_minimum_recall (checked_plan plan.now) observed.now.runs p
        || is_on_maximum_recall (checked_plan plan.now) observed.now.runs p) }
{
    let least = plan.on_minimum_recall(observed.runs);
    least.union(plan.on_maximum_recall(observed.runs))
}
