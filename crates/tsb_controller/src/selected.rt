//! What the log of a controller sees of the selected pattern.

ghost use Rattle.std.specs.Prelude.{◌≡◌, ◌-◌, ◌≤◌, ℕ, slice_index};
ghost use Rattle.tsb_step.specs.tsb_plan.declared.object.Object.TheVariants.{PatternCycleTime, PatternOffsetTime, SplitTime};
ghost use Rattle.tsb_step.specs.tsb_plan.Parts.{split_index};
ghost use Rattle.tsb_step.specs.tsb_plan.PlanOf.{plan_of};
ghost use Rattle.tsb_step.specs.tsb_plan.Running.{split_in_effect};
ghost use Rattle.tsb_step.specs.Events.{or_zero};
ghost use Rattle.tsb_objects.specs.Checked.{checked_plan};
ghost use Rattle.tsb_coord.specs.Cells as coord;
ghost use Rattle.tsb_controller.specs.Seen.{TellsSelected};

use crate::controller::Controller;
use tsb_events::Selected;
use tsb_objects::{Checked, Object, Pattern, Plan, Split};

/// The cycle of the pattern that runs, in seconds; 0 in free operation.
fn cycle_of(runs: &Option<Pattern>, plan: &Plan) -> u8
    ensures { result ≡ or_zero runs.now (λ n. (plan_of plan.now).value PatternCycleTime n) }
{
    match runs {
        Some(n) => plan.at(Object::PatternCycleTime, u32::from(n.number())) as u8,
        None => 0,
    }
}

/// The offset of the pattern that runs, in seconds; 0 in free operation.
fn offset_of(runs: &Option<Pattern>, plan: &Plan) -> u8
    ensures { result ≡ or_zero runs.now (λ n. (plan_of plan.now).value PatternOffsetTime n) }
{
    match runs {
        Some(n) => plan.at(Object::PatternOffsetTime, u32::from(n.number())) as u8,
        None => 0,
    }
}

/// The split table in effect.
fn table_of(runs: &Option<Pattern>, plan: &Plan) -> Option<Split>
    ensures { result ≡ split_in_effect (plan_of plan.now) runs.now }
{
    match runs {
        Some(n) => plan.split_of(*n),
        None => None,
    }
}

/// The splits of phases 1 to 16 in a split table, in seconds; 0 where there is none.
fn splits_of(table: &Option<Split>, plan: &Plan) -> [u8; 16]
    ensures { (p : ℕ) → 1 ≤ p → p ≤ 16 → slice_index result (p - 1) ≡ or_zero table.now (λ t. (plan_of plan.now).value SplitTime (split_index (plan_of plan.now) t p)) }
{
    let mut splits = [0; 16];
    if let Some(table) = table {
        let before = 16 * (u32::from(table.number()) - 1);
        for k in 0..16 {
            splits[k] = plan.at(Object::SplitTime, before + 1 + k as u32) as u8;
        }
    }
    splits
}

impl Controller {
    ghost use Rattle.tsb_controller.specs.Layer.{rows_of};

    /// What the log of a controller sees of the selected pattern.
    pub fn selected(&self, plan: &Checked) -> Selected
        requires pattern_by { coord.IsBy (rows_of self.now).pattern }
        ensures { TellsSelected (checked_plan plan.now) (rows_of self.now) result }
    {
        let runs = self.coord.running(plan);
        let table = table_of(&runs, plan.plan());
        Selected {
            pattern: self.coord.pattern(),
            cycle: cycle_of(&runs, plan.plan()),
            offset: offset_of(&runs, plan.plan()),
            splits: splits_of(&table, plan.plan()),
        }
    }
}
