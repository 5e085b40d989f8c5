//! Plans that may be run.
#![tactic(auto, unfolding(tsb_plan::specs::PlanOf::plan_of))]

ghost use Rattle.std.specs.Prelude.{◌≡◌, None};
ghost use Rattle.tsb_plan.specs.PlanOf.{plan_of};
ghost use Rattle.tsb_rules.specs.Rules.{first_broken};
ghost use Rattle.tsb_objects.specs.PatternTables.{ArePatternTables};
ghost use Rattle.tsb_objects.specs.RedReverts.{IsLongestRedRevert};
ghost use Rattle.tsb_objects.specs.Tables.{ArePhaseTables, AreDetectorTables, ArePartTables};
ghost use Rattle.tsb_objects.specs.Unions.{AreUnionTables};

mod detectors;
mod parts;
mod patterns;
mod phases;

use crate::detector_tables::DetectorTables;
use crate::part_tables::PartTables;
use crate::pattern_tables::PatternTables;
use crate::red_reverts::longest_red_revert;
use crate::tables::PhaseTables;
use crate::union_tables::UnionTables;
use tsb_plan::Plan;
use tsb_rules::{Rule, check};

/// A plan that may be run, with tables of what it says of all phases, detectors, overlaps and preempts at once, also while
/// a pattern runs.
///
/// Its plan meets the rules: only `Checked::new` and `Checked::known` make a `Checked`, and `renew`
/// makes it another one, so whoever is handed one has nothing to check.
#[derive(Clone, Copy)]
pub struct Checked {
    plan: Plan,
    phase_tables: PhaseTables,
    detector_tables: DetectorTables,
    part_tables: PartTables,
    pattern_tables: PatternTables,
    union_tables: UnionTables,
    longest_red_revert: u32,
    ghost passed: { first_broken (plan_of plan) ≡ None },
    ghost phases_are: { ArePhaseTables (plan_of plan) phase_tables },
    ghost detectors_are: { AreDetectorTables (plan_of plan) detector_tables },
    ghost parts_are: { ArePartTables (plan_of plan) part_tables },
    ghost patterns_are: { ArePatternTables (plan_of plan) pattern_tables },
    ghost unions_are: { AreUnionTables (plan_of plan) union_tables },
    ghost reverts_are: { IsLongestRedRevert (plan_of plan) longest_red_revert },
}

impl Checked {
    ghost use Rattle.std.specs.Prelude.{Some, Ok, Err, MatchResult};
    ghost use Rattle.tsb_objects.specs.Checked.{checked_plan};

    /// The plan, if it meets the rules. An `Err` is the first rule that it breaks, as `check` gives it.
    #[tactic(auto, unfolding(tsb_plan::specs::PlanOf::plan_of, crate::specs::Checked::checked_plan))]
    pub fn new(plan: Plan) -> Result<Checked, Rule>
        ensures { MatchResult result
            (λ checked. (first_broken (plan_of plan) ≡ None) × (checked_plan checked ≡ plan_of plan))
            (λ rule. first_broken (plan_of plan) ≡ Some rule) }
    {
        check(&plan)?;
        Ok(Checked::known(plan))
    }

    /// The plan, which is known to meet the rules, as the plan of an earlier `Checked` is.
    #[tactic(auto, unfolding(tsb_plan::specs::PlanOf::plan_of, crate::specs::Checked::checked_plan))]
    pub fn known(plan: Plan) -> Checked
        requires { first_broken (plan_of plan) ≡ None }
        ensures { checked_plan result ≡ plan_of plan }
    {
        Checked {
            plan,
            phase_tables: PhaseTables::of(&plan),
            detector_tables: DetectorTables::of(&plan),
            part_tables: PartTables::of(&plan),
            pattern_tables: PatternTables::of(&plan),
            union_tables: UnionTables::of(&plan),
            longest_red_revert: longest_red_revert(&plan),
        }
    }

    /// Takes the plan, which is known to meet the rules, in place of its own.
    ///
    /// Tables stay where both plans agree on what they are made from. Others are made where they stand: a function pays
    /// for all the room that it has on the stack.
    #[tactic(auto, unfolding(tsb_plan::specs::PlanOf::plan_of, crate::specs::Checked::checked_plan))]
    pub fn renew(&mut self, plan: &Plan)
        requires { first_broken (plan_of plan.now) ≡ None }
        ensures { checked_plan self.new ≡ plan_of plan.now }
    {
        self.phase_tables.renew(&self.plan, plan);
        self.detector_tables.renew(&self.plan, plan);
        self.part_tables = PartTables::of(plan);
        self.pattern_tables.renew(&self.plan, plan);
        self.union_tables.renew(&self.plan, plan);
        self.longest_red_revert = longest_red_revert(plan);
        self.plan = *plan;
    }

    /// The longest red revert time that a phase has, in tenths of a second.
    #[inline(always)]
    #[tactic(auto, unfolding(tsb_plan::specs::PlanOf::plan_of, crate::specs::Checked::checked_plan))]
    pub fn longest_red_revert(&self) -> u32
        ensures { IsLongestRedRevert (checked_plan self.now) result }
    {
        self.longest_red_revert
    }

    /// The plan that was checked.
    #[tactic(auto, unfolding(tsb_plan::specs::PlanOf::plan_of, crate::specs::Checked::checked_plan))]
    pub fn plan(&self) -> &Plan
        ensures plan { plan_of result.now ≡ checked_plan self.now }
        ensures consistent { first_broken (checked_plan self.now) ≡ None }
    {
        &self.plan
    }
}
