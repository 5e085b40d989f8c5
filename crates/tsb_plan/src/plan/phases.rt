//! What a plan says of phases. Times are in tenths of a second.
#![tactic(auto, unfolding(crate::specs::PlanOf::plan_of))]

ghost use Rattle.std.specs.Prelude.{◌≡◌, ℕ, ◌+◌, ◌-◌, ◌*◌, ◌≤◌};

use crate::object::Object;
use crate::plan::Plan;
use tsb_types::{Phase, PhaseSet};

impl Plan {
    ghost use Rattle.tsb_plan.specs.Plan.{is_enabled, has_minimum_recall, has_maximum_recall, has_pedestrian_recall, disables_simultaneous_gap, rests_in_walk, recycles_walk, has_variable_initial, ring_of, side_of, is_concurrent, walk, pedestrian_clear, minimum_green, maximum, maximum_initial, added_initial, passage, minimum_gap, time_before_reduction, cars_before_reduction, time_to_reduce, dynamic_maximum_limit, dynamic_maximum_step, yellow_change, red_clear, red_revert};
    ghost use Rattle.tsb_plan.specs.PlanOf.{plan_of};
    ghost use Rattle.tsb_types.specs.Sets.{has};

    /// Whether the phase is in use (`phaseEnabled`).
    pub fn is_enabled(&self, phase: Phase) -> bool
        ensures { result ≡ is_enabled (plan_of self.now) phase }
    {
        self.of_phase(Object::PhaseEnabled, phase) == 1
    }

    /// Whether the phase has minimum recall (`phaseMinRecall`).
    pub fn has_minimum_recall(&self, phase: Phase) -> bool
        ensures { result ≡ has_minimum_recall (plan_of self.now) phase }
    {
        self.of_phase(Object::PhaseMinRecall, phase) == 1
    }

    /// Whether the phase has maximum recall (`phaseMaxRecall`).
    pub fn has_maximum_recall(&self, phase: Phase) -> bool
        ensures { result ≡ has_maximum_recall (plan_of self.now) phase }
    {
        self.of_phase(Object::PhaseMaxRecall, phase) == 1
    }

    /// Whether the phase has pedestrian recall (`phasePedRecall`).
    pub fn has_pedestrian_recall(&self, phase: Phase) -> bool
        ensures { result ≡ has_pedestrian_recall (plan_of self.now) phase }
    {
        self.of_phase(Object::PhasePedRecall, phase) == 1
    }

    /// Whether a phase that has gapped out stays so (`phaseSimGapDisable`).
    pub fn disables_simultaneous_gap(&self, phase: Phase) -> bool
        ensures { result ≡ disables_simultaneous_gap (plan_of self.now) phase }
    {
        self.of_phase(Object::PhaseSimGapDisable, phase) == 1
    }

    /// Whether the phase rests in walk (`phaseRestInWalk`).
    pub fn rests_in_walk(&self, phase: Phase) -> bool
        ensures { result ≡ rests_in_walk (plan_of self.now) phase }
    {
        self.of_phase(Object::PhaseRestInWalk, phase) == 1
    }

    /// Whether the phase may walk again within its green, as a coordinated phase (`phasePedestrianRecycle`, profile).
    pub fn recycles_walk(&self, phase: Phase) -> bool
        ensures { result ≡ recycles_walk (plan_of self.now) phase }
    {
        self.of_phase(Object::PhasePedestrianRecycle, phase) == 1
    }

    /// Whether added initial counts for the phase (`phaseVariableInitial`, profile).
    pub fn has_variable_initial(&self, phase: Phase) -> bool
        ensures { result ≡ has_variable_initial (plan_of self.now) phase }
    {
        self.of_phase(Object::PhaseVariableInitial, phase) == 1
    }

    /// The ring of the phase, 1 or 2, or 0 for none (`phaseRing`).
    pub fn ring(&self, phase: Phase) -> u32
        ensures { result ≡ ring_of (plan_of self.now) phase }
    {
        self.of_phase(Object::PhaseRing, phase)
    }

    /// The side of the phase, 1 to 4, or 0 for none (`phaseSide`, profile).
    pub fn side(&self, phase: Phase) -> u32
        ensures value { result ≡ side_of (plan_of self.now) phase }
        ensures range { result ≤ 4 }
    {
        self.of_phase(Object::PhaseSide, phase)
    }

    /// The phases that are concurrent with the phase (`phaseConcurrency`).
    pub fn concurrency(&self, phase: Phase) -> PhaseSet
        ensures { (q : ℕ) → has result q ≡ is_concurrent (plan_of self.now) phase q }
    {
        PhaseSet::from_list(self.of_phase(Object::PhaseConcurrency, phase) as u16)
    }

    /// The walk of the phase (`phaseWalk`), in tenths of a second.
    pub fn walk(&self, phase: Phase) -> u32
        ensures { result ≡ walk (plan_of self.now) phase }
    {
        10 * self.of_phase(Object::PhaseWalk, phase)
    }

    /// The pedestrian clearance of the phase (`phasePedestrianClear`), in tenths of a second.
    pub fn pedestrian_clear(&self, phase: Phase) -> u32
        ensures { result ≡ pedestrian_clear (plan_of self.now) phase }
    {
        10 * self.of_phase(Object::PhasePedestrianClear, phase)
    }

    /// The minimum green of the phase (`phaseMinimumGreen`), in tenths of a second.
    pub fn minimum_green(&self, phase: Phase) -> u32
        ensures { result ≡ minimum_green (plan_of self.now) phase }
    {
        10 * self.of_phase(Object::PhaseMinimumGreen, phase)
    }

    /// The maximum of the phase that is in use, in tenths of a second: `phaseMaximum2` where `unitMax2`
    /// is 1, and else `phaseMaximum1`.
    pub fn maximum(&self, phase: Phase) -> u32
        ensures value { result ≡ maximum (plan_of self.now) phase }
        ensures range { result ≤ 2550 }
    {
        let object = if self.value(Object::UnitMax2, 1) == 1 {
            Object::PhaseMaximum2
        } else {
            Object::PhaseMaximum1
        };
        10 * self.of_phase(object, phase)
    }

    /// The most that added initial brings the phase to (`phaseMaximumInitial`), in tenths of a second.
    pub fn maximum_initial(&self, phase: Phase) -> u32
        ensures { result ≡ maximum_initial (plan_of self.now) phase }
    {
        10 * self.of_phase(Object::PhaseMaximumInitial, phase)
    }

    /// What each vehicle adds to the initial of the phase (`phaseAddedInitial`), in tenths of a second.
    pub fn added_initial(&self, phase: Phase) -> u32
        ensures value { result ≡ added_initial (plan_of self.now) phase }
        ensures range { result ≤ 255 }
    {
        self.of_phase(Object::PhaseAddedInitial, phase)
    }

    /// The passage time of the phase (`phasePassage`), in tenths of a second.
    pub fn passage(&self, phase: Phase) -> u32
        ensures value { result ≡ passage (plan_of self.now) phase }
        ensures range { result ≤ 255 }
    {
        self.of_phase(Object::PhasePassage, phase)
    }

    /// The gap down to which the passage time of the phase is reduced (`phaseMinimumGap`), in tenths
    /// of a second.
    pub fn minimum_gap(&self, phase: Phase) -> u32
        ensures value { result ≡ minimum_gap (plan_of self.now) phase }
        ensures range { result ≤ 255 }
    {
        self.of_phase(Object::PhaseMinimumGap, phase)
    }

    /// The time before reduction of the phase (`phaseTimeBeforeReduction`), in tenths of a second.
    pub fn time_before_reduction(&self, phase: Phase) -> u32
        ensures { result ≡ time_before_reduction (plan_of self.now) phase }
    {
        10 * self.of_phase(Object::PhaseTimeBeforeReduction, phase)
    }

    /// How many waiting vehicles begin the reduction of the gap of the phase, 0 where vehicles do not and the time
    /// before reduction alone does (`phaseCarsBeforeReduction`).
    pub fn cars_before_reduction(&self, phase: Phase) -> u32
        ensures { result ≡ cars_before_reduction (plan_of self.now) phase }
    {
        self.of_phase(Object::PhaseCarsBeforeReduction, phase)
    }

    /// The time in which the gap of the phase is reduced (`phaseTimeToReduce`), in tenths of a second.
    pub fn time_to_reduce(&self, phase: Phase) -> u32
        ensures value { result ≡ time_to_reduce (plan_of self.now) phase }
        ensures range { result ≤ 2550 }
    {
        10 * self.of_phase(Object::PhaseTimeToReduce, phase)
    }

    /// The limit of the running maximum of the phase, 0 for no dynamic maximum (`phaseDynamicMaxLimit`,
    /// profile), in tenths of a second.
    pub fn dynamic_maximum_limit(&self, phase: Phase) -> u32
        ensures value { result ≡ dynamic_maximum_limit (plan_of self.now) phase }
        ensures range { result ≤ 2550 }
    {
        10 * self.of_phase(Object::PhaseDynamicMaxLimit, phase)
    }

    /// The step of the running maximum of the phase, 0 for no dynamic maximum (`phaseDynamicMaxStep`,
    /// profile), in tenths of a second.
    pub fn dynamic_maximum_step(&self, phase: Phase) -> u32
        ensures value { result ≡ dynamic_maximum_step (plan_of self.now) phase }
        ensures range { result ≤ 255 }
    {
        self.of_phase(Object::PhaseDynamicMaxStep, phase)
    }

    /// The yellow change of the phase (`phaseYellowChange`), in tenths of a second.
    pub fn yellow_change(&self, phase: Phase) -> u32
        ensures value { result ≡ yellow_change (plan_of self.now) phase }
        ensures range { result ≤ 255 }
    {
        self.of_phase(Object::PhaseYellowChange, phase)
    }

    /// The red clearance of the phase (`phaseRedClear`), in tenths of a second.
    pub fn red_clear(&self, phase: Phase) -> u32
        ensures value { result ≡ red_clear (plan_of self.now) phase }
        ensures range { result ≤ 255 }
    {
        self.of_phase(Object::PhaseRedClear, phase)
    }

    /// The red revert time of the phase, in tenths of a second: the larger of its `phaseRedRevert` and
    /// `unitRedRevert`.
    pub fn red_revert(&self, phase: Phase) -> u32
        ensures { result ≡ red_revert (plan_of self.now) phase }
    {
        self.of_phase(Object::PhaseRedRevert, phase)
            .max(self.value(Object::UnitRedRevert, 1))
    }
}
