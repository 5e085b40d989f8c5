//! What a plan says of preempts. Times are in tenths of a second.
#![tactic(auto, unfolding(crate::specs::PlanOf::plan_of))]

ghost use Rattle.std.specs.Prelude.{◌≡◌, ℕ, ◌+◌, ◌-◌, ◌*◌, ◌≤◌, ◌==◌};

use crate::object::Object;
use crate::plan::Plan;
use tsb_types::{PhaseSet, Preempt};

impl Plan {
    ghost use Rattle.tsb_plan.specs.Parts.{preempt_delay, minimum_duration, preempt_maximum_presence, preempt_minimum_green, preempt_minimum_walk, enter_pedestrian_clear, track_green, chooses_anew, is_track_phase, is_dwell_phase, is_exit_phase};
    ghost use Rattle.tsb_plan.specs.PlanOf.{plan_of};
    ghost use Rattle.tsb_types.specs.Sets.{has};

    /// How long the input has to be on before the preempt is asked for (`preemptDelay`), in tenths of a
    /// second.
    pub fn preempt_delay(&self, preempt: Preempt) -> u32
        ensures { result ≡ preempt_delay (plan_of self.now) preempt }
    {
        10 * self.value(Object::PreemptDelay, u32::from(preempt.number()))
    }

    /// The least time that the preempt has been in service when its dwell ends (`preemptMinimumDuration`), in tenths of
    /// a second.
    pub fn minimum_duration(&self, preempt: Preempt) -> u32
        ensures { result ≡ minimum_duration (plan_of self.now) preempt }
    {
        10 * self.value(Object::PreemptMinimumDuration, u32::from(preempt.number()))
    }

    /// The time in service at which the preempt's dwell ends whatever its input, 0 for no limit
    /// (`preemptMaximumPresence`), in tenths of a second.
    pub fn preempt_maximum_presence(&self, preempt: Preempt) -> u32
        ensures { result ≡ preempt_maximum_presence (plan_of self.now) preempt }
    {
        10 * self.value(Object::PreemptMaximumPresence, u32::from(preempt.number()))
    }

    /// The minimum green that the preempt leaves to a phase (`preemptMinimumGreen`), in tenths of a
    /// second.
    pub fn preempt_minimum_green(&self, preempt: Preempt) -> u32
        ensures { result ≡ preempt_minimum_green (plan_of self.now) preempt }
    {
        10 * self.value(Object::PreemptMinimumGreen, u32::from(preempt.number()))
    }

    /// The walk that the preempt leaves to a phase (`preemptMinimumWalk`), in tenths of a second.
    pub fn preempt_minimum_walk(&self, preempt: Preempt) -> u32
        ensures { result ≡ preempt_minimum_walk (plan_of self.now) preempt }
    {
        10 * self.value(Object::PreemptMinimumWalk, u32::from(preempt.number()))
    }

    /// The pedestrian clearance that the preempt leaves to a phase (`preemptEnterPedClear`), in tenths of
    /// a second.
    pub fn enter_pedestrian_clear(&self, preempt: Preempt) -> u32
        ensures { result ≡ enter_pedestrian_clear (plan_of self.now) preempt }
    {
        10 * self.value(Object::PreemptEnterPedClear, u32::from(preempt.number()))
    }

    /// How long the track phases are green (`preemptTrackGreen`), in tenths of a second.
    pub fn track_green(&self, preempt: Preempt) -> u32
        ensures { result ≡ track_green (plan_of self.now) preempt }
    {
        10 * self.value(Object::PreemptTrackGreen, u32::from(preempt.number()))
    }

    /// Whether rings give up what they are committed to, where the preempt in service does not want it
    /// (`preemptChoosesAnew`).
    pub fn chooses_anew(&self, preempt: Preempt) -> bool
        ensures { result ≡ chooses_anew (plan_of self.now) preempt }
    {
        self.value(Object::PreemptChoosesAnew, u32::from(preempt.number())) == 1
    }

    /// The phases that clear the track (`preemptTrackPhase`).
    pub fn track_phases(&self, preempt: Preempt) -> PhaseSet
        ensures { (q : ℕ) → has result q ≡ is_track_phase (plan_of self.now) preempt q }
    {
        PhaseSet::from_list(
            self.value(Object::PreemptTrackPhase, u32::from(preempt.number())) as u16,
        )
    }

    /// The phases that are green while the preempt lasts (`preemptDwellPhase`).
    pub fn dwell_phases(&self, preempt: Preempt) -> PhaseSet
        ensures { (q : ℕ) → has result q ≡ is_dwell_phase (plan_of self.now) preempt q }
    {
        PhaseSet::from_list(
            self.value(Object::PreemptDwellPhase, u32::from(preempt.number())) as u16,
        )
    }

    /// The phases that are green when the preempt ends (`preemptExitPhase`).
    pub fn exit_phases(&self, preempt: Preempt) -> PhaseSet
        ensures { (q : ℕ) → has result q ≡ is_exit_phase (plan_of self.now) preempt q }
    {
        PhaseSet::from_list(
            self.value(Object::PreemptExitPhase, u32::from(preempt.number())) as u16,
        )
    }
}
