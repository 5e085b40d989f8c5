//! What a plan says while a pattern runs, and in free operation: `runs` is the pattern that runs, and `None` in free
//! operation. Times are in tenths of a second.
#![tactic(auto, unfolding(crate::specs::PlanOf::plan_of))]

ghost use Rattle.std.specs.Prelude.{◌≡◌};
ghost use Rattle.tsb_plan.specs.PlanOf.{plan_of};
ghost use Rattle.tsb_plan.specs.Running.{mode_in, coordinates_in, split_green, floating_in, maximum_by_mode, omits, recalls_minimum, recalls_maximum, recalls_pedestrians};

use crate::object::Object;
use crate::plan::Plan;
use crate::plan::patterns::SplitMode;
use tsb_types::{Pattern, Phase, Sequence, Split};

/// The sequence in free operation.
const FREE_SEQUENCE: u8 = 1;

impl Plan {
    ghost use Rattle.tsb_plan.specs.Running.{split_in_effect, sequence_in_effect, is_coordinated_now, is_omitted_now, is_on_minimum_recall, is_on_maximum_recall, is_on_pedestrian_recall, floating_time, pattern_maximum};

    /// The sequence in effect: the pattern's, or sequence 1 in free operation.
    pub fn sequence_in_effect(&self, runs: Option<Pattern>) -> Sequence
        ensures { result ≡ sequence_in_effect (plan_of self.now) runs }
    {
        match runs {
            None => Sequence::of(FREE_SEQUENCE),
            Some(pattern) => match self.sequence_of(pattern) {
                Some(sequence) => sequence,
                None => Sequence::of(FREE_SEQUENCE),
            },
        }
    }

    /// The split table in effect.
    fn split_in_effect(&self, runs: Option<Pattern>) -> Option<Split>
        ensures { result ≡ split_in_effect (plan_of self.now) runs }
    {
        match runs {
            None => None,
            Some(pattern) => self.split_of(pattern),
        }
    }

    /// A phase's split mode in a split table.
    fn mode_in(&self, split: &Option<Split>, phase: Phase) -> SplitMode
        ensures { result ≡ mode_in (plan_of self.now) split.now phase }
    {
        match split {
            None => SplitMode::NoMode,
            Some(split) => self.split_mode(*split, phase),
        }
    }

    fn coordinates_in(&self, split: &Option<Split>, phase: Phase) -> bool
        ensures { result ≡ coordinates_in (plan_of self.now) split.now phase }
    {
        match split {
            None => false,
            Some(split) => self.is_coordinated(*split, phase),
        }
    }

    /// Whether the phase is a coordinated phase of the pattern that runs.
    pub fn is_coordinated_now(&self, runs: Option<Pattern>, phase: Phase) -> bool
        ensures { result ≡ is_coordinated_now (plan_of self.now) runs phase }
    {
        self.coordinates_in(&self.split_in_effect(runs), phase)
    }

    /// Whether the phase's split mode in effect omits it.
    pub fn is_omitted_now(&self, runs: Option<Pattern>, phase: Phase) -> bool
        ensures { result ≡ is_omitted_now (plan_of self.now) runs phase }
    {
        omits(self.mode_in(&self.split_in_effect(runs), phase))
    }

    /// Whether the phase has minimum recall: its own, that of its split mode, or as a coordinated phase.
    pub fn is_on_minimum_recall(&self, runs: Option<Pattern>, phase: Phase) -> bool
        ensures { result ≡ is_on_minimum_recall (plan_of self.now) runs phase }
    {
        let split = self.split_in_effect(runs);
        self.has_minimum_recall(phase)
            || recalls_minimum(self.mode_in(&split, phase))
            || self.coordinates_in(&split, phase)
    }

    /// Whether the phase has maximum recall: its own, or that of its split mode.
    pub fn is_on_maximum_recall(&self, runs: Option<Pattern>, phase: Phase) -> bool
        ensures { result ≡ is_on_maximum_recall (plan_of self.now) runs phase }
    {
        self.has_maximum_recall(phase)
            || recalls_maximum(self.mode_in(&self.split_in_effect(runs), phase))
    }

    /// Whether the phase has pedestrian recall: its own, or that of its split mode.
    pub fn is_on_pedestrian_recall(&self, runs: Option<Pattern>, phase: Phase) -> bool
        ensures { result ≡ is_on_pedestrian_recall (plan_of self.now) runs phase }
    {
        self.has_pedestrian_recall(phase)
            || recalls_pedestrians(self.mode_in(&self.split_in_effect(runs), phase))
    }

    /// The green that a split table has for the phase.
    fn split_green(&self, split: Split, phase: Phase) -> u32
        ensures { result ≡ split_green (plan_of self.now) split phase }
    {
        self.split_time(split, phase)
            .saturating_sub(self.yellow_change(phase))
            .saturating_sub(self.red_clear(phase))
    }

    /// The green after which a split table has the phase forced off.
    fn floating_in(&self, split: &Option<Split>, phase: Phase) -> Option<u32>
        ensures { result ≡ floating_in (plan_of self.now) split.now phase }
    {
        match split {
            None => None,
            Some(split) => {
                if self.floats() && !self.is_coordinated(*split, phase) {
                    Some(self.split_green(*split, phase))
                } else {
                    None
                }
            }
        }
    }

    /// The green after which floating force-off forces the phase off while the pattern runs (`coordForceMode` 2,
    /// profile): its split less yellow change and red clearance. None with another mode, for a coordinated phase, and
    /// in free operation.
    pub fn floating_time(&self, runs: Option<Pattern>, phase: Phase) -> Option<u32>
        ensures { result ≡ floating_time (plan_of self.now) runs phase }
    {
        self.floating_in(&self.split_in_effect(runs), phase)
    }

    /// The maximum of the phase by the maximum mode.
    fn maximum_by_mode(&self, phase: Phase) -> Option<u32>
        ensures { result ≡ maximum_by_mode (plan_of self.now) phase }
    {
        match self.value(Object::CoordMaximumMode, 1) {
            1 => Some(10 * self.of_phase(Object::PhaseMaximum1, phase)),
            2 => Some(10 * self.of_phase(Object::PhaseMaximum2, phase)),
            _ => None,
        }
    }

    /// The maximum that acts on the phase while the pattern runs (`coordMaximumMode`): `phaseMaximum1` with mode 1,
    /// `phaseMaximum2` with mode 2. None with mode 0 (maximum inhibit), and for a coordinated phase.
    pub fn pattern_maximum(&self, runs: Option<Pattern>, phase: Phase) -> Option<u32>
        ensures { result ≡ pattern_maximum (plan_of self.now) runs phase }
    {
        match self.maximum_by_mode(phase) {
            None => None,
            Some(maximum) => {
                if self.is_coordinated_now(runs, phase) {
                    None
                } else {
                    Some(maximum)
                }
            }
        }
    }
}

/// Whether the split mode omits.
fn omits(mode: SplitMode) -> bool
    ensures { result ≡ omits mode }
{
    matches!(mode, SplitMode::Omitted)
}

/// Whether the split mode gives minimum recall.
fn recalls_minimum(mode: SplitMode) -> bool
    ensures { result ≡ recalls_minimum mode }
{
    matches!(mode, SplitMode::MinimumRecall)
}

/// Whether the split mode gives maximum recall.
fn recalls_maximum(mode: SplitMode) -> bool
    ensures { result ≡ recalls_maximum mode }
{
    matches!(
        mode,
        SplitMode::MaximumRecall | SplitMode::MaximumAndPedestrianRecall
    )
}

/// Whether the split mode gives pedestrian recall.
fn recalls_pedestrians(mode: SplitMode) -> bool
    ensures { result ≡ recalls_pedestrians mode }
{
    matches!(
        mode,
        SplitMode::PedestrianRecall | SplitMode::MaximumAndPedestrianRecall
    )
}
