//! What a plan says of coordination: patterns, splits and sequences. Times are in tenths of a second.
#![tactic(auto, unfolding(crate::specs::PlanOf::plan_of))]

ghost use Rattle.std.specs.Prelude.{◌≡◌, ℕ, ◌+◌, ◌-◌, ◌*◌, ◌≤◌, length};

use crate::object::Object;
use crate::plan::{Plan, cell};
use tsb_types::limits::PHASES;
use tsb_types::{Pattern, Phase, Ring, Sequence, Split};

/// What a split does with a phase (`splitMode`; its numbers are the profile's).
#[derive(Clone, Copy, PartialEq, Eq)]
pub enum SplitMode {
    /// Nothing: number 0.
    NoMode,
    /// Minimum recall: number 1.
    MinimumRecall,
    /// Maximum recall: number 2.
    MaximumRecall,
    /// Pedestrian recall: number 3.
    PedestrianRecall,
    /// Maximum recall and pedestrian recall: number 4.
    MaximumAndPedestrianRecall,
    /// The phase is omitted: number 5.
    Omitted,
}

/// How the local counter comes into step once a pattern is selected while another ran (`coordCorrectionMode`; its
/// numbers are the profile's).
#[derive(Clone, Copy, PartialEq, Eq)]
pub enum CorrectionMode {
    /// At once: number 0.
    AtOnce,
    /// It waits before the instant of the coordinated phases: number 1.
    Dwell,
    /// It goes slower or faster, whichever is less: number 2.
    ShortWay,
    /// It goes slower: number 3.
    AddOnly,
}

/// What the offsets of patterns are counted to (`coordReference`; its numbers are the profile's). "First" and "last" are
/// by the splits of the pattern: the phase whose green, yellow or red begins before, or after, that of the others.
#[derive(Clone, Copy, PartialEq, Eq)]
pub enum OffsetReference {
    /// The end of the coordinated split, where the local counter is 0: number 0.
    SplitEnd,
    /// The begin of green of the first coordinated phase: number 1.
    FirstGreen,
    /// The begin of green of the last coordinated phase: number 2.
    LastGreen,
    /// The begin of yellow of the first coordinated phase: number 3.
    FirstYellow,
    /// The begin of yellow of the last coordinated phase: number 4.
    LastYellow,
    /// The begin of red of the first coordinated phase: number 5.
    FirstRed,
}

ghost use Rattle.std.specs.Prelude.{true};
ghost use Rattle.tsb_plan.specs.declared.object.Object.TheVariants.{SplitTime};
ghost use Rattle.tsb_plan.specs.Objects.{has_index};

/// Where a split table has the value of a phase.
fn split_index(split: Split, phase: Phase) -> u32
    ensures at { result ≡ 16 * (split - 1) + phase }
    ensures has { has_index SplitTime result ≡ true }
{
    16 * (u32::from(split.number()) - 1) + u32::from(phase.number())
}

/// How many places of `sequenceData` come before those of a sequence for a ring.
fn places_before(sequence: Sequence, ring: Ring) -> u32
    ensures same { result ≡ 32 * (sequence - 1) + 16 * (ring - 1) }
    ensures within { result ≤ 112 }
{
    32 * (u32::from(sequence.number()) - 1) + 16 * (u32::from(ring.number()) - 1)
}

impl Plan {
    ghost use Rattle.tsb_plan.specs.Parts.{forces_late, floats, correction_mode, correction_limit, offset_reference, cycle, is_used, offset, permissive_time, leads_and_lags, split_of, sequence_of, split_time, split_mode, is_omitted, is_coordinated};
    ghost use Rattle.tsb_plan.specs.PlanOf.{plan_of};
    ghost use Rattle.tsb_plan.specs.Plan.{sequence as sequence_places};

    /// Whether force-off is late (`coordForceMode` 1 and 2, profile): a phase that is not coordinated is forced off
    /// from its instant up to that of a coordinated phase, and otherwise at its instant alone.
    pub fn forces_late(&self) -> bool
        ensures { result ≡ forces_late (plan_of self.now) }
    {
        self.value(Object::CoordForceMode, 1) != 0
    }

    /// Whether force-off floats (`coordForceMode` 2, profile): a phase that is not coordinated is besides forced off
    /// once its green has lasted its split less yellow change and red clearance.
    pub fn floats(&self) -> bool
        ensures { result ≡ floats (plan_of self.now) }
    {
        self.value(Object::CoordForceMode, 1) == 2
    }

    /// How the local counter comes into step once a pattern is selected while another ran (`coordCorrectionMode`,
    /// profile). Without a limit (`coordCorrectionLimit` 0) the short way and add only are at once.
    pub fn correction_mode(&self) -> CorrectionMode
        ensures { result ≡ correction_mode (plan_of self.now) }
    {
        let number = self.value(Object::CoordCorrectionMode, 1);
        if number == 1 {
            return CorrectionMode::Dwell;
        }
        if self.correction_limit() == 0 {
            return CorrectionMode::AtOnce;
        }
        match number {
            2 => CorrectionMode::ShortWay,
            3 => CorrectionMode::AddOnly,
            _ => CorrectionMode::AtOnce,
        }
    }

    /// By how much of it a cycle is made longer or shorter at most while the local counter comes into step
    /// (`coordCorrectionLimit`, profile), in percent.
    pub fn correction_limit(&self) -> u32
        ensures value { result ≡ correction_limit (plan_of self.now) }
        ensures range { result ≤ 50 }
    {
        self.value(Object::CoordCorrectionLimit, 1)
    }

    /// What the offsets of all patterns are counted to (`coordReference`, profile).
    pub fn offset_reference(&self) -> OffsetReference
        ensures { result ≡ offset_reference (plan_of self.now) }
    {
        match self.value(Object::CoordReference, 1) {
            1 => OffsetReference::FirstGreen,
            2 => OffsetReference::LastGreen,
            3 => OffsetReference::FirstYellow,
            4 => OffsetReference::LastYellow,
            5 => OffsetReference::FirstRed,
            _ => OffsetReference::SplitEnd,
        }
    }

    /// The cycle of the pattern, 0 where the pattern is not used (`patternCycleTime`), in tenths of a
    /// second.
    pub fn cycle(&self, pattern: Pattern) -> u32
        ensures value { result ≡ cycle (plan_of self.now) pattern }
        ensures range { result ≤ 2550 }
    {
        10 * self.value(Object::PatternCycleTime, u32::from(pattern.number()))
    }

    /// Whether the pattern is used, that is, has a cycle (`patternCycleTime`).
    pub fn is_used(&self, pattern: Pattern) -> bool
        ensures { result ≡ is_used (plan_of self.now) pattern }
    {
        self.value(Object::PatternCycleTime, u32::from(pattern.number())) != 0
    }

    /// The offset of the pattern (`patternOffsetTime`), in tenths of a second: that of what offsets are counted to.
    pub fn offset(&self, pattern: Pattern) -> u32
        ensures value { result ≡ offset (plan_of self.now) pattern }
        ensures range { result ≤ 2540 }
    {
        10 * self.value(Object::PatternOffsetTime, u32::from(pattern.number()))
    }

    /// For how long behind their instants the coordinated phases of the pattern are forced off
    /// (`patternPermissiveTime`, profile), in tenths of a second; with 0 at their instants alone.
    pub fn permissive_time(&self, pattern: Pattern) -> u32
        ensures value { result ≡ permissive_time (plan_of self.now) pattern }
        ensures range { result ≤ 2550 }
    {
        10 * self.value(Object::PatternPermissiveTime, u32::from(pattern.number()))
    }

    /// Whether the splits of the coordinated phases of the pattern may end at different times (`patternLeadLag`,
    /// profile).
    pub fn leads_and_lags(&self, pattern: Pattern) -> bool
        ensures { result ≡ leads_and_lags (plan_of self.now) pattern }
    {
        self.value(Object::PatternLeadLag, u32::from(pattern.number())) == 1
    }

    /// The split table of the pattern (`patternSplitNumber`).
    pub fn split_of(&self, pattern: Pattern) -> Option<Split>
        ensures { result ≡ split_of (plan_of self.now) pattern }
    {
        Split::new(self.value(Object::PatternSplitNumber, u32::from(pattern.number())))
    }

    /// The sequence of the pattern (`patternSequenceNumber`).
    pub fn sequence_of(&self, pattern: Pattern) -> Option<Sequence>
        ensures { result ≡ sequence_of (plan_of self.now) pattern }
    {
        Sequence::new(self.value(Object::PatternSequenceNumber, u32::from(pattern.number())))
    }

    /// The split of the phase (`splitTime`), in tenths of a second.
    pub fn split_time(&self, split: Split, phase: Phase) -> u32
        ensures { result ≡ split_time (plan_of self.now) split phase }
    {
        10 * self.value(Object::SplitTime, split_index(split, phase))
    }

    /// What the split does with the phase (`splitMode`).
    pub fn split_mode(&self, split: Split, phase: Phase) -> SplitMode
        ensures { result ≡ split_mode (plan_of self.now) split phase }
    {
        match self.value(Object::SplitMode, split_index(split, phase)) {
            1 => SplitMode::MinimumRecall,
            2 => SplitMode::MaximumRecall,
            3 => SplitMode::PedestrianRecall,
            4 => SplitMode::MaximumAndPedestrianRecall,
            5 => SplitMode::Omitted,
            _ => SplitMode::NoMode,
        }
    }

    /// Whether the split omits the phase (`splitMode` 5).
    pub fn is_omitted(&self, split: Split, phase: Phase) -> bool
        ensures { result ≡ is_omitted (plan_of self.now) split phase }
    {
        self.value(Object::SplitMode, split_index(split, phase)) == 5
    }

    /// Whether the phase is a coordinated phase of the split (`splitCoordPhase`).
    pub fn is_coordinated(&self, split: Split, phase: Phase) -> bool
        ensures { result ≡ is_coordinated (plan_of self.now) split phase }
    {
        self.value(Object::SplitCoordPhase, split_index(split, phase)) == 1
    }

    /// What a sequence has for a ring, place by place, lent: a phase's number, or 0 for none (`sequenceData`).
    #[inline(always)]
    pub fn sequence(&self, sequence: Sequence, ring: Ring) -> &[u16]
        ensures places { result.now ≡ sequence_places (plan_of self.now) sequence ring }
        ensures full { length result.now ≡ 16 }
    {
        let end = cell(Object::SequenceData, places_before(sequence, ring) + 16) + 1;
        let values = &self.values[..];
        &values[end - PHASES..end]
    }
}
