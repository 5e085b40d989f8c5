//! Plans that were checked, with tables of what they say. The rules, the objects of plans and the plain types that
//! layers name are re-exported with them.
//!
//! Names and units of objects are those of NTCIP 1202. What is marked "profile" is this project's own
//! choice. Nothing here takes memory.
#![tactic(auto)]

mod agreement;
pub mod checked;
mod detector_tables;
mod instants;
mod late_ends;
mod offsets;
mod part_tables;
mod pattern_tables;
mod recycle;
mod red_reverts;
mod tables;
mod union_tables;
mod unions;

pub use checked::Checked;
pub use tsb_plan::{
    CorrectionMode, Object, ObjectId, OffsetReference, PLAN_CELLS, Plan, Range, SplitMode, Version,
    is_structural, range_of,
};
pub use tsb_rules::{Rule, check, split_end};
pub use tsb_types::{
    Aspect, Called, Detector, DetectorSet, Interval, Intervals, Lamp, Moves, NumberSet, Orders,
    Overlap, OverlapLights, Pattern, PedestrianAspect, PedestrianColor, PedestrianDetector,
    PedestrianInterval, Pedestrians, Phase, PhaseSet, Preempt, Refusal, Ring, RingMoves, Row,
    Sequence, Side, SignalColor, Split, Stage, Station, Timing, Watch, limits,
};
