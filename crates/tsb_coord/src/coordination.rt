//! What coordination says in a tick.

use tsb_objects::{Pattern, PhaseSet, Sequence};

/// What coordination says in a tick: the pattern that runs, and what it asks of the rings.
#[derive(Clone, Copy)]
pub struct Coordination {
    /// The pattern that runs, or `None` in free operation.
    pub runs: Option<Pattern>,
    /// The sequence in effect.
    pub sequence: Sequence,
    /// The coordinated phases, which end their green only by force-off while no preempt is in service.
    pub hold: PhaseSet,
    /// Phases that are forced off in this tick, at their instant, late, or in their permissive time.
    pub forced: PhaseSet,
    /// Coordinated phases that may walk again within their green in this tick.
    pub recycle: PhaseSet,
    /// Phases that no call and no dual entry brings into service, as their split mode omits them. A preempt does,
    /// where its target has them.
    pub omit: PhaseSet,
}
