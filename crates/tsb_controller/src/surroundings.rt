//! What overlaps see that have intervals of their own.
ghost use Rattle.std.specs.Prelude.{Bool};
ghost use Rattle.tsb_phase.specs.Layer as phase_layer;
ghost use Rattle.tsb_ring.specs.Layer as ring_layer;
ghost use Rattle.tsb_ring.specs.Cells.{IsBy};
ghost use Rattle.tsb_controller.specs.Found.{AreSeen};

use tsb_objects::{PhaseSet, Ring};
use tsb_overlap::Surroundings;
use tsb_phase::Phases;
use tsb_ring::Rings;

/// What arrows and overlaps that trail see of phases and rings as they are, where these phases were Green before the tick,
/// and a preempt is in service or not.
pub(crate) fn surroundings<'a>(
    phases: &'a Phases,
    rings: &Rings,
    was_green: PhaseSet,
    is_preempted: bool,
) -> Surroundings<'a>
    requires rings_by { IsBy (ring_layer.cells_of rings.now) }
    ensures { AreSeen was_green is_preempted (phase_layer.cells_of phases.now) (ring_layer.cells_of rings.now) result }
{
    Surroundings {
        was_green,
        intervals: phases.intervals(),
        pedestrians: phases.pedestrians(),
        since: phases.since(),
        ring_1: rings.commitment(Ring::of(1)),
        ring_2: rings.commitment(Ring::of(2)),
        is_preempted,
    }
}
