//! Memories and counts of calls alone.
ghost use Rattle.std.specs.Prelude.{◌≡◌, false};
ghost use Rattle.arrayvec.specs.ArrayVec.{array_vec_len};
ghost use Rattle.tsb_calls.specs.Cells.{IsBy};
ghost use Rattle.tsb_calls.specs.Layer.{cells_of, is_open};

use crate::driven::{Changes, Driven, Ticked, ticks};
use crate::fault::{Fault, same};
use crate::numbers::Numbers;
use std::alloc::Global;
use tsb_calls::{Calls, Decided, Observed};
use tsb_cells::Reversible;
use tsb_objects::{Called, Checked, PhaseSet, Preempt};

/// What a tick gives: what is observed, the four sets that the calls have to answer, and what the rings then decide for
/// phases and preempts.
#[derive(Clone, Copy, Drop)]
pub struct Given {
    observed: Observed,
    told: Called,
    starts: PhaseSet,
    ends: PhaseSet,
    gapped: PhaseSet,
    walks: PhaseSet,
    service: Option<Preempt>,
}

/// Memories and counts, which need no clock.
#[derive(Drop)]
pub struct Calling {
    layer: Calls,
    ghost by: { IsBy (cells_of layer) },
    ghost closed: { is_open layer ≡ false },
}

impl Driven for Calling {
    fn power_up(_alloc: Global, _plan: &Checked) -> Result<Calling, Fault> {
        Ok(Calling {
            layer: at_power_up(),
        })
    }

    fn take(&mut self, kind: &[u8], numbers: Numbers, plan: &Checked) -> Result<u32, Fault> {
        if kind == b"t".as_slice() {
            ticks(self, numbers, plan)
        } else {
            Err(Fault::Malformed)
        }
    }
}

impl Ticked for Calling {
    type Given = Given;

    type Answer = Called;

    fn read(numbers: &mut Numbers) -> Result<Given, Fault> {
        let observed = Observed {
            outputs: numbers.detectors()?,
            actuated: numbers.detectors()?,
            buttons: numbers.set()?,
            intervals: numbers.intervals()?,
            pedestrians: numbers.pedestrians()?,
            runs: numbers.pattern()?,
            omit: numbers.phases()?,
            service_ended: numbers.is_one()?,
        };
        Ok(Given {
            observed,
            told: numbers.called()?,
            starts: numbers.phases()?,
            ends: numbers.phases()?,
            gapped: numbers.phases()?,
            walks: numbers.phases()?,
            service: numbers.preempt()?,
        })
    }

    fn free(given: &mut Given) {
        given.observed.runs = None;
    }

    #[inline(always)]
    fn tick(&mut self, given: &Given, plan: &Checked, out: &mut Changes) -> Result<Called, Fault> {
        self.layer.open();
        let called = self.layer.tick(&given.observed, plan);
        let decided = Decided {
            starts: given.starts,
            ends: given.ends,
            gapped: given.gapped,
            walks: given.walks,
            pedestrian: called.pedestrian,
            service: given.service,
        };
        self.layer.settle(&decided);
        self.layer.close_onto(out, 0);
        Ok(called)
    }

    fn tells(&self, given: &Given, answer: &Called, _answers: &mut Numbers) -> Result<(), Fault> {
        same(*answer == given.told)
    }

    /// A tick with an empty answer is due, so that no answer is missed.
    #[inline(always)]
    fn is_due(answer: &Called) -> bool {
        let phases = answer.callable.union(answer.conflict);
        let others = answer.pedestrian.union(answer.output);
        phases.union(others).is_empty()
    }
}

/// Memories and counts as at power-up.
fn at_power_up() -> Calls
    ensures by { IsBy (cells_of result) }
    ensures closed { is_open result ≡ false }
{
    Calls::new()
}
