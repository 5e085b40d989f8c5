//! What a stored tick gives a layer.
ghost use Rattle.std.specs.Prelude.{IfOk};
ghost use Rattle.tsb_phase.specs.Counts.{AreCounts};

use crate::fault::Fault;
use crate::numbers::Numbers;
use tsb_objects::{Called, DetectorSet, NumberSet, Orders, PhaseSet, Row, Sequence, Timing};
use tsb_ring::RingConditions;

impl<'a> Numbers<'a> {
    /// The next number, the vehicle inputs of a row; the others are off.
    pub fn vehicle_row(&mut self) -> Result<Row, Fault> {
        Ok(Row {
            vehicles: self.detectors()?,
            pedestrians: NumberSet::empty(),
            preempts: NumberSet::empty(),
        })
    }

    /// The next number, the preempt inputs of a row; the others are off.
    pub fn preempt_row(&mut self) -> Result<Row, Fault> {
        Ok(Row {
            vehicles: DetectorSet::empty(),
            pedestrians: NumberSet::empty(),
            preempts: self.set()?,
        })
    }

    /// The next 16 numbers, the cells of the interval timers of phases 1 to 16 in turn.
    pub fn since(&mut self) -> Result<[u32; 16], Fault> {
        let mut since = [0; 16];
        for k in 0..16 {
            since[k] = self.number()?;
        }
        Ok(since)
    }

    /// The next 16 numbers, the vehicles that phases 1 to 16 have counted, in turn, 0 to 255 each.
    pub fn counts(&mut self) -> Result<[u32; 16], Fault>
        ensures { IfOk result AreCounts }
    {
        let mut vehicles = [0; 16];
        for k in 0..16 {
            vehicles[k] = self.number()? % 256;
        }
        Ok(vehicles)
    }

    /// The next four numbers: the phases that may be served next, those for which another waits that is not concurrent
    /// with them, those with a pedestrian call, and those that a detector calls whose output is on.
    pub fn called(&mut self) -> Result<Called, Fault> {
        Ok(Called {
            callable: self.phases()?,
            conflict: self.phases()?,
            pedestrian: self.phases()?,
            output: self.phases()?,
        })
    }

    /// What the rings are given: the intervals that were, the sequence in effect, the phases that may be served next,
    /// those that are ready, over and past their red revert, the omitted ones, and a preempt's target. What the rings
    /// do not read is empty.
    pub fn ring_conditions(&mut self) -> Result<RingConditions, Fault> {
        let none = PhaseSet::empty();
        let intervals = self.intervals()?;
        let sequence = Sequence::new(self.number()?).ok_or(Fault::Malformed)?;
        let called = Called {
            callable: self.phases()?,
            conflict: none,
            pedestrian: none,
            output: none,
        };
        let timing = Timing {
            ready: self.phases()?,
            over: self.phases()?,
            red_revert_passed: self.phases()?,
            gapped: none,
            walks: none,
        };
        let orders = Orders {
            hold: none,
            must_end: none,
            forced: none,
            recycle: none,
            omit: self.phases()?,
            target: self.target()?,
        };
        Ok(RingConditions {
            intervals,
            sequence,
            called,
            timing,
            orders,
        })
    }

    /// The next two numbers: whether a preempt has a target, and the phases of it.
    fn target(&mut self) -> Result<Option<PhaseSet>, Fault> {
        let has_target = self.is_one()?;
        let phases = self.phases()?;
        Ok(if has_target { Some(phases) } else { None })
    }
}
