//! Vehicle detectors alone.
ghost use Rattle.std.specs.Prelude.{◌≡◌, ◌<◌, ◌+◌, ◌^◌, true, false};
ghost use Rattle.arrayvec.specs.ArrayVec.{array_vec_len};
ghost use Rattle.tsb_detect.specs.Cells.{IsBy};
ghost use Rattle.tsb_detect.specs.Layer.{cells_of, is_open};

use crate::driven::{Changes, Driven, Ticked, ticks};
use crate::fault::Fault;
use crate::numbers::Numbers;
use crate::timed::ticks_before;
use std::alloc::Global;
use tsb_cells::Reversible;
use tsb_detect::laws::rows_stay_by;
use tsb_detect::{Alarm, Detectors, Greens};
use tsb_objects::{Checked, Detector, DetectorSet, PhaseSet, Row};
use tsb_types::limits;

/// What a tick gives: the inputs, the phases that are Green, and the cells of their timers.
#[derive(Clone, Copy, Drop)]
pub struct Given {
    row: Row,
    phases: PhaseSet,
    since: [u32; 16],
}

/// Detectors at a tick.
#[derive(Drop)]
pub struct Detecting {
    layer: Detectors,
    now: u32,
    ghost by: { IsBy now (cells_of layer) },
    ghost counted: { now < 2 ^ 31 },
    ghost closed: { is_open layer ≡ false },
}

impl Driven for Detecting {
    fn power_up(_alloc: Global, _plan: &Checked) -> Result<Detecting, Fault> {
        Ok(Detecting {
            layer: at_power_up(),
            now: 0,
        })
    }

    fn take(&mut self, kind: &[u8], numbers: Numbers, plan: &Checked) -> Result<u32, Fault> {
        if kind == b"t".as_slice() {
            ticks(self, numbers, plan)
        } else {
            Err(Fault::Malformed)
        }
    }
}

impl Ticked for Detecting {
    type Given = Given;

    type Answer = ();

    fn read(numbers: &mut Numbers) -> Result<Given, Fault> {
        Ok(Given {
            row: numbers.vehicle_row()?,
            phases: numbers.phases()?,
            since: numbers.since()?,
        })
    }

    #[inline(always)]
    fn tick(&mut self, given: &Given, plan: &Checked, out: &mut Changes) -> Result<(), Fault> {
        if self.now >= limits::TICKS {
            return Err(Fault::Malformed);
        }
        let now = self.now + 1;
        self.layer.open();
        let greens = Greens::new(given.phases, &given.since);
        self.layer.tick(now, &given.row, &greens, plan);
        self.layer.close_onto(out, 0);
        self.now = now;
        Ok(())
    }

    /// Outputs, actuations, and alarms of each kind.
    fn tells(&self, _given: &Given, _answer: &(), answers: &mut Numbers) -> Result<(), Fault> {
        answers.tells_detectors(self.layer.outputs())?;
        answers.tells_detectors(self.layer.actuations())?;
        answers.tells_detectors(alarms(&self.layer, Alarm::NoActivity))?;
        answers.tells_detectors(alarms(&self.layer, Alarm::MaxPresence))?;
        answers.tells_detectors(alarms(&self.layer, Alarm::Erratic))
    }

    #[inline(always)]
    fn spare(&self, given: &Given, plan: &Checked) -> u32 {
        ticks_before(self.layer.due(self.now, &given.row, plan), self.now)
    }

    #[inline(always)]
    fn pass(&mut self) {
        if self.now < limits::TICKS {
            rows_stay_by();
            self.now += 1;
        }
    }
}

/// The detectors that have this alarm.
fn alarms(detectors: &Detectors, alarm: Alarm) -> DetectorSet {
    let mut found = DetectorSet::empty();
    for detector in &Detector::all() {
        let has = detectors.alarm(*detector) == Some(alarm);
        found = found.with(detector.number(), has);
    }
    found
}

/// Detectors as at power-up.
fn at_power_up() -> Detectors
    ensures by { IsBy 0 (cells_of result) }
    ensures closed { is_open result ≡ false }
{
    Detectors::new()
}
