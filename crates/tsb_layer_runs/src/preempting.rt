//! Preempts alone.
ghost use Rattle.std.specs.Prelude.{◌≡◌, ◌<◌, ◌+◌, ◌^◌, true, false};
ghost use Rattle.arrayvec.specs.ArrayVec.{array_vec_len};
ghost use Rattle.tsb_preempt.specs.Cells.{IsBy};
ghost use Rattle.tsb_preempt.specs.Layer.{cells_of, is_open};

use crate::driven::{Changes, Driven, Ticked, ticks};
use crate::fault::Fault;
use crate::numbers::Numbers;
use crate::timed::ticks_before;
use std::alloc::Global;
use tsb_cells::Reversible;
use tsb_objects::{Checked, Intervals, Preempt, Refusal, Row, Stage};
use tsb_preempt::laws::rows_stay_by;
use tsb_preempt::{PreemptOrders, Preempts};
use tsb_types::limits;

/// What a tick gives: the preempt inputs, and the intervals of phases.
#[derive(Clone, Copy, Drop)]
pub struct Given {
    row: Row,
    intervals: Intervals,
}

/// Preempts at a tick.
#[derive(Drop)]
pub struct Preempting {
    layer: Preempts,
    now: u32,
    ghost by: { IsBy now (cells_of layer) },
    ghost counted: { now < 2 ^ 31 },
    ghost closed: { is_open layer ≡ false },
}

impl Preempting {
    /// A line `s`: a switch, and whether it is on; the refusal, and what changes.
    fn switch(&mut self, numbers: Numbers, plan: &Checked) -> Result<u32, Fault> {
        let mut numbers = numbers;
        let number = numbers.number()?;
        let on = numbers.is_one()?;
        let mut layer = self.layer;
        layer.open();
        let answer = switched(&mut layer, self.now, number, on, plan);
        let changes = layer.close();
        self.layer = layer;
        numbers.tells_refusal(answer.err())?;
        numbers.tells_changes(changes.as_slice())?;
        Ok(1)
    }
}

impl Driven for Preempting {
    fn power_up(_alloc: Global, _plan: &Checked) -> Result<Preempting, Fault> {
        Ok(Preempting {
            layer: at_power_up(),
            now: 0,
        })
    }

    fn take(&mut self, kind: &[u8], numbers: Numbers, plan: &Checked) -> Result<u32, Fault> {
        if kind == b"t".as_slice() {
            ticks(self, numbers, plan)
        } else if kind == b"s".as_slice() {
            self.switch(numbers, plan)
        } else {
            Err(Fault::Malformed)
        }
    }
}

impl Ticked for Preempting {
    type Given = Given;

    type Answer = PreemptOrders;

    fn read(numbers: &mut Numbers) -> Result<Given, Fault> {
        Ok(Given {
            row: numbers.preempt_row()?,
            intervals: numbers.intervals()?,
        })
    }

    #[inline(always)]
    fn tick(
        &mut self,
        given: &Given,
        plan: &Checked,
        out: &mut Changes,
    ) -> Result<PreemptOrders, Fault> {
        if self.now >= limits::TICKS {
            return Err(Fault::Malformed);
        }
        let now = self.now + 1;
        self.layer.open();
        let orders = self.layer.tick(now, &given.row, &given.intervals, plan);
        self.layer.close_onto(out, 0);
        self.now = now;
        Ok(orders)
    }

    /// Whether there is a target, its phases, the phases that must end, whether a service ended, the preempt in service
    /// and its stage.
    fn tells(
        &self,
        _given: &Given,
        answer: &PreemptOrders,
        answers: &mut Numbers,
    ) -> Result<(), Fault> {
        tells_orders(answers, answer)?;
        tells_stage(answers, self.layer.stage())
    }

    #[inline(always)]
    fn spare(&self, given: &Given, plan: &Checked) -> u32 {
        ticks_before(
            self.layer.due(self.now, &given.row, &given.intervals, plan),
            self.now,
        )
    }

    #[inline(always)]
    fn pass(&mut self) {
        if self.now < limits::TICKS {
            rows_stay_by();
            self.now += 1;
        }
    }
}

/// Sets a switch, or refuses to.
fn switched(
    preempts: &mut Preempts,
    now: u32,
    number: u32,
    on: bool,
    plan: &Checked,
) -> Result<(), Refusal>
    requires opened { is_open preempts.old ≡ true }
    requires by { IsBy now (cells_of preempts.old) }
    ensures by { IsBy now (cells_of preempts.new) }
    ensures opened { is_open preempts.new ≡ true }
{
    preempts.switch(number, on, plan)
}

fn tells_orders(answers: &mut Numbers, orders: &PreemptOrders) -> Result<(), Fault> {
    match orders.target {
        None => {
            answers.tells(0)?;
            answers.tells(0)?;
        }
        Some(target) => {
            answers.tells(1)?;
            answers.tells_phases(target)?;
        }
    }
    answers.tells_phases(orders.must_end)?;
    answers.tells(u32::from(orders.ended))
}

fn tells_stage(answers: &mut Numbers, stage: Option<(Preempt, Stage)>) -> Result<(), Fault> {
    let Some((preempt, stage)) = stage else {
        answers.tells(0)?;
        return answers.tells(0);
    };
    answers.tells(u32::from(preempt.number()))?;
    answers.tells(match stage {
        Stage::Track => 1,
        Stage::Dwell => 2,
        Stage::Exit => 3,
    })
}

/// Preempts as at power-up.
fn at_power_up() -> Preempts
    ensures by { IsBy 0 (cells_of result) }
    ensures closed { is_open result ≡ false }
{
    Preempts::new()
}
