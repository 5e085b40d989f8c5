//! The two rings alone.
ghost use Rattle.std.specs.Prelude.{◌≡◌, ◌<◌, ◌+◌, ◌^◌, true, false};
ghost use Rattle.arrayvec.specs.ArrayVec.{array_vec_len};
ghost use Rattle.tsb_ring.specs.Cells.{IsBy};
ghost use Rattle.tsb_ring.specs.Layer.{cells_of, is_open};

use crate::driven::{Changes, Driven, Ticked, ticks};
use crate::fault::Fault;
use crate::numbers::Numbers;
use std::alloc::Global;
use tsb_cells::Reversible;
use tsb_objects::{Checked, Moves, RingMoves};
use tsb_ring::{RingConditions, RingOrder, Rings};

/// The rings, and which of them is written first next.
#[derive(Drop)]
pub struct Ringing {
    layer: Rings,
    order: RingOrder,
    ghost by: { IsBy (cells_of layer) },
    ghost closed: { is_open layer ≡ false },
}

impl Driven for Ringing {
    fn power_up(_alloc: Global, _plan: &Checked) -> Result<Ringing, Fault> {
        Ok(Ringing {
            layer: at_power_up(),
            order: RingOrder::Ring1First,
        })
    }

    fn take(&mut self, kind: &[u8], numbers: Numbers, plan: &Checked) -> Result<u32, Fault> {
        if kind == b"t".as_slice() {
            ticks(self, numbers, plan)
        } else {
            Err(Fault::Malformed)
        }
    }
}

impl Ticked for Ringing {
    type Given = RingConditions;

    type Answer = Moves;

    fn read(numbers: &mut Numbers) -> Result<RingConditions, Fault> {
        numbers.ring_conditions()
    }

    /// One tick. Each ring is written first in turn.
    #[inline(always)]
    fn tick(
        &mut self,
        given: &RingConditions,
        plan: &Checked,
        out: &mut Changes,
    ) -> Result<Moves, Fault> {
        self.layer.open();
        let moves = self.layer.decide(given, plan);
        self.layer.act(&moves, self.order);
        self.layer.close_onto(out, 0);
        self.order = match self.order {
            RingOrder::Ring1First => RingOrder::Ring2First,
            RingOrder::Ring2First => RingOrder::Ring1First,
        };
        Ok(moves)
    }

    /// For each ring the phase that ends, the one that clears, the one that starts and the one that it commits to; the
    /// side that a crossing goes to, and whether one is completed.
    fn tells(
        &self,
        _given: &RingConditions,
        answer: &Moves,
        answers: &mut Numbers,
    ) -> Result<(), Fault> {
        tells_ring(answers, &answer.first)?;
        tells_ring(answers, &answer.second)?;
        match answer.crossing {
            Some(side) => answers.tells(u32::from(side.number()))?,
            None => answers.tells(0)?,
        }
        answers.tells(u32::from(answer.completes))
    }
}

fn tells_ring(answers: &mut Numbers, moves: &RingMoves) -> Result<(), Fault> {
    answers.tells_phase(moves.ends)?;
    answers.tells_phase(moves.clears)?;
    answers.tells_phase(moves.starts)?;
    answers.tells_phase(moves.commits)
}

/// Rings as at power-up.
fn at_power_up() -> Rings
    ensures by { IsBy (cells_of result) }
    ensures closed { is_open result ≡ false }
{
    Rings::new()
}
