//! Coordination alone.
ghost use Rattle.std.specs.Prelude.{◌≡◌, false};
ghost use Rattle.arrayvec.specs.ArrayVec.{array_vec_len};
ghost use Rattle.tsb_coord.specs.Cells.{IsBy};
ghost use Rattle.tsb_coord.specs.Layer.{cells_of, is_open};

use crate::driven::{Changes, Driven, Ticked};
use crate::fault::Fault;
use crate::numbers::Numbers;
use crate::timed::ticks_before;
use std::alloc::Global;
use tsb_cells::Reversible;
use tsb_coord::Coord;
use tsb_objects::{Checked, Pattern, PhaseSet};
use tsb_types::limits;

/// What a tick gives: the pattern that the operator has selected, or 0 for free operation.
#[derive(Clone, Copy, Drop)]
pub struct Given {
    pattern: u32,
}

/// Coordination; the last of its ticks, the pattern that was selected, the tick at which it may ask for something else,
/// and what it asked for.
#[derive(Drop)]
pub struct Coordinating {
    layer: Coord,
    now: u32,
    selected: u32,
    due: u32,
    runs: Option<Pattern>,
    forced: PhaseSet,
    recycle: PhaseSet,
    ghost by: { IsBy (cells_of layer) },
    ghost closed: { is_open layer ≡ false },
}

impl Coordinating {
    /// A line `o`: a tick; the pattern that runs, the sequence, hold, force-off and omit; one more than the local
    /// counter, or 0 in free operation; and pedestrian recycle.
    fn tell(&self, numbers: Numbers, plan: &Checked) -> Result<u32, Fault> {
        let mut numbers = numbers;
        let now = numbers.number()?;
        if now > limits::TICKS {
            return Err(Fault::Malformed);
        }
        let said = self.layer.orders(now, plan);
        numbers.tells_pattern(said.runs)?;
        numbers.tells(u32::from(said.sequence.number()))?;
        numbers.tells_phases(said.hold)?;
        numbers.tells_phases(said.forced)?;
        numbers.tells_phases(said.omit)?;
        match self.layer.local(now, plan) {
            Some(local) => numbers.tells(local.saturating_add(1))?,
            None => numbers.tells(0)?,
        }
        numbers.tells_phases(said.recycle)?;
        numbers.ends()?;
        Ok(1)
    }

    /// A line `p`: a tick; the pattern that is selected in it; the refusal, and what changes.
    fn select(&mut self, numbers: Numbers, plan: &Checked) -> Result<u32, Fault> {
        let mut numbers = numbers;
        let now = numbers.number()?;
        if now > limits::TICKS {
            return Err(Fault::Malformed);
        }
        let pattern = numbers.number()?;
        let mut layer = self.layer;
        layer.open();
        let answer = layer.set_pattern(pattern, now, plan);
        let changes = layer.close();
        self.layer = layer;
        numbers.tells_refusal(answer.err())?;
        numbers.tells_changes(changes.as_slice())?;
        Ok(1)
    }
}

impl Driven for Coordinating {
    fn power_up(_alloc: Global, _plan: &Checked) -> Result<Coordinating, Fault> {
        Ok(Coordinating {
            layer: Coord::new(),
            now: 0,
            selected: 0,
            due: 0,
            runs: None,
            forced: PhaseSet::empty(),
            recycle: PhaseSet::empty(),
        })
    }

    fn take(&mut self, kind: &[u8], numbers: Numbers, plan: &Checked) -> Result<u32, Fault> {
        if kind == b"o".as_slice() {
            self.tell(numbers, plan)
        } else if kind == b"p".as_slice() {
            self.select(numbers, plan)
        } else {
            Err(Fault::Malformed)
        }
    }
}

impl Ticked for Coordinating {
    type Given = Given;

    type Answer = bool;

    fn read(numbers: &mut Numbers) -> Result<Given, Fault> {
        Ok(Given {
            pattern: numbers.number()?,
        })
    }

    /// One tick, as a bench has it: what coordination asked for holds until it is due, or until another pattern is
    /// selected. It answers whether it asks for another force-off or pedestrian recycle, or another pattern runs.
    #[inline(always)]
    fn tick(&mut self, given: &Given, plan: &Checked, out: &mut Changes) -> Result<bool, Fault> {
        if self.now >= limits::TICKS {
            return Err(Fault::Malformed);
        }
        let now = self.now + 1;
        self.now = now;
        if given.pattern == self.selected && now < self.due {
            return Ok(false);
        }
        let mut layer = self.layer;
        layer.open();
        if given.pattern != self.selected {
            let _answer = layer.set_pattern(given.pattern, now, plan);
            self.selected = given.pattern;
        }
        let said = layer.orders(now, plan);
        self.due = layer.due(now, plan);
        layer.close_onto(out, 0);
        self.layer = layer;
        let is_other = said.runs != self.runs
            || said.forced != self.forced
            || said.recycle != self.recycle;
        self.runs = said.runs;
        self.forced = said.forced;
        self.recycle = said.recycle;
        Ok(is_other)
    }

    #[inline(always)]
    fn is_due(answer: &bool) -> bool {
        *answer
    }

    #[inline(always)]
    fn spare(&self, _given: &Given, _plan: &Checked) -> u32 {
        ticks_before(self.due, self.now)
    }

    #[inline(always)]
    fn pass(&mut self) {
        if self.now < limits::TICKS {
            self.now += 1;
        }
    }
}
