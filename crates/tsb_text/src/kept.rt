//! The inputs that remain, which can be taken back.
ghost use Rattle.std.specs.Prelude.{◌≡◌, ◌≤◌, OnErr, OnOk, false};
ghost use Rattle.tsb_step.specs.Step.{last_tick};
ghost use Rattle.tsb_types.specs.Sets.{is_same_row};
ghost use Rattle.tsb_text.specs.kept.Kept.{DropsOther, LacksRoom, gone_back, nothing_kept, row_kept, with_input, with_other, with_row};

mod changed;
pub mod laws;

use crate::kept::changed::row_before;
use crate::later::{Timed, drop_later};
use std::alloc::{AllocError, Global};
use std::marker::Model;
use tsb_log_text::LogRow;
use tsb_step::Input;
use tsb_types::Row;

/// An input that is no tick, and where it came.
#[derive(Clone, Copy)]
pub struct Other {
    /// The number of the tick in force when it came: 0 to 6,000,000.
    pub tick: u32,
    /// The input.
    pub input: Input,
}

impl Timed for Other {
    ghost use Rattle.tsb_text.specs.kept.Kept.{other_tick};

    ghost at = { other_tick };

    fn tick(&self) -> u32 {
        self.tick
    }
}

/// The inputs of a run that remain, the oldest first: the rows of its ticks, as a log has them, and the inputs that are
/// no ticks. A contract sees both, and for how many more of them there is memory.
#[derive(Drop)]
pub struct Kept {
    rows: Vec<LogRow>,
    others: Vec<Other>,
}

impl Model for Kept {
    ghost use Rattle.std.specs.Prelude.{◌-◌, vec_capacity, vec_len};
    ghost use Rattle.tsb_text.specs.kept.Kept.{Stock};

    ghost Value = { Stock };

    ghost view = { λ a. record {
      kept = record { rows = a.rows.items; others = a.others.items };
      row_room = vec_capacity a.rows - vec_len a.rows;
      other_room = vec_capacity a.others - vec_len a.others;
    } };
}

impl Kept {
    /// No input, which takes no memory.
    pub fn new(alloc: Global) -> Kept
        ensures { result.kept ≡ nothing_kept }
    {
        Kept {
            rows: Vec::new(alloc),
            others: Vec::new(alloc),
        }
    }

    /// A row for each tick whose inputs differ from those of the tick before it, the oldest first.
    pub fn rows(&self) -> &[LogRow]
        ensures { result.now ≡ self.now.kept.rows }
    {
        &self.rows
    }

    /// The inputs that are no ticks, the oldest first.
    pub fn others(&self) -> &[Other]
        ensures { result.now ≡ self.now.kept.others }
    {
        &self.others
    }

    /// The inputs of the last tick. All are off before the first.
    pub fn last_row(&self) -> Row
        ensures { result ≡ row_kept self.now.kept }
    {
        row_before(&self.rows, self.rows.len())
    }

    /// Adds an input, where this tick was in force before it. The error is that memory ran out. It comes only where there
    /// was no room for the input, and leaves all as it was.
    pub fn add(&mut self, input: &Input, tick: u32) -> Result<(), AllocError>
        requires in_time { tick ≤ last_tick }
        ensures ok { OnOk result (self.new.kept ≡ with_input input.now tick self.old.kept) }
        ensures err { OnErr result (self.new ≡ self.old) }
        ensures wanting { OnErr result (LacksRoom input.now self.old) }
    {
        match input {
            Input::Tick(row) => self.add_row(tick + 1, *row),
            _ => self.add_other(tick, *input),
        }
    }

    /// Adds a tick with these inputs on. The error is that memory ran out, and leaves all as it was.
    fn add_row(&mut self, tick: u32, row: Row) -> Result<(), AllocError>
        ensures ok { OnOk result (self.new.kept ≡ with_row tick row self.old.kept) }
        ensures err { OnErr result (self.new ≡ self.old) }
        ensures wanting { OnErr result ((is_same_row row (row_kept self.old.kept) ≡ false) × (self.old.row_room ≡ 0)) }
    {
        if is_same_row(&row, &self.last_row()) {
            return Ok(());
        }
        self.rows.reserve(1)?;
        self.rows.push_reserved(LogRow { tick, row });
        Ok(())
    }

    /// Adds an input that is no tick, where this tick is in force. The error is that memory ran out, and leaves all as it
    /// was.
    fn add_other(&mut self, tick: u32, input: Input) -> Result<(), AllocError>
        ensures ok { OnOk result (self.new.kept ≡ with_other tick input self.old.kept) }
        ensures err { OnErr result (self.new ≡ self.old) }
        ensures wanting { OnErr result (self.old.other_room ≡ 0) }
    {
        self.others.reserve(1)?;
        self.others.push_reserved(Other { tick, input });
        Ok(())
    }

    /// Takes the newest input away that is no tick.
    pub fn undo_other(&mut self)
        ensures { DropsOther self.old.kept self.new.kept }
    {
        let _ = self.others.pop();
    }

    /// Takes all inputs away that came later than a tick: ticks with a number above it, and others at those.
    pub fn go_back(&mut self, tick: u32)
        ensures { self.new.kept ≡ gone_back tick self.old.kept }
    {
        drop_later(&mut self.rows, tick);
        drop_later(&mut self.others, tick);
    }
}

/// Whether two rows have the same inputs on.
fn is_same_row(row: &Row, other: &Row) -> bool
    ensures { result ≡ is_same_row row.now other.now }
{
    *row == *other
}
