//! The rows of ticks: which inputs are on in each.

ghost use Rattle.std.specs.Prelude.{◌≡◌, ◌≤◌};
ghost use Rattle.tsb_log_text.specs.Logs.{row_at};
ghost use Rattle.tsb_text.specs.Rows.{row_in_force, rows_in};

use tsb_log_text::Log;
use tsb_objects::Row;

/// Where ticks take their rows from.
#[derive(Drop)]
pub enum Rows<'a> {
    /// From a log. `place` says where the last row was found: it is sought from there, and may be any number.
    OfLog { log: &'a Log, place: usize },
    /// The same row in each tick.
    Held(Row),
}

impl Rows<'_> {
    /// The row of a tick, whose number is counted from 1.
    pub fn row(&mut self, tick: u32) -> Row
        requires { 1 ≤ tick }
        ensures row { result ≡ row_at (rows_in self.old) tick }
        ensures same { rows_in self.new ≡ rows_in self.old }
    {
        match self {
            Rows::OfLog { log, place } => log.row(tick, place),
            Rows::Held(row) => *row,
        }
    }
    /// The row that is in force at a tick number. Before the first tick all inputs are off.
    pub fn in_force(&mut self, tick: u32) -> Row
        ensures row { result ≡ row_in_force (rows_in self.old) tick }
        ensures same { rows_in self.new ≡ rows_in self.old }
    {
        if tick == 0 {
            Row::all_off()
        } else {
            self.row(tick)
        }
    }
}
