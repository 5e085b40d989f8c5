//! Logs, as lists of rows by tick.
ghost use Rattle.std.specs.Prelude.{◌≡◌, List, []};
ghost use Rattle.tsb_log_text.specs.Logs.{Rises, row_at};
ghost use Rattle.tsb_log_text.specs.declared.log.LogRow.{LogRow};

use crate::search::place_near;
use std::alloc::Global;
use std::marker::Model;
use tsb_types::Row;

/// A row of a log: from its tick on, until the next row, these inputs are on.
#[derive(Clone, Copy, PartialEq, Eq)]
pub struct LogRow {
    /// 1 to 6,000,000.
    pub tick: u32,
    /// The inputs that are on.
    pub row: Row,
}

/// A log of inputs. A contract sees the list of its rows, whose ticks rise.
#[derive(Drop)]
pub struct Log {
    rows: Vec<LogRow>,
}

impl Model for Log {
    ghost Value = { List LogRow };

    ghost view = { λ log. log.rows.items };

    ghost invariant = { λ log. Rises 0 log.rows.items };
}

impl Log {
    /// The log without rows, which takes no memory.
    pub fn empty(alloc: Global) -> Log
        ensures { result ≡ [] }
    {
        Log {
            rows: Vec::new(alloc),
        }
    }

    /// The log of these rows, whose ticks have to rise.
    pub(crate) fn of(rows: Vec<LogRow>) -> Log
        requires { Rises 0 rows.items }
        ensures { result ≡ rows.items }
    {
        Log { rows }
    }

    /// The rows, whose ticks rise.
    pub fn rows(&self) -> &[LogRow]
        ensures { result.now ≡ self.now }
    {
        &self.rows
    }

    /// The row in force at a tick: that of the greatest tick not above it, or all inputs off where the log has
    /// none. `place` says where the last answer was found, so that a caller who goes tick by tick pays for
    /// no search; any other pays for a binary search. The answer is the same whatever `place` holds.
    pub fn row(&self, tick: u32, place: &mut usize) -> Row
        ensures { result ≡ row_at self.now tick }
    {
        let rows = self.rows.as_slice();
        *place = place_near(rows, tick, *place);
        if *place == 0 {
            Row::all_off()
        } else {
            rows[*place - 1].row
        }
    }
}
