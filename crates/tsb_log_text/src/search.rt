//! The place of a tick among rows: how many of them are not above it.
ghost use Rattle.std.specs.Prelude.{◌≡◌, true};
ghost use Rattle.tsb_log_text.specs.Places.{IsPlace};

use crate::log::LogRow;

/// How many rows are not above the tick. It is found at once where it is `hint`, or one more.
pub(crate) fn place_near(rows: &[LogRow], tick: u32, hint: usize) -> usize
    ensures { IsPlace rows.now tick result }
{
    if is_place(rows, tick, hint) {
        return hint;
    }
    let next = hint.saturating_add(1);
    if is_place(rows, tick, next) {
        return next;
    }
    search(rows, tick)
}

/// Whether this many rows are not above the tick, and no more.
fn is_place(rows: &[LogRow], tick: u32, place: usize) -> bool
    ensures { result ≡ true → IsPlace rows.now tick place }
{
    if place > rows.len() {
        return false;
    }
    if place > 0 && tick < rows[place - 1].tick {
        return false;
    }
    place == rows.len() || tick < rows[place].tick
}

/// How many rows are not above the tick.
fn search(rows: &[LogRow], tick: u32) -> usize
    ensures { IsPlace rows.now tick result }
{
    let mut low = 0;
    let mut high = rows.len();
    while low < high {
        let middle = low + (high - low) / 2;
        if rows[middle].tick <= tick {
            low = middle + 1;
        } else {
            high = middle;
        }
    }
    low
}
