//! Rows that are held.
ghost use Rattle.std.specs.Prelude.{◌≡◌, ◌<◌, ◌≤◌, [], length, nat_le, is_some, IfOk};
ghost use Rattle.std.specs.List.{AllWithin};
ghost use Rattle.std.specs.List.Sorted.{IsNonDecreasingBy};
ghost use Rattle.std.specs.VecDeque.{deque_capacity};
ghost use Rattle.tsb_field_streams.specs.Order.{first_before, first_of, placed, rest_before, rest_of, time_of};

use std::alloc::{AllocError, Global};
use std::collections::VecDeque;
use tsb_event_text::EventRow;

/// Rows that are held in the order of time, those of one moment in the order in which they came.
#[derive(Drop)]
pub struct Held {
    rows: VecDeque<EventRow>,
    /// The most rows that may be held.
    most: usize,
    ghost room: { most ≤ deque_capacity rows },
    ghost ordered: { IsNonDecreasingBy time_of rows.items },
}

impl Held {
    ghost use Rattle.tsb_field_streams.specs.Holding.{held_rows, most_rows};

    /// Holds no row yet, and `most` at a time at most. Memory for all of them is taken here; the error is that there is
    /// none.
    pub fn new(alloc: Global, most: usize) -> Result<Held, AllocError>
        ensures empty { IfOk result (λ held. held_rows held ≡ []) }
        ensures most { IfOk result (λ held. most_rows held ≡ most) }
    {
        let rows = VecDeque::with_capacity(alloc, most)?;
        Ok(Held { rows, most })
    }

    /// How many rows are held.
    pub fn count(&self) -> usize
        ensures { result ≡ length (held_rows self.now) }
    {
        self.rows.len()
    }

    /// Whether as many rows are held as may be.
    pub fn is_full(&self) -> bool
        ensures { result ≡ nat_le (most_rows self.now) (length (held_rows self.now)) }
    {
        self.most <= self.count()
    }

    /// Holds one more row, behind those of the same moment. This needs no memory.
    pub fn hold(&mut self, row: EventRow)
        requires { length (held_rows self.old) < most_rows self.old }
        ensures rows { held_rows self.new ≡ placed row (held_rows self.old) }
        ensures most { most_rows self.new ≡ most_rows self.old }
    {
        let place = place_of(&self.rows, row.moment.nanos);
        // There is room for it.
        let _ = self.rows.insert(place, row);
    }

    /// Gives out the first row, where one is held.
    pub fn give(&mut self) -> Option<EventRow>
        ensures first { result ≡ first_of (held_rows self.old) }
        ensures rest { held_rows self.new ≡ rest_of (held_rows self.old) }
        ensures most { most_rows self.new ≡ most_rows self.old }
    {
        self.rows.pop_front()
    }

    /// Gives out the first row, where it is before this moment, in nanoseconds as a `Moment` counts them.
    pub fn give_before(&mut self, moment: u128) -> Option<EventRow>
        ensures first { result ≡ first_before moment (held_rows self.old) }
        ensures rest { held_rows self.new ≡ rest_before moment (held_rows self.old) }
        ensures most { most_rows self.new ≡ most_rows self.old }
    {
        if self.is_before(moment) {
            return self.give();
        }
        None
    }

    /// Whether a row is held that is before this moment.
    fn is_before(&self, moment: u128) -> bool
        ensures { result ≡ is_some (first_before moment (held_rows self.now)) }
    {
        match self.rows.front() {
            Some(row) => row.moment.nanos < moment,
            None => false,
        }
    }
}

/// The place behind the rows that are no later than this moment.
fn place_of(rows: &VecDeque<EventRow>, moment: u128) -> usize
    requires { IsNonDecreasingBy time_of rows.now.items }
    ensures bound { result ≤ length rows.now.items }
    ensures below { AllWithin (λ row. time_of row ≤ moment) rows.now.items 0 result }
    ensures above { AllWithin (λ row. moment < time_of row) rows.now.items result (length rows.now.items) }
{
    rows.partition_point(|row| row.moment.nanos <= moment)
}
