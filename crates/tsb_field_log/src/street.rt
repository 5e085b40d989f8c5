//! The inputs of a street, from event to event.
ghost use Rattle.std.specs.Prelude.{◌≡◌, ◌↔◌, ◌⊎◌, ◌+◌, ◌-◌, ◌<◌, ◌≤◌, ◌++◌, ◌∷◌, [], ℕ, List, None, IfOk, IfSome, IsNone, MatchOption, if◌then◌else◌, map, nat_le, nat_lt, option_to_list};
ghost use Rattle.tsb_types.specs.declared.limits.TheConstants.{TICKS};
ghost use Rattle.tsb_field_log.specs.Ticks.{begin_of, row_in};
ghost use Rattle.tsb_field_log.specs.Changes.{change, changes, rows_of};
ghost use Rattle.tsb_field_log.specs.Streets.{AreBefore, Follows, row_before, rows_in, rows_until, tick_at};
ghost use Rattle.tsb_field_log.specs.Leads.{lead_opened, lead_taken};
ghost use Rattle.tsb_field_log.specs.Pushed.{last_tick, rows_before};
ghost use Rattle.tsb_field_log.specs.Taken.{HasTaken};
ghost use Rattle.tsb_field_log.specs.declared.inputs.Wire.{Wire};
ghost use Rattle.tsb_field_log.specs.declared.inputs.InputEvent.{InputEvent};

use crate::inputs::{InputEvent, Wire};
use crate::leads::{Lead, open_tick, row_of, take_event};
use std::alloc::{AllocError, Global};
use tsb_log_text::LogRow;
use tsb_types::Row;
use tsb_types::limits::TICKS;

/// The nanoseconds of a tick.
const TENTH: u128 = 100_000_000;

/// Rows of a log that have become known, one after the other: at most two of the ticks between two events differ from
/// the row before.
#[derive(Clone, Copy, PartialEq, Eq)]
pub struct KnownRows {
    pub first: Option<LogRow>,
    pub second: Option<LogRow>,
}

/// The inputs of a street, as its events come in. It gives the rows of a log, each as soon as no later event can change
/// it.
#[derive(Drop)]
pub struct Street {
    /// The moment at which tick 1 begins.
    from: u128,
    leads: Vec<Lead>,
    /// The tick of the last event, or 0 where that was before tick 1.
    tick: u32,
    /// The row before that of this tick.
    before: Row,
}

impl Street {
    /// A street with these wires, before its first event: all is off. Tick 1 begins at `from`, in nanoseconds as a
    /// `Moment` counts them. The error is that memory ran out.
    pub fn new(alloc: Global, from: u128, wires: &[Wire]) -> Result<Street, AllocError>
        ensures follows { IfOk result (Follows wires.now []) }
        ensures from { IfOk result (λ street. street.from ≡ from) }
        ensures tick { IfOk result (λ street. street.tick ≡ 0) }
        ensures taken { IfOk result (λ street. HasTaken from wires.now [] street) }
    {
        let mut leads = Vec::new(alloc);
        for wire in wires {
            leads.push(Lead::off(*wire))?;
        }
        Ok(Street {
            from,
            leads,
            tick: 0,
            before: Row::all_off(),
        })
    }

    /// Takes an event, and gives the rows that have become known. `None` where it is past tick 6,000,000: the street is
    /// then as it was. Events come in the order of their ticks.
    pub fn push(&mut self, event: InputEvent) -> Option<KnownRows>
        ensures past { IsNone result ↔ (TICKS < tick_at self.old.from event.nanos) }
        ensures pushed { (wires : List Wire) (events : List InputEvent) → Follows wires events self.old
            → self.old.tick ≤ tick_at self.old.from event.nanos
            → IfSome result (λ rows. Follows wires (events ++ event ∷ []) self.new
            × (self.new.from ≡ self.old.from)
            × (self.new.tick ≡ tick_at self.old.from event.nanos)
            × (rows_in rows ≡ rows_until self.old.from wires events self.old.tick (tick_at self.old.from event.nanos))) }
        ensures taken { (from : ℕ) (wires : List Wire) (events : List InputEvent) → HasTaken from wires events self.old
            → last_tick from events ≤ tick_at from event.nanos
            → MatchOption result (TICKS < tick_at from event.nanos) (λ rows. HasTaken from wires (events ++ event ∷ []) self.new
            × (rows_before from wires (events ++ event ∷ []) ≡ rows_before from wires events ++ rows_in rows)) }
    {
        let (tick, early) = place(self.from, event.nanos)?;
        let rows = self.advance(tick);
        self.take(event, early, tick > 0);
        Some(rows)
    }

    /// Whether the last event lies in tick 1 or a later one: before `finish`.
    pub fn has_begun(&self) -> bool
        ensures { (from : ℕ) (wires : List Wire) (events : List InputEvent) → HasTaken from wires events self.now → result ≡ nat_lt 0 (last_tick from events) }
    {
        self.tick > 0
    }

    /// The rows that become known once no more events come: up to tick 6,000,000.
    pub fn finish(&mut self) -> KnownRows
        ensures given { (wires : List Wire) (events : List InputEvent) → Follows wires events self.old → self.old.tick ≤ TICKS
            → rows_in result ≡ rows_until self.old.from wires events self.old.tick (TICKS + 1) }
        ensures whole { (from : ℕ) (wires : List Wire) (events : List InputEvent) → HasTaken from wires events self.old
            → rows_before from wires events ++ rows_in result ≡ rows_of (row_in from wires events) }
    {
        self.advance(TICKS + 1)
    }
}

impl Street {
    /// Goes to a tick, before its first event, where that is a later one, and gives the rows of the ticks before it.
    fn advance(&mut self, to: u32) -> KnownRows
        requires { to ≤ TICKS + 1 }
        ensures from { self.new.from ≡ self.old.from }
        ensures tick { self.old.tick ≤ to → self.new.tick ≡ to }
        ensures rows { (wires : List Wire) (events : List InputEvent) → Follows wires events self.old → self.old.tick ≤ to
            → Follows wires events self.new × (rows_in result ≡ rows_until self.old.from wires events self.old.tick to) }
    {
        if to <= self.tick {
            return KnownRows {
                first: None,
                second: None,
            };
        }
        if self.tick == 0 {
            self.begin(1);
        }
        let first = self.settle_until(to, self.tick + 1);
        let second = self.settle_until(to, to);
        KnownRows { first, second }
    }

    /// Where this tick is before `to`, gives its row and goes to `next`: the tick after it, or any later one where no event
    /// fell into this tick.
    fn settle_until(&mut self, to: u32, next: u32) -> Option<LogRow>
        requires next { self.old.tick < to → self.old.tick < next }
        ensures from { self.new.from ≡ self.old.from }
        ensures tick { self.new.tick ≡ (if nat_lt self.old.tick to then next else self.old.tick) }
        ensures stays { to ≤ self.old.tick → (self.new ≡ self.old) × (result ≡ None) }
        ensures rows { (wires : List Wire) (events : List InputEvent) → Follows wires events self.old → self.old.tick < to → 1 ≤ self.old.tick
            → (next ≡ self.old.tick + 1) ⊎ AreBefore (begin_of self.old.from self.old.tick) events
            → Follows wires events self.new
            × (option_to_list result ≡ changes (row_in self.old.from wires events) (row_before (row_in self.old.from wires events) self.old.tick) self.old.tick (next - self.old.tick)) }
    {
        if self.tick >= to {
            return None;
        }
        let row = row_of(self.leads.as_slice());
        let change = change(self.tick, self.before, row);
        self.before = row;
        self.begin(next);
        change
    }

    /// Takes an event of this tick: `early` where it is not after the tick's first moment, `late` where it is not before it.
    fn take(&mut self, event: InputEvent, early: bool, late: bool)
        ensures leads { self.new.leads.items ≡ map (lead_taken event early late) self.old.leads.items }
        ensures rest { (self.new.from ≡ self.old.from) × (self.new.tick ≡ self.old.tick) × (self.new.before ≡ self.old.before) }
    {
        take_event(self.leads.as_mut_slice(), event, early, late);
    }

    /// Begins a later tick.
    fn begin(&mut self, tick: u32)
        ensures leads { self.new.leads.items ≡ map lead_opened self.old.leads.items }
        ensures tick { self.new.tick ≡ tick }
        ensures rest { (self.new.from ≡ self.old.from) × (self.new.before ≡ self.old.before) }
    {
        open_tick(self.leads.as_mut_slice());
        self.tick = tick;
    }
}

/// The row of a tick, where its inputs differ from those before.
fn change(tick: u32, before: Row, now: Row) -> Option<LogRow>
    ensures { option_to_list result ≡ change tick before now }
{
    if now == before {
        None
    } else {
        Some(LogRow { tick, row: now })
    }
}

/// The tick that a moment is in, or 0 before tick 1, and whether the moment is not after the first one of that tick.
/// `None` past tick 6,000,000.
fn place(from: u128, nanos: u128) -> Option<(u32, bool)>
    ensures past { IsNone result ↔ (TICKS < tick_at from nanos) }
    ensures tick { IfSome result (λ place. place.0 ≡ tick_at from nanos) }
    ensures within { IfSome result (λ place. place.0 ≤ TICKS) }
    ensures early { IfSome result (λ place. place.1 ≡ nat_le nanos (begin_of from place.0)) }
{
    if nanos < from {
        return Some((0, true));
    }
    let since = nanos - from;
    let tenths = since / TENTH;
    if tenths >= TICKS as u128 {
        return None;
    }
    Some((tenths as u32 + 1, since % TENTH == 0))
}
