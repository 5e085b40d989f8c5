//! What is kept of each wire from event to event.
ghost use Rattle.std.specs.Prelude.{◌≡◌, ◌||◌, ◌&&◌, ℕ, false, map};
ghost use Rattle.tsb_field_log.specs.Inputs.{is_of};
ghost use Rattle.tsb_field_log.specs.Leads.{lead_opened, lead_taken, row_of_leads};
ghost use Rattle.tsb_field_log.specs.Wires.{has_input, is_input, leads_to};
ghost use Rattle.tsb_field_log.specs.declared.inputs.InputKind.{InputKind};

use crate::inputs::{InputEvent, InputKind, Wire};
use tsb_types::Row;

/// A wire, and what is known of it in the present tick.
#[derive(Clone, Copy)]
pub(crate) struct Lead {
    wire: Wire,
    /// Whether it is on now.
    on: bool,
    /// Whether it was on as the tick began.
    begun: bool,
    /// Whether it was switched on in the tick.
    raised: bool,
}

impl Lead {
    /// A wire before all events: it is off.
    pub(crate) fn off(wire: Wire) -> Lead
        ensures { result ≡ record { wire = wire; on = false; begun = false; raised = false } }
    {
        Lead {
            wire,
            on: false,
            begun: false,
            raised: false,
        }
    }

    /// After one more event, which is not after the tick: `early` where it is not after the tick's first moment, `late`
    /// where it is not before it.
    fn taken(self, event: InputEvent, early: bool, late: bool) -> Lead
        ensures { result ≡ lead_taken event early late self }
    {
        if !is_of(self.wire, event) {
            return self;
        }
        Lead {
            wire: self.wire,
            on: event.on,
            begun: if early { event.on } else { self.begun },
            raised: self.raised || event.on && late,
        }
    }

    /// Whether it is on in the tick.
    fn is_on(self) -> bool
        ensures { result ≡ (self.begun || self.raised) }
    {
        self.begun || self.raised
    }

    /// As a later tick begins.
    fn opened(self) -> Lead
        ensures { result ≡ lead_opened self }
    {
        Lead {
            wire: self.wire,
            on: self.on,
            begun: self.on,
            raised: false,
        }
    }
}

/// Whether the event is of this wire.
fn is_of(wire: Wire, event: InputEvent) -> bool
    ensures { result ≡ is_of wire event }
{
    wire.kind == event.kind && wire.channel == event.channel
}

/// Takes one more event, which is not after the tick: `early` where it is not after the tick's first moment, `late`
/// where it is not before it.
pub(crate) fn take_event(leads: &mut [Lead], event: InputEvent, early: bool, late: bool)
    ensures { leads.new ≡ map (lead_taken event early late) leads.old }
{
    for i in 0..leads.len() {
        leads[i] = leads[i].taken(event, early, late);
    }
}

/// Begins a later tick.
pub(crate) fn open_tick(leads: &mut [Lead])
    ensures { leads.new ≡ map lead_opened leads.old }
{
    for i in 0..leads.len() {
        leads[i] = leads[i].opened();
    }
}

/// The inputs that are on in the tick.
pub(crate) fn row_of(leads: &[Lead]) -> Row
    ensures { result ≡ row_of_leads leads.now }
{
    let mut row = Row::all_off();
    for lead in leads {
        if lead.is_on() {
            row = with_input(row, lead.wire);
        }
    }
    row
}

/// The row with the input of a wire switched on, where a bench has that input.
fn with_input(row: Row, wire: Wire) -> Row
    ensures { (kind : InputKind) (number : ℕ) → has_input result kind number
        ≡ (has_input row kind number || leads_to wire kind number && is_input kind number) }
{
    if wire.input < 1 || wire.input > wire.kind.most() {
        return row;
    }
    match wire.kind {
        InputKind::Vehicle => Row {
            vehicles: row.vehicles.with(wire.input, true),
            ..row
        },
        InputKind::Pedestrian => Row {
            pedestrians: row.pedestrians.with(wire.input, true),
            ..row
        },
        InputKind::Preempt => Row {
            preempts: row.preempts.with(wire.input, true),
            ..row
        },
    }
}
