//! Rows that say something of an input: the wire that leads from their channel, and the log's rows that they make known.
ghost use Rattle.std.specs.Prelude.{◌≡◌, IfErr};
ghost use Rattle.tsb_field_log.specs.Mapping.{leads_from};
ghost use Rattle.tsb_field_streams.specs.Blame.{IsOfText};
ghost use Rattle.tsb_field_streams.specs.Filtering.{Given, Stand, wire_place, with_event, with_signal, with_unwired, with_used};

use super::{Channel, Filter, NO_ROWS, with_channel};
use crate::error::FilterError;
use crate::rows::text_size;
use tsb_event_text::EventRow;
use tsb_field_log::{InputEvent, InputKind, KnownRows, Signal, Wire};

impl Filter<'_> {
    ghost use Rattle.tsb_field_streams.specs.Standing.{StandsAt, Takes};

    /// Takes what a row says of an input.
    pub(super) fn take_signal(
        &mut self,
        row: EventRow,
        signal: Signal,
    ) -> Result<KnownRows, FilterError>
        ensures takes { (g : Given) (s : Stand) → StandsAt g s self.old → s.last ≡ row.moment.nanos
            → Takes g s (with_signal g s row (Some signal)) result self.new }
        ensures own { IfErr result IsOfText }
    {
        let event = InputEvent {
            nanos: row.moment.nanos,
            kind: signal.kind,
            channel: row.parameter,
            on: signal.on,
        };
        match wire_place(self.wires, signal.kind, row.parameter) {
            Some(place) => self.take_wired(place, event),
            None => {
                self.count_unwired(Channel {
                    kind: signal.kind,
                    number: row.parameter,
                });
                Ok(NO_ROWS)
            }
        }
    }

    /// Counts an event of a channel from which no wire leads.
    fn count_unwired(&mut self, channel: Channel)
        ensures stands { (g : Given) (s : Stand) → StandsAt g s self.old → StandsAt g (with_unwired s channel) self.new }
    {
        self.left_out.without_input = self.left_out.without_input.saturating_add(1);
        self.unwired = with_channel(self.unwired, channel);
    }

    /// Takes an event on the channel of the wire at this place; it is of the last moment.
    fn take_wired(&mut self, place: usize, event: InputEvent) -> Result<KnownRows, FilterError>
        ensures takes { (g : Given) (s : Stand) → StandsAt g s self.old → s.last ≡ event.nanos
            → Takes g s (with_event g (with_used s place) event) result self.new }
        ensures own { IfErr result IsOfText }
    {
        self.use_wire(place);
        self.take_event(event)
    }

    /// The channel of the wire at this place had an event.
    fn use_wire(&mut self, place: usize)
        ensures stands { (g : Given) (s : Stand) → StandsAt g s self.old → StandsAt g (with_used s place) self.new }
    {
        if place >= self.used.len() {
            return;
        }
        self.used[place] = true;
    }

    /// Takes an event of an input, which is of the last moment.
    fn take_event(&mut self, event: InputEvent) -> Result<KnownRows, FilterError>
        ensures takes { (g : Given) (s : Stand) → StandsAt g s self.old → s.last ≡ event.nanos → Takes g s (with_event g s event) result self.new }
        ensures own { IfErr result IsOfText }
    {
        let Some(rows) = self.street.push(event) else {
            return Err(FilterError::PastEnd);
        };
        let size = text_size(self.form, rows);
        if !self.has_room(size) {
            return Err(FilterError::LogTooLarge);
        }
        self.bytes += size;
        Ok(rows)
    }
}

/// The place of the first wire of this kind and from this channel.
fn wire_place(wires: &[Wire], kind: InputKind, channel: u32) -> Option<usize>
    ensures { result ≡ wire_place wires.now kind channel }
{
    wires
        .iter()
        .position(|wire| leads_from(*wire, kind, channel))
}

/// Whether the wire is of this kind, and from this channel.
fn leads_from(wire: Wire, kind: InputKind, channel: u32) -> bool
    ensures { result ≡ leads_from kind channel wire }
{
    wire.kind == kind && wire.channel == channel
}
