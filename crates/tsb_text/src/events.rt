//! The lines of events.
ghost use Rattle.std.specs.Prelude.{◌≡◌, ◌≤◌, false, length};
ghost use Rattle.tsb_dialog.specs.Blame.{AfterCalls};
ghost use Rattle.tsb_dialog.specs.Said.{SaidUntilFault};
ghost use Rattle.tsb_text.specs.Obeys.{event_line, events_text};

use std::io::Write;
use tsb_dialog::{Pending, Watched, WriteError};
use tsb_lines::{ShortLine, seven_digits};
use tsb_types::Event;

/// The greatest length of the line of an event, without its line feed, in bytes.
const LINE: usize = 63;

/// Says the lines of events. It is a function of its own because few sessions have them told.
#[inline(never)]
pub(crate) fn say_events<W: Write>(
    events: &[Event],
    pending: &mut Pending,
    writer: &mut Watched<W>,
) -> Result<(), WriteError>
    ensures said { SaidUntilFault result (W.contents writer.old.device) (W.contents writer.new.device) pending.old pending.new (events_text events.now) }
    ensures blame { writer.old.failed ≡ false → AfterCalls result writer.new.failed }
{
    for event in events {
        pending.say(writer, event_line(event).as_bytes())?;
    }
    Ok(())
}

/// The line of an event, without its line feed: its tick in seven digits, its code and its parameter.
fn event_line(event: &Event) -> ShortLine<LINE>
    ensures { result ≡ event_line event.now }
{
    let mut line = ShortLine::new();
    line.push(b"event ");
    line.push(&seven_digits(event.tick));
    line.push(b" ");
    line.push_number(u32::from(event.code));
    line.push(b" ");
    line.push_number(u32::from(event.parameter));
    line
}
