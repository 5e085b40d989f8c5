//! Lines of events as a stream of bytes, and the log that they make known.
ghost use Rattle.std.specs.Prelude.{◌≡◌, ◌∷◌, [], ◌++◌, false, ℕ, IfOk, List, OnOk, Option, length, option_map, replicate, true};
ghost use Rattle.tsb_lines.specs.Lines.{HasNoFeed};
ghost use Rattle.tsb_field_log.specs.Mapping.{wires_of};
ghost use Rattle.tsb_field_streams.specs.Blame.{Blames, BlamesWriter, HasMemory, OnMemory};
ghost use Rattle.tsb_field_streams.specs.Filtering.{Given, Stand};
ghost use Rattle.tsb_field_log.specs.Taken.{HasTaken};
ghost use Rattle.tsb_field_streams.specs.Standing.{StandsAtStart, given_of};
ghost use Rattle.tsb_field_streams.specs.Streaming.{Ended, EndedBehind, Finished, Follows, Gave, Known, TookLast, Went};

use crate::Held;
use crate::error::FilterError;
use crate::filter::{Filter, LINE, RowOptions, Summary, most_held};
use crate::rows::{write_last_rows, write_rows};
use std::alloc::{AllocError, Global};
use std::io::{Read, Write};
use tsb_field_log::{Street, Wire, wires};
use tsb_lines::{KeptLine, Watched, cut_at_feed};

/// The most events of a stream, in bytes: 1 GiB.
pub const EVENTS: usize = 1_073_741_824;

/// How many bytes of a line are kept: one more than its greatest length, and the carriage return after it.
const KEPT: usize = LINE + 2;

/// How many bytes one read asks for.
const CHUNK: usize = 4096;

/// A stream between two bytes: what is known after its whole lines, and the first bytes of the line that is not whole.
#[derive(Drop)]
struct Stream<'a> {
    filter: Filter<'a>,
    /// The number of the line that is not whole, counted from 1; it stays at 4,294,967,295 once it has come to it.
    number: u32,
    line: KeptLine<KEPT>,
}

impl Stream<'_> {
    /// Takes the line feed that ends a line.
    fn end_line<W: Write>(&mut self, writer: &mut Watched<W>) -> Result<(), FilterError>
        ensures went { (g : Given) (bytes : List ℕ) (begun : Option (List ℕ)) → Follows g bytes self.old begun (W.contents writer.old.device)
            → Went result g (bytes ++ 10 ∷ []) self.new begun (W.contents writer.new.device) }
        ensures blame { writer.old.failed ≡ false → BlamesWriter result writer.new.failed }
        ensures memory { HasMemory result }
    {
        let rows = match self.filter.take_line(self.number, self.line.ended()) {
            Ok(rows) => rows,
            Err(fault) => return Err(fault),
        };
        self.line.clear();
        self.number = self.number.saturating_add(1);
        write_rows(writer, self.filter.form(), rows)
    }

    /// Takes the rest of a line, up to its line feed.
    fn feed_line<W: Write>(
        &mut self,
        rest: &[u8],
        writer: &mut Watched<W>,
    ) -> Result<(), FilterError>
        requires one { HasNoFeed rest.now }
        ensures went { (g : Given) (bytes : List ℕ) (begun : Option (List ℕ)) → Follows g bytes self.old begun (W.contents writer.old.device)
            → Went result g (bytes ++ (rest.now ++ 10 ∷ [])) self.new begun (W.contents writer.new.device) }
        ensures blame { writer.old.failed ≡ false → BlamesWriter result writer.new.failed }
        ensures memory { HasMemory result }
    {
        self.line.extend(rest);
        self.end_line(writer)
    }

    /// Takes these bytes.
    fn feed_all<W: Write>(
        &mut self,
        bytes: &[u8],
        writer: &mut Watched<W>,
    ) -> Result<(), FilterError>
        ensures went { (g : Given) (before : List ℕ) (begun : Option (List ℕ)) → Follows g before self.old begun (W.contents writer.old.device)
            → Went result g (before ++ bytes.now) self.new begun (W.contents writer.new.device) }
        ensures blame { writer.old.failed ≡ false → BlamesWriter result writer.new.failed }
        ensures memory { HasMemory result }
    {
        let mut left = bytes;
        while let Some((rest, next)) = cut_at_feed(left) {
            match self.feed_line(rest, writer) {
                Ok(()) => left = next,
                Err(fault) => return Err(fault),
            }
        }
        self.line.extend(left);
        Ok(())
    }

    /// Takes what follows the last line feed as the last line, and writes the rest of the log.
    fn finish<W: Write>(&mut self, writer: &mut Watched<W>) -> Result<Summary, FilterError>
        ensures finished { (g : Given) (bytes : List ℕ) (begun : Option (List ℕ)) → Follows g bytes self.old begun (W.contents writer.old.device)
            → Finished result g bytes begun (W.contents writer.new.device) }
        ensures flushed { OnOk result (writer.new.flushed ≡ true) }
        ensures blame { writer.old.failed ≡ false → BlamesWriter result writer.new.failed }
        ensures memory { HasMemory result }
    {
        match self.take_last(writer) {
            Ok(()) => {}
            Err(fault) => return Err(fault),
        }
        match self.take_held(writer) {
            Ok(()) => self.end_log(writer),
            Err(fault) => Err(fault),
        }
    }

    /// Takes what follows the last line feed as the last line, and writes what becomes known of the log by it.
    fn take_last<W: Write>(&mut self, writer: &mut Watched<W>) -> Result<(), FilterError>
        ensures took { (g : Given) (bytes : List ℕ) (begun : Option (List ℕ)) → Follows g bytes self.old begun (W.contents writer.old.device)
            → TookLast result g bytes self.new.filter begun (W.contents writer.new.device) }
        ensures blame { writer.old.failed ≡ false → BlamesWriter result writer.new.failed }
        ensures memory { HasMemory result }
    {
        match self.filter.take_line(self.number, self.line.last()) {
            Ok(rows) => write_rows(writer, self.filter.form(), rows),
            Err(fault) => Err(fault),
        }
    }

    /// Writes the rest of the log, where all rows are taken, and has the writer pass all on.
    fn end_log<W: Write>(&mut self, writer: &mut Watched<W>) -> Result<Summary, FilterError>
        ensures finished { (g : Given) (bytes : List ℕ) (begun : Option (List ℕ)) (before : Stand) → Known g bytes before (length before.held) self.old.filter begun (W.contents writer.old.device)
            → Finished result g bytes begun (W.contents writer.new.device) }
        ensures flushed { OnOk result (writer.new.flushed ≡ true) }
        ensures blame { writer.old.failed ≡ false → BlamesWriter result writer.new.failed }
        ensures memory { HasMemory result }
    {
        let summary = self.filter.summary();
        let form = self.filter.form();
        let rest = match self.filter.finish() {
            Ok(rest) => rest,
            Err(fault) => return Err(fault),
        };
        match write_last_rows(writer, form, rest) {
            Ok(()) => Ok(summary),
            Err(fault) => Err(fault),
        }
    }

    /// Takes the rows that are held, where no line follows, and writes what becomes known of the log.
    fn take_held<W: Write>(&mut self, writer: &mut Watched<W>) -> Result<(), FilterError>
        ensures gave { (g : Given) (bytes : List ℕ) (begun : Option (List ℕ)) (before : Stand) → Known g bytes before 0 self.old.filter begun (W.contents writer.old.device)
            → Gave result g bytes before self.new.filter begun (W.contents writer.new.device) }
        ensures blame { writer.old.failed ≡ false → BlamesWriter result writer.new.failed }
        ensures memory { HasMemory result }
    {
        let count = self.filter.held_count();
        for _ in 0..count {
            let rows = match self.filter.take_next() {
                Ok(rows) => rows,
                Err(fault) => return Err(fault),
            };
            match write_rows(writer, self.filter.form(), rows) {
                Ok(()) => {}
                Err(fault) => return Err(fault),
            }
        }
        Ok(())
    }

    /// Reads events up to their end, and writes their log.
    fn run<R: Read, W: Write>(
        &mut self,
        reader: &mut Watched<R>,
        writer: &mut Watched<W>,
    ) -> Result<Summary, FilterError>
        ensures ended { (g : Given) → Follows g [] self.old (W.contents writer.old.device) (W.contents writer.old.device)
            → EndedBehind result g (R.remaining reader.old.device) (R.remaining reader.new.device) (W.contents writer.old.device) (W.contents writer.new.device) }
        ensures flushed { OnOk result (writer.new.flushed ≡ true) }
        ensures blame { reader.old.failed ≡ false → writer.old.failed ≡ false → Blames result reader.new.failed writer.new.failed }
        ensures memory { HasMemory result }
    {
        let mut chunk = [0; CHUNK];
        let mut left = EVENTS;
        loop {
            let most = left.min(CHUNK).max(1);
            let room = &mut chunk[..most];
            let count = match reader.read_once(room) {
                Ok(count) => count,
                Err(_) => return Err(FilterError::Read),
            };
            if count == 0 {
                return self.finish(writer);
            }
            if left < count {
                return Err(FilterError::TooLarge);
            }
            left -= count;
            match self.feed_all(&room[..count], writer) {
                Ok(()) => {}
                Err(fault) => return Err(fault),
            }
        }
    }
}

/// Reads a controller's event log and writes the log of inputs that it gives. Rows of `device` count, byte for byte, or all
/// where it is `None`. `mapped` are the wires that are asked for; from each channel without one a wire leads to the input
/// of its own number, where there is one. It gives what was read.
///
/// Where there is a window, rows are sorted by time: one may be so many seconds behind the latest row above it. No more is
/// held than a line of events, the rows of two ticks and these rows of events, so the caller has to buffer what is
/// written. A fault ends it; what was written until then is a prefix of the log of the events read. `Memory` comes before
/// anything is read or written.
pub fn log<R: Read, W: Write>(
    alloc: Global,
    reading: RowOptions,
    device: Option<&[u8]>,
    mapped: &[Wire],
    reader: &mut Watched<R>,
    writer: &mut Watched<W>,
) -> Result<Summary, FilterError>
    ensures ended { Ended result (given_of reading (option_map (λ d. d.now) device.entry) (wires_of mapped.now))
        (R.remaining reader.old.device) (R.remaining reader.new.device) (W.contents writer.old.device) (W.contents writer.new.device) }
    ensures flushed { OnOk result (writer.new.flushed ≡ true) }
    ensures blame { reader.old.failed ≡ false → writer.old.failed ≡ false → Blames result reader.new.failed writer.new.failed }
    ensures memory { OnMemory result reader.old reader.new writer.old writer.new }
{
    let Ok(all) = wires(alloc, mapped) else {
        return Err(FilterError::Memory);
    };
    match filter_of(alloc, reading, device, &all) {
        Ok(filter) => run_over(filter, reader, writer),
        Err(_) => Err(FilterError::Memory),
    }
}

/// A filter of these wires, before the first line. The error is that memory ran out.
fn filter_of<'a>(
    alloc: Global,
    reading: RowOptions,
    device: Option<&'a [u8]>,
    wires: &'a [Wire],
) -> Result<Filter<'a>, AllocError>
    ensures { IfOk result (λ filter. StandsAtStart (given_of reading (option_map (λ d. d.now) device.entry) wires.now) filter) }
{
    let used = none_used(alloc, wires)?;
    match Street::new(alloc, reading.from.nanos, wires) {
        Ok(street) => filter_with(alloc, reading, device, wires, used, street),
        Err(fault) => {
            drop(used);
            Err(fault)
        }
    }
}

/// A filter of these wires with a street of theirs, before the first line. The error is that memory ran out.
fn filter_with<'a>(
    alloc: Global,
    reading: RowOptions,
    device: Option<&'a [u8]>,
    wires: &'a [Wire],
    used: Vec<bool>,
    street: Street,
) -> Result<Filter<'a>, AllocError>
    requires none { used.items ≡ replicate (length wires.now) false }
    requires taken { HasTaken reading.from.nanos wires.now [] street }
    ensures { IfOk result (λ filter. StandsAtStart (given_of reading (option_map (λ d. d.now) device.entry) wires.now) filter) }
{
    match Held::new(alloc, most_held(reading.window)) {
        Ok(held) => Ok(Filter::new(reading, device, wires, used, street, held)),
        Err(fault) => {
            drop(used);
            drop(street);
            Err(fault)
        }
    }
}

/// Reads events up to their end, and writes their log, by a filter before the first line.
fn run_over<R: Read, W: Write>(
    filter: Filter<'_>,
    reader: &mut Watched<R>,
    writer: &mut Watched<W>,
) -> Result<Summary, FilterError>
    ensures ended { (g : Given) → StandsAtStart g filter.entry
        → EndedBehind result g (R.remaining reader.old.device) (R.remaining reader.new.device) (W.contents writer.old.device) (W.contents writer.new.device) }
    ensures flushed { OnOk result (writer.new.flushed ≡ true) }
    ensures blame { reader.old.failed ≡ false → writer.old.failed ≡ false → Blames result reader.new.failed writer.new.failed }
    ensures memory { HasMemory result }
{
    let mut stream = Stream {
        filter,
        number: 1,
        line: KeptLine::new(),
    };
    stream.run(reader, writer)
}

/// Says of each of these wires that it had no event. The error is that memory ran out.
fn none_used(alloc: Global, wires: &[Wire]) -> Result<Vec<bool>, AllocError>
    ensures { IfOk result (λ used. used.items ≡ replicate (length wires.now) false) }
{
    let mut used = Vec::new(alloc);
    used.resize(wires.len(), false)?;
    Ok(used)
}
