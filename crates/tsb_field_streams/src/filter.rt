//! Lines of events, one after another, and the rows of the log that they make known.
ghost use Rattle.std.specs.Prelude.{◌≡◌, ◌<◌, ◌≤◌, ◌-◌, ◌++◌, [], false, nat_le, Some, None, Ok, length, option_map, replicate, IfErr, MatchResult, OnOk};
ghost use Rattle.tsb_event_text.specs.Faults.{fault_of};
ghost use Rattle.tsb_field_log.specs.Changes.{rows_of};
ghost use Rattle.tsb_field_log.specs.Streets.{rows_in};
ghost use Rattle.tsb_field_log.specs.Pushed.{rows_before};
ghost use Rattle.tsb_field_log.specs.Ticks.{row_in};
ghost use Rattle.tsb_field_log.specs.Taken.{HasTaken};
ghost use Rattle.tsb_field_streams.specs.Holding.{held_rows, most_rows};
ghost use Rattle.tsb_field_streams.specs.Filtering.{Given, Stand, how_many, may_be_plain, most_held, parameter_of, start, summary_at, text_by, text_of, time_place, with_count, with_counted, with_first, with_formed, with_header, with_in_order, with_line, with_noted, with_other_line, with_passed, with_row, with_row_line, with_text, with_wide, without_mark};
ghost use Rattle.tsb_log_text.specs.declared.read.TheConstants.{LIMIT};
ghost use Rattle.tsb_field_streams.specs.Blame.{IsOfText};
ghost use Rattle.tsb_field_streams.specs.declared.error.FilterError.TheVariants.{LogTooLarge};

mod channels;
mod devices;
mod events;
mod gaps;
mod late;
mod zones;

use crate::Held;
use crate::error::{Disorder, FilterError};
use crate::rows::text_size;
pub use channels::{Channel, Channels, append_channels};
use channels::{NO_CHANNELS, with_channel};
pub use devices::{Devices, MOST_NAMED, append_devices, are_several};
use devices::{NO_DEVICES, with_device};
pub use gaps::Gaps;
use gaps::{NO_GAPS, first_moment, gaps_before};
pub use late::MOST_HELD;
pub(crate) use late::most_held;
use tsb_event_text::{
    Column, Columns, EventRow, Moment, RowFault, TimeForm, WideRow, Zone, device_of, event_row,
    header, is_passed, is_preface, row_fault, wide_row,
};
use tsb_field_log::{KnownRows, Signal, Street, Wire, form_of_wires};
use tsb_lines::is_skipped;
use tsb_log_text::{LIMIT, RowForm};

/// The greatest length of a line, in bytes.
pub const LINE: usize = 1000;

/// How rows are read.
#[derive(Clone, Copy)]
pub struct RowOptions {
    /// The moment at which tick 1 begins.
    pub from: Moment,
    /// The form of times, or `None` where the first row says it.
    pub times: Option<TimeForm>,
    /// The zone of the clock by which moments are told, or `None` where each is what its own clock shows.
    pub zone: Option<Zone>,
    /// How many seconds a row may be behind the latest row above it, or `None` where each has to be in order.
    pub window: Option<u32>,
}

/// What a filter left out. A count stays at 4,294,967,295 once it has come to it.
#[derive(Clone, Copy, PartialEq, Eq)]
pub struct LeftOut {
    /// Rows of other devices.
    pub of_other_devices: u32,
    /// Events of inputs on channels from which no wire leads.
    pub without_input: u32,
    /// Lines that are no rows and are passed over: those before the header, those that a database draws below it, and
    /// headers behind it.
    pub passed: u32,
    /// Whether a header or a row was found.
    pub found: bool,
}

/// What a filter read. A count stays at 4,294,967,295 once it has come to it.
#[derive(Clone, Copy, PartialEq, Eq)]
pub struct Summary {
    pub left_out: LeftOut,
    /// The form of times: that which was asked for, or that of the first row. `None` where there was neither.
    pub times: Option<TimeForm>,
    /// Whether a row that counted said its zone, where none was asked for.
    pub zoned: bool,
    /// How many rows counted, whatever their codes.
    pub rows: u32,
    /// The moment of the first row that counted, in nanoseconds as a `Moment` counts them; 0 where none did.
    pub first: u128,
    /// The moment of the last row that counted, likewise.
    pub last: u128,
    /// In how many gaps no row counted.
    pub gaps: Gaps,
    /// The devices of rows; none where one was asked for.
    pub devices: Devices,
    /// The first channels that had an event and lead to no input.
    pub unwired: Channels,
    /// How many channels that lead to an input had an event, also before tick 1.
    pub channels: usize,
    /// Whether an input had an event from the moment on at which tick 1 begins.
    pub heard: bool,
}

/// What is known after some lines of events.
#[derive(Drop)]
pub struct Filter<'a> {
    reading: RowOptions,
    /// The device whose rows count, byte for byte, or all where it is `None`.
    device: Option<&'a [u8]>,
    /// The wires that the street was made with.
    wires: &'a [Wire],
    /// Where the columns are, known from the first line that is not skipped.
    columns: Option<Columns>,
    /// The form of times: that which is asked for, or else known from the first row.
    times: Option<TimeForm>,
    /// Whether a row that counts said its zone, where none is asked for.
    zoned: bool,
    /// How many rows counted.
    counted: u32,
    /// The moment of the first row that counted, in nanoseconds, and 0 before any.
    first: u128,
    /// The moment of the last row that counted, in nanoseconds, and 0 before any.
    last: u128,
    gaps: Gaps,
    /// The devices of rows; none where one is asked for.
    devices: Devices,
    /// The first channels that had an event and lead to no input.
    unwired: Channels,
    /// For each wire whether it is the first of its channel and had an event.
    used: Vec<bool>,
    /// The form of the log.
    form: RowForm,
    /// How many bytes of the log are known.
    bytes: usize,
    left_out: LeftOut,
    street: Street,
    /// Rows that count and wait until none can come before them any more. None where each has to be in order.
    held: Held,
    /// The moment of the latest row that was held, in nanoseconds, and 0 before any.
    latest: u128,
}

/// No row of a log.
const NO_ROWS: KnownRows = KnownRows {
    first: None,
    second: None,
};

impl<'a> Filter<'a> {
    ghost use Rattle.tsb_field_streams.specs.Standing.{IsRead, StandsAt, Takes, left_out_of};

    /// A filter before the first line, where the street has taken no event yet. Rows of `device` count, byte for byte, or
    /// all where it is `None`. `wires` are those that the street was made with, and `used` says of none of them that it had
    /// an event. `held` holds no row yet, and as many as are held in such a reading (`most_held`).
    pub fn new(
        reading: RowOptions,
        device: Option<&'a [u8]>,
        wires: &'a [Wire],
        used: Vec<bool>,
        street: Street,
        held: Held,
    ) -> Filter<'a>
        ensures { (g : Given) → IsRead g reading → g.device ≡ option_map (λ d. d.now) device.entry → g.wires ≡ wires.now → used.items ≡ replicate (length g.wires) false → HasTaken g.from g.wires [] street
            → held_rows held ≡ [] → most_rows held ≡ most_held g.window → StandsAt g (start g) result }
    {
        Filter {
            reading,
            device,
            wires,
            columns: None,
            times: reading.times,
            zoned: false,
            counted: 0,
            first: 0,
            last: 0,
            gaps: NO_GAPS,
            devices: NO_DEVICES,
            unwired: NO_CHANNELS,
            used,
            form: form_of_wires(wires),
            bytes: 0,
            left_out: LeftOut {
                of_other_devices: 0,
                without_input: 0,
                passed: 0,
                found: false,
            },
            street,
            held,
            latest: 0,
        }
    }

    /// Takes the line with this number, counted from 1, without its end, and gives the rows of the log that it makes known.
    ///
    /// The first line may begin with a byte order mark. A line that is blank or begins with `#` is skipped. Of the rest
    /// those are passed over that a maker writes before the header (`is_preface`); the next names the columns, or is a row
    /// with its columns in the usual places. Behind it each is a row, or one that is passed over (`is_passed`). The first
    /// row says in which form times are. Rows of other devices have only to be rows; each of the rest is no earlier than
    /// the one before it. Where there is a window, it may be so many seconds earlier than the latest one: it is then held,
    /// and the first row that is held is taken once no other may come before it. The errors are `LongLine`, `Malformed`,
    /// `TimeOrder`, `TooManyRows`, `PastEnd` and `LogTooLarge`; no line is taken after one.
    #[tactic(auto, unfolding(crate::specs::Filtering::with_line))]
    pub fn take_line(&mut self, number: u32, line: &[u8]) -> Result<KnownRows, FilterError>
        ensures takes { (g : Given) (s : Stand) → StandsAt g s self.old → Takes g s (with_line g number s line.now) result self.new }
        ensures own { IfErr result IsOfText }
    {
        if line.len() > LINE {
            return Err(FilterError::LongLine(number));
        }
        let text = text_of(number, line);
        if is_skipped(text) {
            return Ok(NO_ROWS);
        }
        self.take_text(number, text)
    }

    /// Takes a line that is not skipped.
    fn take_text(&mut self, number: u32, text: &[u8]) -> Result<KnownRows, FilterError>
        ensures takes { (g : Given) (s : Stand) → StandsAt g s self.old → Takes g s (with_text g number s text.now s.columns) result self.new }
        ensures own { IfErr result IsOfText }
    {
        if let Some(columns) = self.columns {
            return self.take_row_line(number, columns, text);
        }
        match header(text) {
            Some(columns) => self.take_header(number, columns),
            None => self.take_first(number, text),
        }
    }

    /// Takes a header, which has a column of the device where one is asked for.
    fn take_header(&mut self, number: u32, columns: Columns) -> Result<KnownRows, FilterError>
        ensures takes { (g : Given) (s : Stand) → StandsAt g s self.old → Takes g s (with_header g number s columns) result self.new }
        ensures own { IfErr result IsOfText }
    {
        if self.device.is_some() && columns.device.is_none() {
            return Err(FilterError::Malformed(number, RowFault::Lacks(Column::Device)));
        }
        self.know(columns);
        Ok(NO_ROWS)
    }

    /// Where the columns are is known from now on.
    fn know(&mut self, columns: Columns)
        ensures stands { (g : Given) (s : Stand) → StandsAt g s self.old → StandsAt g (record s { columns = Some columns }) self.new }
    {
        self.columns = Some(columns);
        self.left_out.found = true;
    }

    /// Takes a line that is no header where none came: one that a maker writes before the header, or the first row.
    fn take_first(&mut self, number: u32, text: &[u8]) -> Result<KnownRows, FilterError>
        ensures takes { (g : Given) (s : Stand) → StandsAt g s self.old → Takes g s (with_first g number s text.now None) result self.new }
        ensures own { IfErr result IsOfText }
    {
        if is_preface(text) {
            return Ok(self.pass());
        }
        let usual = Columns::usual_of(text);
        self.take_first_row(number, usual, text)
    }

    /// Takes the first row, where no header came, with its columns in these places.
    fn take_first_row(
        &mut self,
        number: u32,
        columns: Columns,
        text: &[u8],
    ) -> Result<KnownRows, FilterError>
        ensures takes { (g : Given) (s : Stand) → StandsAt g s self.old → Takes g s (with_row_line g number (record s { columns = Some columns }) columns text.now) result self.new }
        ensures own { IfErr result IsOfText }
    {
        self.know(columns);
        self.take_row_line(number, columns, text)
    }

    /// Passes over a line.
    fn pass(&mut self) -> KnownRows
        ensures takes { (g : Given) (s : Stand) → StandsAt g s self.old → Takes g s (with_passed s) (Ok result) self.new }
    {
        self.left_out.passed = self.left_out.passed.saturating_add(1);
        NO_ROWS
    }

    /// Takes a line behind the header, or the first one, with its columns in these places. Nearly all lines of most
    /// exports are plain rows, which are read without taking a field apart twice.
    fn take_row_line(
        &mut self,
        number: u32,
        columns: Columns,
        text: &[u8],
    ) -> Result<KnownRows, FilterError>
        ensures takes { (g : Given) (s : Stand) → StandsAt g s self.old → Takes g s (with_row_line g number s columns text.now) result self.new }
        ensures own { IfErr result IsOfText }
    {
        if !may_be_plain(self.times) {
            return self.take_other_line(number, columns, text);
        }
        match event_row(text, columns, self.device) {
            Some(row) => {
                self.note_device(columns, text);
                self.take_formed(number, TimeForm::YearFirst, row)
            }
            None => self.take_other_line(number, columns, text),
        }
    }

    /// Knows the device of a row, where none is asked for.
    fn note_device(&mut self, columns: Columns, text: &[u8])
        ensures stands { (g : Given) (s : Stand) → StandsAt g s self.old → StandsAt g (with_noted g s columns text.now) self.new }
    {
        if self.device.is_none() {
            self.devices = with_device(self.devices, device_of(text, columns));
        }
    }

    /// Takes a line that is no plain row: one that is passed over, or a row as exports have it.
    fn take_other_line(
        &mut self,
        number: u32,
        columns: Columns,
        text: &[u8],
    ) -> Result<KnownRows, FilterError>
        ensures takes { (g : Given) (s : Stand) → StandsAt g s self.old → Takes g s (with_other_line g number s columns text.now) result self.new }
        ensures own { IfErr result IsOfText }
    {
        if is_passed(text) {
            return Ok(self.pass());
        }
        let times = self.times;
        match wide_row(text, columns, times, self.reading.zone, self.device) {
            Some(row) => {
                self.note_device(columns, text);
                self.note_zone(columns, text, row);
                self.take_wide(number, columns, text, row)
            }
            None => Err(FilterError::Malformed(number, row_fault(text, columns, times))),
        }
    }

    /// Takes a row as exports have it, which this line spells with its columns in these places. Its fault is found where
    /// it needs a parameter and has none.
    fn take_wide(
        &mut self,
        number: u32,
        columns: Columns,
        text: &[u8],
        row: WideRow,
    ) -> Result<KnownRows, FilterError>
        ensures takes { (g : Given) (s : Stand) → StandsAt g s self.old → Takes g s (with_wide g number s (fault_of columns s.times text.now) (Some row)) result self.new }
        ensures own { IfErr result IsOfText }
    {
        let Some(parameter) = parameter_of(row) else {
            let why = row_fault(text, columns, self.times);
            return Err(FilterError::Malformed(number, why));
        };
        self.take_formed(
            number,
            row.form,
            EventRow {
                ours: row.ours,
                moment: row.moment,
                code: row.code,
                parameter,
            },
        )
    }

    /// Takes a row whose time has this form.
    #[tactic(auto, using(crate::proofs::FilterLemmas::stands_formed))]
    fn take_formed(
        &mut self,
        number: u32,
        form: TimeForm,
        row: EventRow,
    ) -> Result<KnownRows, FilterError>
        ensures takes { (g : Given) (s : Stand) → StandsAt g s self.old → Takes g s (with_formed g number s form row) result self.new }
        ensures own { IfErr result IsOfText }
    {
        self.times = Some(form);
        self.take_row(number, row)
    }

    /// Takes a row.
    fn take_row(&mut self, number: u32, row: EventRow) -> Result<KnownRows, FilterError>
        ensures takes { (g : Given) (s : Stand) → StandsAt g s self.old → Takes g s (with_row g number s row) result self.new }
        ensures own { IfErr result IsOfText }
    {
        if !row.ours {
            self.left_out.of_other_devices = self.left_out.of_other_devices.saturating_add(1);
            return Ok(NO_ROWS);
        }
        self.take_counted(number, row)
    }

    /// Takes a row that counts, in order or sorted.
    fn take_counted(&mut self, number: u32, row: EventRow) -> Result<KnownRows, FilterError>
        ensures takes { (g : Given) (s : Stand) → StandsAt g s self.old → Takes g s (with_counted g number s row g.window) result self.new }
        ensures own { IfErr result IsOfText }
    {
        match self.reading.window {
            None => self.take_in_order(number, row),
            Some(seconds) => self.take_late(number, row, seconds),
        }
    }

    /// Takes a row that counts, and has to be no earlier than the one taken before it.
    fn take_in_order(&mut self, number: u32, row: EventRow) -> Result<KnownRows, FilterError>
        ensures takes { (g : Given) (s : Stand) → StandsAt g s self.old → Takes g s (with_in_order g number s row) result self.new }
        ensures own { IfErr result IsOfText }
    {
        if row.moment.nanos < self.last {
            return Err(FilterError::TimeOrder(Disorder {
                line: number,
                moment: row.moment.nanos,
                last: self.last,
                column: time_place(self.columns),
                within: None,
            }));
        }
        self.count(row.moment.nanos);
        match Signal::of_code(row.code) {
            None => Ok(NO_ROWS),
            Some(signal) => self.take_signal(row, signal),
        }
    }

    /// Counts a row of this moment, which is no earlier than the last.
    fn count(&mut self, moment: u128)
        ensures stands { (g : Given) (s : Stand) → StandsAt g s self.old → s.last ≤ moment → StandsAt g (with_count s moment) self.new }
    {
        self.gaps = gaps_before(self.counted, self.gaps, self.last, moment);
        self.first = first_moment(self.counted, self.first, moment);
        self.counted = self.counted.saturating_add(1);
        self.last = moment;
    }

    /// The rows that become known at the end of all lines. What was left out stays. The error is `LogTooLarge`.
    pub fn finish(&mut self) -> Result<KnownRows, FilterError>
        ensures whole { (g : Given) (s : Stand) → StandsAt g s self.old → MatchResult result
            (λ rows. rows_before g.from g.wires s.events ++ rows_in rows ≡ rows_of (row_in g.from g.wires s.events))
            (λ e. (e ≡ LogTooLarge) × (LIMIT < length (text_by g (rows_of (row_in g.from g.wires s.events))))) }
        ensures fits { (g : Given) (s : Stand) → StandsAt g s self.old → OnOk result (length (text_by g (rows_of (row_in g.from g.wires s.events))) ≤ LIMIT) }
        ensures counts { left_out_of self.new ≡ left_out_of self.old }
        ensures own { IfErr result IsOfText }
    {
        let rows = self.street.finish();
        let size = text_size(self.form, rows);
        if !self.has_room(size) {
            return Err(FilterError::LogTooLarge);
        }
        Ok(rows)
    }

    /// Whether a log may have so many bytes more.
    fn has_room(&self, size: usize) -> bool
        ensures { result ≡ nat_le size (LIMIT - self.now.bytes) }
    {
        size <= LIMIT.saturating_sub(self.bytes)
    }

    /// The form of the log.
    pub(crate) fn form(&self) -> RowForm
        ensures { result ≡ self.now.form }
    {
        self.form
    }

    /// What was read so far, before `finish`.
    pub fn summary(&self) -> Summary
        ensures stands { (g : Given) (s : Stand) → StandsAt g s self.now → result ≡ summary_at g s }
    {
        Summary {
            left_out: self.left_out,
            times: self.times,
            zoned: self.zoned,
            rows: self.counted,
            first: self.first,
            last: self.last,
            gaps: self.gaps,
            devices: self.devices,
            unwired: self.unwired,
            channels: how_many(self.used.as_slice()),
            heard: self.street.has_begun(),
        }
    }
}

/// How many of these are true.
fn how_many(flags: &[bool]) -> usize
    ensures { result ≡ how_many flags.now }
{
    flags.iter().filter(|flag| **flag).count()
}

/// The place of the column that has the times.
fn time_place(columns: Option<Columns>) -> usize
    ensures { result ≡ time_place columns }
{
    match columns {
        Some(columns) => columns.time,
        None => 0,
    }
}

/// Whether lines may be plain rows: times have their form, or no form is known yet.
fn may_be_plain(times: Option<TimeForm>) -> bool
    ensures { result ≡ may_be_plain times }
{
    match times {
        None => true,
        Some(TimeForm::YearFirst) => true,
        Some(_) => false,
    }
}

/// The parameter of a row: 0 where it is no number and its code is passed over. `None` where it is no number and counts.
fn parameter_of(row: WideRow) -> Option<u32>
    ensures { result ≡ parameter_of row }
{
    if let Some(parameter) = row.parameter {
        return Some(parameter);
    }
    if row.ours && Signal::of_code(row.code).is_some() {
        return None;
    }
    Some(0)
}

/// The text of the line with this number: the first may begin with a byte order mark.
fn text_of(number: u32, line: &[u8]) -> &[u8]
    ensures { result.now ≡ text_of number line.now }
{
    if number == 1 {
        without_mark(line)
    } else {
        line
    }
}

/// The line without a byte order mark.
fn without_mark(line: &[u8]) -> &[u8]
    ensures { result.now ≡ without_mark line.now }
{
    match line {
        [0xef, 0xbb, 0xbf, text @ ..] => text,
        _ => line,
    }
}
