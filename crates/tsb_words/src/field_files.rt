//! The words of `tsb_field`, and what they ask for.
ghost use Rattle.std.specs.Prelude.{◌≡◌, Err, map, option_map};
ghost use Rattle.clap.specs.Words.{found_of, rows_of};
ghost use Rattle.clap.specs.Simple.{subcommand_rows_of};
ghost use Rattle.tsb_words.specs.declared.error.WordsError.TheVariants.{Memory};
ghost use Rattle.tsb_words.specs.FieldProgram.{HasWires, NeedsMemory, Spells, asked_by, card_in, card_with, diagram_in, diagram_with, events_in, events_with, is_set, is_timed, log_in, manner_in, manner_with, other_in, record_in, record_manner_in, record_with, review_in, review_with, schedule_in, schedule_with, wires_in, worksheet_in, worksheet_with};
ghost use Rattle.tsb_words.specs.FieldWords.{seen};
ghost use Rattle.tsb_words.specs.Wires.{AreSpelled};
ghost use Rattle.tsb_words.specs.Words.{SpelledBy};

mod commands;
mod options;
mod wires;

use crate::error::WordsError;
use crate::matches::matches_of;
use clap::ArgMatches;
use commands::PROGRAM;
pub use options::{MOST_SECONDS, MOST_WINDOW, USUAL_WINDOW};
pub(crate) use options::{midnight_of, seconds, window};
use options::{form_said, from_said, moment, seconds_said, window_said, zone_said};
use std::alloc::Global;
use std::convert::AsStr;
use tsb_event_text::{Moment, TimeForm, Zone, can_be_written};
use tsb_field_log::{InputKind, Wire};
use tsb_types::ClockTime;
use wires::add_option;
pub(crate) use wires::{parts, wire};

/// What the words of `log` ask for.
#[derive(Drop)]
pub struct LogAsked<'a> {
    /// The moment at which tick 1 begins.
    pub from: Moment,
    /// The device whose events count, or `None` where those of each device do.
    pub device: Option<&'a str>,
    /// The wires: vehicle detectors, then pedestrian detectors, then preempts, of each kind in the order of the words.
    pub wires: Vec<Wire>,
    pub manner: Manner,
    /// The file of the plan that the detectors have, where events are of their outputs.
    pub as_outputs: Option<&'a str>,
}

/// How `log` reads events, and what it tells of them.
#[derive(Clone, Copy, PartialEq, Eq)]
pub struct Manner {
    /// The form of times, or `None` where the first row says it.
    pub times: Option<TimeForm>,
    /// The zone of the clock by which moments are told, or `None` where each is what its own clock shows.
    pub zone: Option<Zone>,
    /// How many seconds a row may be behind the latest row above it, 1 to 3,600, where rows are sorted; `None` where each
    /// has to be in order.
    pub window: Option<u32>,
    /// Whether it is told how much was read.
    pub counts: bool,
    /// Whether no row that counts, and no event of an input from tick 1 on, is no fault.
    pub may_be_empty: bool,
}

/// How `record` runs commands, and what its events are.
#[derive(Clone, Copy, PartialEq, Eq)]
pub struct RecordManner {
    /// Whether the run goes on after a line that is refused or is no command.
    pub goes_on: bool,
    /// Whether calls of phases on recall have events too.
    pub recalls: bool,
    /// Whether vehicle detectors have events of their outputs, and not of their inputs.
    pub outputs: bool,
    /// Whether no clock is set to the moment at which tick 1 begins.
    pub no_clock: bool,
}

/// What the words of `record` ask for.
#[derive(Clone, Copy)]
pub struct RecordAsked<'a> {
    /// The moment at which tick 1 begins.
    pub from: Moment,
    /// The device that the events are of, which a line can name (`can_be_written`).
    pub device: &'a str,
    /// The file of the plan.
    pub plan: &'a str,
    /// The file of the log of inputs.
    pub log: &'a str,
    pub manner: RecordManner,
}

/// What the words of `events` ask for.
#[derive(Clone, Copy)]
pub struct EventsAsked<'a> {
    /// The moment at which tick 1 begins.
    pub from: Moment,
    /// The device that the events are of, which a line can name (`can_be_written`).
    pub device: &'a str,
    /// The file of the log of inputs.
    pub log: Option<&'a str>,
    /// Whether display lines are wide.
    pub is_wide: bool,
}

/// What the words of `diagram` ask for.
#[derive(Clone, Copy)]
pub struct DiagramAsked<'a> {
    /// The file of the log of inputs.
    pub log: Option<&'a str>,
    /// Whether display lines are wide.
    pub is_wide: bool,
    /// The title above the diagram.
    pub title: Option<&'a str>,
    /// How many seconds a line of the diagram shows, 1 to 86,400.
    pub seconds_per_line: Option<u32>,
    /// The moment at which tick 1 begins, where the axis has the time of day.
    pub from: Option<Moment>,
    /// The file of an event log that says why greens ended. Where there is one, `from` is given.
    pub events: Option<&'a str>,
}

/// What the words ask for.
#[derive(Drop)]
pub enum Asked<'a> {
    /// A log of inputs, made from the events of a controller's log.
    Log(LogAsked<'a>),
    /// Events of a controller's log, told by a run of commands.
    Record(RecordAsked<'a>),
    /// Events of a controller's log, made from display lines.
    Events(EventsAsked<'a>),
    /// A diagram of display lines.
    Diagram(DiagramAsked<'a>),
    /// A review of a plan.
    Review {
        /// The file of the plan.
        plan: &'a str,
    },
    /// What the schedule of a plan runs in a week.
    Schedule {
        /// The file of the plan.
        plan: &'a str,
        /// The midnight at which the week begins.
        week: ClockTime,
        /// Whether it is a picture, and not a table.
        svg: bool,
    },
    /// The worksheet of a plan.
    Worksheet {
        /// The file of the plan.
        plan: &'a str,
    },
    /// The card of a plan, for a conflict monitor.
    Card {
        /// The file of the plan.
        plan: &'a str,
        /// The file of the card that is compared with it.
        against: Option<&'a str>,
    },
}

/// What the words ask for, the first of which is the program's name.
///
/// `log` has `--from TIME`, and may have `--device ID`, `--as-outputs PLAN`, `--time-form FORM`, `--zone OFFSET`, `--count`,
/// `--allow-empty`, `--sort`, `--sort-within SECONDS` and any number of `--vehicle CHANNEL=DETECTOR`, `--pedestrian
/// CHANNEL=DETECTOR` and `--preempt CHANNEL=INPUT`; `record` has `--from TIME`, `--device ID`, and the files of a plan and a
/// log, and may have `--go-on`, `--recalls`, `--outputs` and `--no-clock`; `events` has `--from TIME` and `--device ID`,
/// and may have `--log LOG` and `--wide`; `diagram` may have `--log LOG`, `--wide`, `--title TEXT`, `--seconds-per-line N`,
/// and `--from TIME`, and with that `--events FILE`; `review` has the file of a plan; `schedule` has the file of a plan,
/// and `--week DATE`, and may have `--svg`; `worksheet` has the file of a plan; `card` has the file of a plan, and may have
/// `--against FILE`.
/// Options come in any order, and `--NAME=VALUE` is `--NAME VALUE`. A value that begins with a hyphen comes after `=`. All
/// else is `Bad`, and so are a request for help and a device of `record` or `events` with a double quote, an end of a line
/// or over 900 bytes. `Memory` may come in place of every answer, as `clap` allocates. Where it takes the words, only those
/// of `log` may need more.
pub fn read_words<'a, S: AsStr>(alloc: Global, words: &'a [S]) -> Result<Asked<'a>, WordsError>
    ensures { Spells (map S.text words.now) result }
{
    match matches_of(alloc, &PROGRAM, words) {
        Ok(matches) => asked_of(alloc, &matches),
        Err(error) => Err(error),
    }
}

/// What the subcommand that was met asks for. Only the wires of `log` need memory.
fn asked_of<'a>(alloc: Global, matches: &ArgMatches<'a>) -> Result<Asked<'a>, WordsError>
    ensures asked { SpelledBy seen (asked_by (subcommand_rows_of matches.now)) result }
    ensures memory { result ≡ Err Memory → NeedsMemory (subcommand_rows_of matches.now) }
{
    let Some((name, options)) = matches.subcommand() else {
        return Err(WordsError::Bad);
    };
    if name == "log" {
        return log_asked(alloc, options);
    }
    match other_asked(name, options) {
        Some(asked) => Ok(asked),
        None => Err(WordsError::Bad),
    }
}

/// What a subcommand of this name that is not `log` asks for, with these options.
fn other_asked<'a>(name: &str, options: &ArgMatches<'a>) -> Option<Asked<'a>>
    ensures { option_map seen result ≡ other_in name.now (rows_of (found_of options.now)) }
{
    if name == "record" {
        record_asked(options)
    } else if name == "events" {
        events_asked(options)
    } else if name == "diagram" {
        diagram_asked(options)
    } else if name == "schedule" {
        schedule_asked(options)
    } else if name == "worksheet" {
        worksheet_asked(options)
    } else if name == "card" {
        card_asked(options)
    } else {
        review_asked(options)
    }
}

/// What `log` asks for, with these options.
fn log_asked<'a>(alloc: Global, options: &ArgMatches<'a>) -> Result<Asked<'a>, WordsError>
    ensures asked { SpelledBy seen (log_in (rows_of (found_of options.now))) result }
    ensures memory { result ≡ Err Memory → HasWires (rows_of (found_of options.now)) }
{
    let Some(from) = moment(options) else {
        return Err(WordsError::Bad);
    };
    let Some(manner) = manner_asked(options) else {
        return Err(WordsError::Bad);
    };
    match all_wires(alloc, options) {
        Ok(wires) => Ok(Asked::Log(LogAsked {
            from,
            device: options.get_str("device"),
            wires,
            manner,
            as_outputs: options.get_str("as-outputs"),
        })),
        Err(error) => Err(error),
    }
}

/// How `log` reads events and what it tells of them, by these options.
fn manner_asked(options: &ArgMatches<'_>) -> Option<Manner>
    ensures { result ≡ manner_in (rows_of (found_of options.now)) }
{
    let times = form_said(options.get_str("time-form"));
    let zone = zone_said(options.get_str("zone"));
    let sorts = is_set(options.get_str("sort"));
    let window = window_said(sorts, options.get_str("sort-within"));
    let counts = is_set(options.get_str("count"));
    let may_be_empty = is_set(options.get_str("allow-empty"));
    manner_with(times, zone, window, counts, may_be_empty)
}

/// How `log` reads events and what it tells of them, where a form, a zone and a window are spelled.
fn manner_with(
    times: Option<Option<TimeForm>>,
    zone: Option<Option<Zone>>,
    window: Option<Option<u32>>,
    counts: bool,
    may_be_empty: bool,
) -> Option<Manner>
    ensures { result ≡ manner_with times zone window counts may_be_empty }
{
    let times = times?;
    let zone = zone?;
    let window = window?;
    Some(Manner {
        times,
        zone,
        window,
        counts,
        may_be_empty,
    })
}

/// The wires of all kinds that options spell.
fn all_wires(alloc: Global, options: &ArgMatches<'_>) -> Result<Vec<Wire>, WordsError>
    ensures { AreSpelled (wires_in (rows_of (found_of options.now))) result }
{
    let mut wires = Vec::new(alloc);
    add_option(&mut wires, InputKind::Vehicle, options.get_raw("vehicle"))?;
    add_option(
        &mut wires,
        InputKind::Pedestrian,
        options.get_raw("pedestrian"),
    )?;
    add_option(&mut wires, InputKind::Preempt, options.get_raw("preempt"))?;
    Ok(wires)
}

/// What `record` asks for, with these options and files.
fn record_asked<'a>(options: &ArgMatches<'a>) -> Option<Asked<'a>>
    ensures { option_map seen result ≡ record_in (rows_of (found_of options.now)) }
{
    let from = moment(options);
    let device = options.get_str("device");
    let plan = options.get_str("PLAN");
    let log = options.get_str("LOG");
    let manner = record_manner(options);
    record_with(from, device, plan, log, manner)
}

/// How `record` runs commands, and what its events are, by these options.
fn record_manner(options: &ArgMatches<'_>) -> RecordManner
    ensures { result ≡ record_manner_in (rows_of (found_of options.now)) }
{
    RecordManner {
        goes_on: is_set(options.get_str("go-on")),
        recalls: is_set(options.get_str("recalls")),
        outputs: is_set(options.get_str("outputs")),
        no_clock: is_set(options.get_str("no-clock")),
    }
}

/// Whether a flag was set, which `clap` writes as its value.
fn is_set(value: Option<&str>) -> bool
    ensures { result ≡ is_set (option_map (λ text. text.now) value.entry) }
{
    match value {
        Some(text) => text == "true",
        None => false,
    }
}

/// A record, where it is said from when, of which device and of which files, and a line can name that device.
fn record_with<'a>(
    from: Option<Moment>,
    device: Option<&'a str>,
    plan: Option<&'a str>,
    log: Option<&'a str>,
    manner: RecordManner,
) -> Option<Asked<'a>>
    ensures { option_map seen result
        ≡ record_with from (option_map (λ text. text.now) device.entry) (option_map (λ text. text.now) plan.entry) (option_map (λ text. text.now) log.entry) manner }
{
    let from = from?;
    let device = device?;
    let plan = plan?;
    let log = log?;
    if can_be_written(device.as_bytes()) {
        return Some(Asked::Record(RecordAsked {
            from,
            device,
            plan,
            log,
            manner,
        }));
    }
    None
}

/// What `events` asks for, with these options.
fn events_asked<'a>(options: &ArgMatches<'a>) -> Option<Asked<'a>>
    ensures { option_map seen result ≡ events_in (rows_of (found_of options.now)) }
{
    let from = moment(options);
    let device = options.get_str("device");
    let log = options.get_str("log");
    let is_wide = is_set(options.get_str("wide"));
    events_with(from, device, log, is_wide)
}

/// Events, where options say from when and of which device, and a line can name that device.
fn events_with<'a>(
    from: Option<Moment>,
    device: Option<&'a str>,
    log: Option<&'a str>,
    is_wide: bool,
) -> Option<Asked<'a>>
    ensures { option_map seen result
        ≡ events_with from (option_map (λ text. text.now) device.entry) (option_map (λ text. text.now) log.entry) is_wide }
{
    let from = from?;
    let device = device?;
    if !can_be_written(device.as_bytes()) {
        return None;
    }
    Some(Asked::Events(EventsAsked {
        from,
        device,
        log,
        is_wide,
    }))
}

/// What `diagram` asks for, with these options.
fn diagram_asked<'a>(options: &ArgMatches<'a>) -> Option<Asked<'a>>
    ensures { option_map seen result ≡ diagram_in (rows_of (found_of options.now)) }
{
    let log = options.get_str("log");
    let is_wide = is_set(options.get_str("wide"));
    let title = options.get_str("title");
    let seconds = seconds_said(options.get_str("seconds-per-line"));
    let from = from_said(options.get_str("from"));
    let events = options.get_str("events");
    diagram_with(log, is_wide, title, seconds, from, events)
}

/// A diagram, where its seconds and its moment are spelled, and events have a moment to count from.
fn diagram_with<'a>(
    log: Option<&'a str>,
    is_wide: bool,
    title: Option<&'a str>,
    seconds: Option<Option<u32>>,
    from: Option<Option<Moment>>,
    events: Option<&'a str>,
) -> Option<Asked<'a>>
    ensures { option_map seen result
        ≡ diagram_with (option_map (λ text. text.now) log.entry) is_wide (option_map (λ text. text.now) title.entry) seconds from (option_map (λ text. text.now) events.entry) }
{
    let seconds_per_line = seconds?;
    let from = from?;
    if !is_timed(from, events) {
        return None;
    }
    Some(Asked::Diagram(DiagramAsked {
        log,
        is_wide,
        title,
        seconds_per_line,
        from,
        events,
    }))
}

/// Whether events, where they are named, have a moment to count from.
fn is_timed(from: Option<Moment>, events: Option<&str>) -> bool
    ensures { result ≡ is_timed from (option_map (λ text. text.now) events.entry) }
{
    match (from, events) {
        (None, Some(_)) => false,
        _ => true,
    }
}

/// What `review` asks for, with this file.
fn review_asked<'a>(options: &ArgMatches<'a>) -> Option<Asked<'a>>
    ensures { option_map seen result ≡ review_in (rows_of (found_of options.now)) }
{
    review_with(options.get_str("PLAN"))
}

/// What `schedule` asks for, with this file and these options.
fn schedule_asked<'a>(options: &ArgMatches<'a>) -> Option<Asked<'a>>
    ensures { option_map seen result ≡ schedule_in (rows_of (found_of options.now)) }
{
    let svg = is_set(options.get_str("svg"));
    schedule_with(options.get_str("PLAN"), options.get_str("week"), svg)
}

/// What runs in a week, where a plan and a date are named.
fn schedule_with<'a>(plan: Option<&'a str>, week: Option<&str>, svg: bool) -> Option<Asked<'a>>
    ensures { option_map seen result ≡ schedule_with (option_map (λ text. text.now) plan.entry) (option_map (λ text. text.now) week.entry) svg }
{
    let plan = plan?;
    let week = week?;
    let week = midnight_of(week.as_bytes())?;
    Some(Asked::Schedule { plan, week, svg })
}

/// A review, where a plan is named.
fn review_with<'a>(plan: Option<&'a str>) -> Option<Asked<'a>>
    ensures { option_map seen result ≡ review_with (option_map (λ text. text.now) plan.entry) }
{
    let plan = plan?;
    Some(Asked::Review { plan })
}

/// What `worksheet` asks for, with this file.
fn worksheet_asked<'a>(options: &ArgMatches<'a>) -> Option<Asked<'a>>
    ensures { option_map seen result ≡ worksheet_in (rows_of (found_of options.now)) }
{
    worksheet_with(options.get_str("PLAN"))
}

/// A worksheet, where a plan is named.
fn worksheet_with<'a>(plan: Option<&'a str>) -> Option<Asked<'a>>
    ensures { option_map seen result ≡ worksheet_with (option_map (λ text. text.now) plan.entry) }
{
    let plan = plan?;
    Some(Asked::Worksheet { plan })
}

/// What `card` asks for, with this file and this option.
fn card_asked<'a>(options: &ArgMatches<'a>) -> Option<Asked<'a>>
    ensures { option_map seen result ≡ card_in (rows_of (found_of options.now)) }
{
    card_with(options.get_str("PLAN"), options.get_str("against"))
}

/// A card, where a plan is named, and that of a file beside it, if one is named too.
fn card_with<'a>(plan: Option<&'a str>, against: Option<&'a str>) -> Option<Asked<'a>>
    ensures { option_map seen result ≡ card_with (option_map (λ text. text.now) plan.entry) (option_map (λ text. text.now) against.entry) }
{
    let plan = plan?;
    Some(Asked::Card { plan, against })
}
