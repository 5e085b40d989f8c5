//! What commands have in common at their end.
ghost use Rattle.std.specs.Prelude.{◌≡◌, map};
ghost use Rattle.tsb_program.specs.Devices.{OnlyTells, ReadsNothing};
ghost use Rattle.tsb_program.specs.Runs.{TellsWords};
ghost use Rattle.tsb_words.specs.Near.{field_near};
ghost use Rattle.tsb_words.specs.Wrong.{field_wrong};
ghost use Rattle.tsb_field.specs.Lines.{TellsLate, TellsNoClock, usage_for};
ghost use Rattle.tsb_field.specs.Ends.{WritesMade, failure_by};

use std::convert::AsStr;
use std::io::{Read, Write};
use tsb_field_display::{EventsError, ReplayError};
use tsb_program::{ExitStatus, Failure, Streams};
use tsb_words::WordsError;
use tsb_words::near::field_near;
use tsb_words::wrong::{field_wrong, wrong_line};

/// How the program is used.
pub(crate) const USAGE: &[u8] =
    b"usage: tsb_field log --from TIME [--device ID] [--time-form FORM] [--zone OFFSET] [--count] [--allow-empty]
          [--sort] [--sort-within SECONDS] [--as-outputs PLAN]
          [--vehicle CHANNEL=DETECTOR].. [--pedestrian CHANNEL=DETECTOR].. [--preempt CHANNEL=INPUT]..
    or tsb_field record --from TIME --device ID [--go-on] [--recalls] [--outputs] [--no-clock] PLAN LOG
    or tsb_field events --from TIME --device ID [--log LOG]
    or tsb_field diagram [--log LOG] [--title TEXT] [--seconds-per-line N] [--from TIME [--events FILE]]
    or tsb_field review PLAN
    or tsb_field schedule [--svg] --week DATE PLAN
    or tsb_field worksheet PLAN
    or tsb_field card [--against FILE] PLAN
";

/// Reports why words ask for nothing: for bad words the right word that was perhaps meant, or what is wrong with them, or
/// else how the program is used.
pub(crate) fn tell_words<S: AsStr, R: Read, W: Write, E: Write>(
    words: &[S],
    fault: WordsError,
    streams: &mut Streams<R, W, E>,
) -> u8
    ensures { OnlyTells (TellsWords (field_near (map S.text words.now)) (usage_for (field_wrong (map S.text words.now))) fault result)
        streams.old streams.new }
{
    let near = field_near(words);
    match field_wrong(words) {
        Some(wrong) => {
            let line = wrong_line(wrong);
            streams.tell_words_fault(near, line.as_bytes(), fault)
        }
        None => streams.tell_words_fault(near, USAGE, fault),
    }
}

/// Says that a tick has no time, as a fault of the words.
fn tell_late<R: Read, W: Write, E: Write>(streams: &mut Streams<R, W, E>) -> u8
    ensures { OnlyTells (TellsLate result) streams.old streams.new }
{
    streams.tell(ExitStatus::BadWords, b"events: past the year 9999\n")
}

/// Says that a clock can't be set to the moment of `--from`, as a fault of the words.
pub(crate) fn tell_no_clock<R: Read, W: Write, E: Write>(streams: &mut Streams<R, W, E>) -> u8
    ensures { OnlyTells (TellsNoClock result) streams.old streams.new }
{
    streams.tell(
        ExitStatus::BadWords,
        b"--from: a clock has the years 2000 to 2099 (give --no-clock for others)\n",
    )
}

/// Writes the text that was made of events, or says why there is none, and gives the status that the program ends with.
pub(crate) fn write_made<R: Read, W: Write, E: Write>(
    streams: &mut Streams<R, W, E>,
    made: Result<Vec<u8>, EventsError>,
) -> u8
    ensures { ReadsNothing (WritesMade made result) streams.old streams.new }
{
    match made {
        Ok(text) => streams.write(ExitStatus::Done, &text),
        Err(EventsError::Memory) => streams.fail(Failure::Memory),
        Err(EventsError::Late) => tell_late(streams),
    }
}

/// The failure of a session that was not read.
pub(crate) fn failure_by(fault: ReplayError) -> Failure
    ensures { result ≡ failure_by fault }
{
    match fault {
        ReplayError::Memory => Failure::Memory,
        ReplayError::Read => Failure::Input,
    }
}
