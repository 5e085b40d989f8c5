//! What the program does for its words.
ghost use Rattle.std.specs.Prelude.{◌≡◌, Result, false, map, true};
ghost use Rattle.tsb_words.specs.declared.field_files.Asked.{Asked};
ghost use Rattle.tsb_words.specs.declared.error.WordsError.{WordsError};
ghost use Rattle.tsb_words.specs.FieldProgram.{Spells};
ghost use Rattle.tsb_words.specs.FieldWords.{seen};
ghost use Rattle.tsb_words.specs.Near.{field_near};
ghost use Rattle.tsb_words.specs.Pages.{field_page};
ghost use Rattle.tsb_words.specs.Wrong.{field_wrong};
ghost use Rattle.tsb_field.specs.Ends.{Answered, Did, DidWish};

use crate::card_run::write_card_of;
use crate::diagram_run::write_diagram;
use crate::end::tell_words;
use crate::events_run::write_events;
use crate::outputs_run::run_log;
use crate::record_run::write_record;
use crate::review_run::review_plan;
use crate::schedule_run::write_schedule;
use crate::worksheet_run::write_worksheet_of;
use std::alloc::Global;
use std::convert::AsStr;
use std::io::{Read, Write};
use tsb_program::{ExitStatus, Files, Streams};
use tsb_words::field_files::{Asked, read_words};
use tsb_words::pages::field_page;

/// Does what the words ask for, the first of which is the program's name, and gives the status that the program ends
/// with: 0 where all was done, 1 for bad input, 2 for bad words, 3 where a read, a write or memory failed. It is 4 where a
/// line ended a strict record, and 5 where a card differs.
///
/// The log, the events, the diagram, the review, the week, the worksheet or the card go to the output. What was left out,
/// faults, bad words and failures go to the errors. A second line has where the text of a plan stops being JSON, or what
/// was not read. The version and the help, where the words ask for one of them, go to the output.
pub fn run_words<S: AsStr, F: Files, R: Read, W: Write, E: Write>(
    alloc: Global,
    words: &[S],
    files: &F,
    streams: &mut Streams<R, W, E>,
) -> u8
    requires reads { streams.old.input.failed ≡ false }
    requires writes { streams.old.errors.failed ≡ false }
    requires flushed { streams.old.errors.flushed ≡ true }
    ensures { Answered (field_page (map S.text words.now)) (map S.text words.now) result (F.bytes files.now) streams.old streams.new }
{
    match field_page(words) {
        Some(page) => streams.write(ExitStatus::Done, page),
        None => run_asked(alloc, words, files, streams),
    }
}

/// Does what words ask for that ask for no page.
fn run_asked<S: AsStr, F: Files, R: Read, W: Write, E: Write>(
    alloc: Global,
    words: &[S],
    files: &F,
    streams: &mut Streams<R, W, E>,
) -> u8
    requires reads { streams.old.input.failed ≡ false }
    requires writes { streams.old.errors.failed ≡ false }
    requires flushed { streams.old.errors.flushed ≡ true }
    ensures { (answer : Result Asked WordsError) × Spells (map S.text words.now) answer
        × Did (field_near (map S.text words.now)) (field_wrong (map S.text words.now)) answer result (F.bytes files.now) streams.old streams.new }
{
    match read_words(alloc, words) {
        Ok(asked) => run_wish(alloc, &asked, files, streams),
        Err(fault) => tell_words(words, fault, streams),
    }
}

/// Does what was asked for.
fn run_wish<F: Files, R: Read, W: Write, E: Write>(
    alloc: Global,
    asked: &Asked<'_>,
    files: &F,
    streams: &mut Streams<R, W, E>,
) -> u8
    requires reads { streams.old.input.failed ≡ false }
    requires writes { streams.old.errors.failed ≡ false }
    requires flushed { streams.old.errors.flushed ≡ true }
    ensures { DidWish (seen asked.now) result (F.bytes files.now) streams.old streams.new }
{
    match asked {
        Asked::Log(asked) => run_log(alloc, asked, files, streams),
        Asked::Record(asked) => write_record(alloc, asked, files, streams),
        Asked::Events(asked) => write_events(alloc, asked, files, streams),
        Asked::Diagram(asked) => write_diagram(alloc, asked, files, streams),
        Asked::Review { plan } => review_plan(alloc, plan, files, streams),
        Asked::Schedule { plan, week, svg } => {
            write_schedule(alloc, plan, *week, *svg, files, streams)
        }
        Asked::Worksheet { plan } => write_worksheet_of(alloc, plan, files, streams),
        Asked::Card { plan, against } => write_card_of(alloc, plan, *against, files, streams),
    }
}
