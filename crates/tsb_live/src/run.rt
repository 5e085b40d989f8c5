//! What the program does for its words.

ghost use Rattle.std.specs.Prelude.{◌≡◌, Result, false, map, true};
ghost use Rattle.tsb_words.specs.declared.live.Asked.{Asked};
ghost use Rattle.tsb_words.specs.declared.error.WordsError.{WordsError};
ghost use Rattle.tsb_words.specs.LiveWords.{Spells};
ghost use Rattle.tsb_words.specs.Near.{live_near};
ghost use Rattle.tsb_words.specs.Pages.{live_page};
ghost use Rattle.tsb_text.specs.tsb_objects.Checked.{checked_plan};
ghost use Rattle.tsb_live.specs.Ends.{Answered, Did, Ran, Talked};

use std::alloc::Global;
use std::convert::AsStr;
use std::io::{Read, Write};
use tsb_live_text::live;
use tsb_program::{ExitStatus, Files, Streams, after_fault, plan_or_place};
use tsb_text::{Checked, OnFault, fault_line};
use tsb_words::live::read_words;
use tsb_words::near::live_near;
use tsb_words::pages::live_page;

/// How the program is used.
pub const USAGE: &[u8] = b"usage: tsb_live [--strict] PLAN\n";

/// Does what the words ask for, and gives the status that the program ends with. The first word is the program's name.
/// The status is 0 where all was done; 1 for a refused plan; 2 for bad words; 3 where a read, a write or memory failed,
/// or where the lines are too large; 4 where a line ended a strict run.
///
/// What is answered goes to the output. The fault that ends a run goes to the errors, as do the line that ends a strict
/// one, bad words and failures. A second line has where the text of a plan stops being JSON, or what was not read. The
/// version and the help, where the words ask for one of them, go to the output.
pub fn run_words<S: AsStr, F: Files, R: Read, W: Write, E: Write>(
    alloc: Global,
    words: &[S],
    files: &F,
    streams: &mut Streams<R, W, E>,
) -> u8
    requires reads { streams.old.input.failed ≡ false }
    requires writes { streams.old.output.failed ≡ false }
    requires flushed { streams.old.output.flushed ≡ true }
    ensures { Answered (live_page (map S.text words.now)) (map S.text words.now) result (F.bytes files.now) streams.old streams.new }
{
    match live_page(words) {
        Some(page) => streams.write(ExitStatus::Done, page),
        None => run_asked(alloc, words, files, streams),
    }
}

/// Does what words ask for that ask for no page.
fn run_asked<S: AsStr, F: Files, R: Read, W: Write, E: Write>(
    alloc: Global,
    words: &[S],
    files: &F,
    streams: &mut Streams<R, W, E>,
) -> u8
    requires reads { streams.old.input.failed ≡ false }
    requires writes { streams.old.output.failed ≡ false }
    requires flushed { streams.old.output.flushed ≡ true }
    ensures { (answer : Result Asked WordsError) × Spells (map S.text words.now) answer
        × Did (live_near (map S.text words.now)) answer result (F.bytes files.now) streams.old streams.new }
{
    match read_words(alloc, words) {
        Ok(asked) => {
            let on_fault = after_fault(asked.is_strict);
            run(alloc, asked.plan, on_fault, files, streams)
        }
        Err(fault) => {
            let near = live_near(words);
            streams.tell_words_fault(near, USAGE, fault)
        }
    }
}

/// Makes a live run on the plan in a file.
fn run<F: Files, R: Read, W: Write, E: Write>(
    alloc: Global,
    path: &str,
    on_fault: OnFault,
    files: &F,
    streams: &mut Streams<R, W, E>,
) -> u8
    requires reads { streams.old.input.failed ≡ false }
    requires writes { streams.old.output.failed ≡ false }
    requires flushed { streams.old.output.flushed ≡ true }
    ensures { Ran path.now result on_fault (F.bytes files.now path.now) streams.old streams.new }
{
    match plan_or_place(alloc, files, path) {
        Ok(plan) => talk(alloc, plan, on_fault, streams),
        Err(fault) => streams.refuse_plan(alloc, path, fault),
    }
}

/// Answers the lines that come, and gives the status that the program ends with.
fn talk<R: Read, W: Write, E: Write>(
    alloc: Global,
    plan: Checked,
    on_fault: OnFault,
    streams: &mut Streams<R, W, E>,
) -> u8
    requires reads { streams.old.input.failed ≡ false }
    requires writes { streams.old.output.failed ≡ false }
    requires flushed { streams.old.output.flushed ≡ true }
    ensures { Talked result on_fault (checked_plan plan) streams.old streams.new }
{
    match live(
        alloc,
        plan,
        on_fault,
        true,
        &mut streams.input,
        &mut streams.output,
    ) {
        Ok(None) => ExitStatus::Done.number(),
        Ok(Some(stop)) => {
            let line = fault_line(b"line ", stop.number, &stop.line, stop.fault);
            streams.tell(ExitStatus::Stopped, line.as_bytes())
        }
        Err(fault) => streams.tell_input_end(fault),
    }
}
