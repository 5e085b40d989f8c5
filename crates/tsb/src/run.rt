//! What the program does for its words.

ghost use Rattle.std.specs.Prelude.{◌≡◌, Result, false, map, true};
ghost use Rattle.tsb_words.specs.declared.bench.Asked.{Asked};
ghost use Rattle.tsb_words.specs.declared.error.WordsError.{WordsError};
ghost use Rattle.tsb_words.specs.BenchWords.{Spells};
ghost use Rattle.tsb_text.specs.tsb_objects.Checked.{checked_plan};
ghost use Rattle.tsb_program.specs.Devices.{ReadsNothing};
ghost use Rattle.tsb.specs.Ends.{Checks, Ran, RanBuiltIn, Reported, Did, Talked};

use std::alloc::Global;
use std::convert::AsStr;
use std::io::{Read, Write};
use tsb_program::{
    ExitStatus, Failure, Files, ReadError, Streams, line_of, log_of, plan_of, plan_or_place,
};
use tsb_text::{Checked, Log, Plan, PlanError, session};
use tsb_words::bench::{Asked, read_words};

/// How the program is used.
pub const USAGE: &[u8] = b"usage: tsb check PLAN or tsb run PLAN LOG\n";

/// Does what the words ask for, the first of which is the program's name, and gives the status that the program ends
/// with: 0 where all was done, 1 for a refused plan or log, 2 for bad words, 3 where a read, a write or memory failed.
///
/// What `check` finds in a plan goes to the output, and so do the answers of a session. The fault that ends `run` goes to
/// the errors, and so do bad words and failures. A second line names a file that was not read, or what is said of a text
/// that is refused; after a plan that `check` refuses, a line of the errors says what lists all faults.
pub fn run_words<S: AsStr, F: Files, R: Read, W: Write, E: Write>(
    alloc: Global,
    words: &[S],
    files: &F,
    streams: &mut Streams<R, W, E>,
) -> u8
    requires reads { streams.old.input.failed ≡ false }
    requires writes { streams.old.output.failed ≡ false }
    requires flushed { streams.old.output.flushed ≡ true }
    ensures { (answer : Result Asked WordsError) × Spells (map S.text words.now) answer × Did answer result (F.bytes files.now) streams.old streams.new }
{
    match read_words(alloc, words) {
        Ok(Asked::Check(plan)) => check(alloc, plan, files, streams),
        Ok(Asked::Run(plan, log)) => run(alloc, plan, log, files, streams),
        Ok(Asked::BuiltIn) => run_built_in(alloc, streams),
        Err(fault) => streams.tell_words_fault(None, USAGE, fault),
    }
}

/// Judges a plan.
fn check<F: Files, R: Read, W: Write, E: Write>(
    alloc: Global,
    path: &str,
    files: &F,
    streams: &mut Streams<R, W, E>,
) -> u8
    ensures { ReadsNothing (Checks path.now result (F.bytes files.now path.now)) streams.old streams.new }
{
    report(alloc, path, plan_of(alloc, files, path), streams)
}

/// Reports what was found of the plan in the file at this path.
fn report<R: Read, W: Write, E: Write>(
    alloc: Global,
    path: &str,
    found: Result<Checked, ReadError<PlanError>>,
    streams: &mut Streams<R, W, E>,
) -> u8
    ensures { ReadsNothing (Reported path.now found result) streams.old streams.new }
{
    match found {
        Ok(_) => streams.write(ExitStatus::Done, b"plan ok\n"),
        Err(ReadError::Refused(fault)) => match line_of(alloc, fault.line()) {
            Ok(line) => streams.write_refusal(line.as_bytes()),
            Err(_) => streams.fail(Failure::Memory),
        },
        Err(ReadError::Failed(fault)) => streams.fail_file(path, fault),
    }
}

/// Runs a session on a plan and a log.
fn run<F: Files, R: Read, W: Write, E: Write>(
    alloc: Global,
    plan: &str,
    log: &str,
    files: &F,
    streams: &mut Streams<R, W, E>,
) -> u8
    requires reads { streams.old.input.failed ≡ false }
    requires writes { streams.old.output.failed ≡ false }
    requires flushed { streams.old.output.flushed ≡ true }
    ensures { Ran result plan.now log.now (F.bytes files.now) streams.old streams.new }
{
    let checked = match plan_or_place(alloc, files, plan) {
        Ok(checked) => checked,
        Err(fault) => return streams.refuse_plan(alloc, plan, fault),
    };
    let rows = match log_of(alloc, files, log) {
        Ok(rows) => rows,
        Err(fault) => return streams.refuse(alloc, log, fault),
    };
    talk(alloc, checked, &rows, streams)
}

/// Runs a session on the built-in plan of two phases with an empty log.
fn run_built_in<R: Read, W: Write, E: Write>(alloc: Global, streams: &mut Streams<R, W, E>) -> u8
    requires reads { streams.old.input.failed ≡ false }
    requires writes { streams.old.output.failed ≡ false }
    requires flushed { streams.old.output.flushed ≡ true }
    ensures { RanBuiltIn result streams.old streams.new }
{
    match Checked::new(Plan::two()) {
        Ok(plan) => talk(alloc, plan, &Log::empty(alloc), streams),
        // It meets the rules.
        Err(rule) => streams.refuse(alloc, "", ReadError::Refused(PlanError::Rule(rule))),
    }
}

/// Runs a session, and gives the status that the program ends with.
fn talk<R: Read, W: Write, E: Write>(
    alloc: Global,
    plan: Checked,
    log: &Log,
    streams: &mut Streams<R, W, E>,
) -> u8
    requires reads { streams.old.input.failed ≡ false }
    requires writes { streams.old.output.failed ≡ false }
    requires flushed { streams.old.output.flushed ≡ true }
    ensures { Talked result (record { plan = checked_plan plan; log = log.now; acts = true; is_wide = false }) streams.old streams.new }
{
    match session(
        alloc,
        plan,
        log,
        true,
        &mut streams.input,
        &mut streams.output,
    ) {
        Ok(()) => ExitStatus::Done.number(),
        Err(fault) => streams.tell_end(fault),
    }
}
