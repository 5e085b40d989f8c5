//! Field files in, events and pictures out: `tsb_field log` makes a log for `tsb` from a controller's event log, and
//! `tsb_field events` and `tsb_field diagram` make an event log and a phase diagram from what `tsb` answers. `tsb_field
//! review` says what can be wrong with a plan that runs, `tsb_field schedule` what its schedule runs in a week, and
//! `tsb_field worksheet` which times follow of it. `tsb_field card` says which channels a monitor has to permit together.
#![tactic(auto)]

mod card_run;
mod clock;
mod diagram_run;
mod end;
mod ends_run;
mod events_run;
mod log_run;
mod named;
mod outputs_run;
mod record_run;
mod report;
mod review_run;
mod run;
mod schedule_run;
mod twice;
mod worksheet_run;

use crate::end::USAGE;
use crate::run::run_words;
use std::convert::AsStr;
use std::io::{BufWriter, Write};
use std::process::ExitCode;
use tsb_program::{Disk, Failure, Streams, Watched, words_given};

/// How many bytes wait before they are written.
const BUFFER: usize = 65_536;

fn main(rt: HostRuntime) -> ExitCode {
    let mut streams = Streams {
        input: Watched::new(rt.stdin()),
        output: Watched::new(rt.stdout()),
        errors: Watched::new(rt.stderr()),
    };
    let status = match words_given(&rt) {
        Ok(words) => match BufWriter::with_capacity(rt.alloc(), BUFFER, rt.stdout()) {
            Ok(output) => run_buffered(&rt, words.as_slice(), output),
            Err(_) => streams.fail(Failure::Memory),
        },
        Err(fault) => streams.tell_words_fault(None, USAGE, fault),
    };
    ExitCode::from(status)
}

/// Does what the words ask for, with a buffer before the output, and gives the status that the program ends with.
fn run_buffered<S: AsStr, W: Write + Drop>(rt: &HostRuntime, words: &[S], output: W) -> u8 {
    let mut streams = Streams {
        input: Watched::new(rt.stdin()),
        output: Watched::new(output),
        errors: Watched::new(rt.stderr()),
    };
    run_words(rt.alloc(), words, &Disk { rt }, &mut streams)
}
