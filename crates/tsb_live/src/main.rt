//! A live run on a plan: `tsb_live PLAN` answers each line that comes.
#![tactic(auto)]

mod run;

use crate::run::{USAGE, run_words};
use std::process::ExitCode;
use tsb_program::{Disk, Streams, Watched, words_given};

fn main(rt: HostRuntime) -> ExitCode {
    let mut streams = Streams {
        input: Watched::new(rt.stdin()),
        output: Watched::new(rt.stdout()),
        errors: Watched::new(rt.stderr()),
    };
    let status = match words_given(&rt) {
        Ok(words) => run_words(
            rt.alloc(),
            words.as_slice(),
            &Disk { rt: &rt },
            &mut streams,
        ),
        Err(fault) => streams.tell_words_fault(None, USAGE, fault),
    };
    ExitCode::from(status)
}
