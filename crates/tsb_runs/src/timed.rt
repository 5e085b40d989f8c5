//! Runs of the whole bench on a random log, timed from outside: `tsb_runs PLAN LOG TICKS KIND`. PLAN is the file of a
//! plan, LOG the number of a random log, and TICKS how many ticks of it there are. KIND is one of
//!
//! - `ticks`: they pass;
//! - `undo`: they pass, and each is taken back;
//! - `when`: they pass, and the last change of watched values is asked for, many times;
//! - `lines`: a session steps through them, and its display lines are counted;
//! - `status`: they pass, and the status is asked for after each;
//! - `all`: these five, one after the other;
//! - `log`: the log is written.
//!
//! What was counted is written, and with a fifth word, `times`, also how long it took.

mod asked;
mod counted;
mod measured;
mod random;
mod random_log;
mod watches;

use crate::timed::asked::{Asked, Kind, read_words};
use crate::timed::measured::Measured;
use crate::timed::random_log::random_log;
use anyhow::{Context, Result};
use std::fs;
use std::io::{self, Write};
use tsb_text::{Log, read_log, read_plan};

/// Does what the words ask for, after the program's name.
pub fn timed(rt: &HostRuntime, words: &[String]) -> Result<()> {
    let asked = read_words(words)?;
    let text = random_log(rt.alloc(), asked.log, asked.ticks)?;
    if asked.kind == Kind::Log {
        io::writer(rt).write_all(&text)?;
        return Ok(());
    }
    let log = read_log(rt.alloc(), &text)?;
    measure(rt, &asked, &log)
}

/// Measures what was asked for.
fn measure(rt: &HostRuntime, asked: &Asked<'_>, log: &Log) -> Result<()> {
    let text = fs::read(rt, asked.plan).context("the plan")?;
    let measured = Measured {
        rt,
        plan: read_plan(rt.alloc(), &text)?,
        log,
        ticks: asked.ticks,
        is_timed: asked.is_timed,
    };
    if asked.has(Kind::Ticks) {
        let _bench = measured.pass()?;
    }
    if asked.has(Kind::Undo) {
        measured.take_back()?;
    }
    if asked.has(Kind::When) {
        measured.ask()?;
    }
    if asked.has(Kind::Lines) {
        measured.step()?;
    }
    if asked.has(Kind::Status) {
        measured.ask_status()?;
    }
    Ok(())
}
