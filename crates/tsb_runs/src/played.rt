//! Commands that are played on the built-in plans.

use crate::commands::commands;
use std::alloc::Global;
use std::io;
use tsb_bench::{Answer, Bench, Cmd, play};
use tsb_objects::Refusal;
use tsb_text::{Checked, Plan, line};

/// Plays commands of every kind but the one of this number, if there is one, and copies the bench that they leave. It
/// writes what is answered and shown.
pub fn all_kinds(rt: &HostRuntime, left_out: u32) -> io::Result<()> {
    let Ok(commands) = commands(rt.alloc(), left_out) else {
        return println!(rt; "commands: memory");
    };
    let Ok(plan) = Checked::new(Plan::quad()) else {
        return println!(rt; "plan: refused");
    };
    match played(rt.alloc(), plan, &commands) {
        Ok((mut bench, answers)) => tell_all(rt, &mut bench, &answers),
        Err(_) => println!(rt; "play: memory"),
    }
}

/// Plays commands. What `play` promises is no help to what calls this, and would be looked through there again and again.
pub fn played(
    alloc: Global,
    plan: Checked,
    commands: &[Cmd],
) -> Result<(Bench, Vec<Answer>), Refusal> {
    play(alloc, plan, commands)
}

/// Writes answers, then what a copy of the bench and the bench itself show and undo.
fn tell_all(rt: &HostRuntime, bench: &mut Bench, answers: &[Answer]) -> io::Result<()> {
    for answer in answers {
        println!(rt; "{answer:?}")?;
    }
    match bench.clone_in(rt.alloc()) {
        Ok(mut copy) => tell(rt, "copy", &mut copy)?,
        Err(refusal) => println!(rt; "copy: {refusal:?}")?,
    }
    tell(rt, "bench", bench)
}

/// Writes what a bench shows, and what it then undoes.
fn tell(rt: &HostRuntime, name: &str, bench: &mut Bench) -> io::Result<()> {
    show(rt, name, bench)?;
    for _ in 0..60 {
        undo(rt, name, bench)?;
    }
    show(rt, name, bench)
}

/// Writes what a bench shows.
pub fn show(rt: &HostRuntime, name: &str, bench: &Bench) -> io::Result<()> {
    println!(rt; "{name}: {}", line(bench).as_str())
}

/// Undoes the last input of a bench, and writes what came of it.
pub fn undo(rt: &HostRuntime, name: &str, bench: &mut Bench) -> io::Result<()> {
    let undone = bench.undo();
    println!(rt; "{name}: {undone:?}")
}
