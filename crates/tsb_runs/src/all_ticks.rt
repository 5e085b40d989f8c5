//! A run through all ticks that there are: `play` takes the first of them, and the bench is copied at the last one.

use crate::played::{played, show, undo};
use std::alloc::{AllocError, Global};
use std::io;
use tsb_bench::{Answer, Bench, Cmd, Input};
use tsb_objects::{Refusal, Row};
use tsb_text::{Checked, Plan, line};

/// How many ticks are played at once: more than a million.
const PLAYED: usize = 1_100_000;

/// A tick with all inputs off.
fn tick() -> Input {
    Input::Tick(Row::all_off())
}

/// The ticks that are played.
fn ticks(alloc: Global) -> Result<Vec<Cmd>, AllocError> {
    let mut commands = Vec::new(alloc);
    for _ in 0..PLAYED {
        commands.push(Cmd::Apply(tick()))?;
    }
    Ok(commands)
}

/// How many of the answers say that the input was taken.
fn taken(answers: &[Answer]) -> usize {
    let mut count: usize = 0;
    for answer in answers {
        if *answer == Answer::Took {
            count = count.saturating_add(1);
        }
    }
    count
}

/// Plays ticks on the built-in plan of two phases, and takes single ones up to the last that there is. It writes how many
/// were taken, and what the bench shows in between and at the end; then what the copy of it and the bench say of one tick
/// more, and that they can be wound back to power-up, and no further.
pub fn all_ticks(rt: &HostRuntime) -> io::Result<()> {
    let Ok(commands) = ticks(rt.alloc()) else {
        return println!(rt; "commands: memory");
    };
    let Ok(plan) = Checked::new(Plan::two()) else {
        return println!(rt; "plan: refused");
    };
    match played(rt.alloc(), plan, &commands) {
        Ok((mut bench, answers)) => go_on(rt, &mut bench, &answers),
        Err(_) => println!(rt; "play: memory"),
    }
}

/// Writes how many ticks a bench took and what it shows, takes all others that there are, and winds a copy and the bench
/// back.
fn go_on(rt: &HostRuntime, bench: &mut Bench, answers: &[Answer]) -> io::Result<()> {
    println!(rt;
        "{} of {} taken: {}",
        taken(answers),
        answers.len(),
        line(bench).as_str()
    )?;
    if let Err(refusal) = pass(bench) {
        return println!(rt; "tick: {refusal:?}");
    }
    match bench.clone_in(rt.alloc()) {
        Ok(mut copy) => wind_back(rt, "copy", &mut copy)?,
        Err(refusal) => println!(rt; "copy: {refusal:?}")?,
    }
    wind_back(rt, "bench", bench)
}

/// Takes all ticks that there are.
fn pass(bench: &mut Bench) -> Result<(), Refusal> {
    for _ in bench.now()..Bench::TICKS {
        bench.apply(tick())?;
    }
    Ok(())
}

/// Writes what a bench shows and says of one tick more, and what it shows and undoes once it is wound back to power-up.
fn wind_back(rt: &HostRuntime, name: &str, bench: &mut Bench) -> io::Result<()> {
    show(rt, name, bench)?;
    let more = bench.apply(tick());
    println!(rt; "{name}: {more:?}")?;
    let sought = bench.seek(0);
    println!(rt; "{name}: {sought:?}")?;
    show(rt, name, bench)?;
    undo(rt, name, bench)
}
