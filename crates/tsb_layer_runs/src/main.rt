//! Runs each layer alone over stored runs of an independent reference: tick by tick what the layer is given, what it
//! answers, and which of its cells change, with what they held.
//!
//! With the words `time ROUNDS` each layer but the desk is timed then, on plan `quad` and a random log of 20,000 ticks:
//! that many rounds, or one if there is no number. With `time ROUNDS TIMES` each tick repeats that many times, and
//! those that change nothing are passed over.
#![tactic(auto)]

mod asked;
mod calling;
mod coordinating;
mod desking;
mod detecting;
mod driven;
mod fault;
mod given;
mod heading;
mod numbers;
mod phasing;
mod plans;
mod preempting;
mod ringing;
mod timed;

use crate::asked::Asked;
use crate::calling::Calling;
use crate::coordinating::Coordinating;
use crate::desking::Desking;
use crate::detecting::Detecting;
use crate::driven::{Driven, Ticked, check};
use crate::heading::Heading;
use crate::phasing::Phasing;
use crate::plans::Plans;
use crate::preempting::Preempting;
use crate::ringing::Ringing;
use crate::timed::{read, run, run_passing};
use anyhow::{Context, Result};
use std::time::Instant;
use std::{env, fs, io};
use tsb_objects::Checked;

fn main(rt: HostRuntime) -> Result<()> {
    let mut words = Vec::new(rt.alloc());
    for word in env::args(&rt)? {
        words.push(word)?;
    }
    let asked = Asked::read(&words);
    let text = fs::read(&rt, "plans.txt").context("plans.txt")?;
    let plans = Plans::read(rt.alloc(), &text)?;
    check_file::<Detecting>(&rt, "detectors", &plans)?;
    check_file::<Preempting>(&rt, "preempts", &plans)?;
    check_file::<Phasing>(&rt, "phases", &plans)?;
    check_file::<Ringing>(&rt, "rings", &plans)?;
    check_file::<Heading>(&rt, "heads", &plans)?;
    check_file::<Coordinating>(&rt, "coordination", &plans)?;
    check_file::<Calling>(&rt, "calls", &plans)?;
    check_file::<Desking>(&rt, "desk", &plans)?;
    match asked {
        Some(asked) => time_all(&rt, asked),
        None => Ok(()),
    }
}

/// Writes how many ticks or calls of a layer's stored runs are as they should be.
fn check_file<D: Driven>(rt: &HostRuntime, name: &str, plans: &Plans) -> Result<()> {
    let path = format!(in rt.alloc(); "{name}.runs")?;
    let text = fs::read(rt, path.as_str()).context(format_args!("{path}"))?;
    check::<D, _>(rt.alloc(), name, plans, &text, &mut io::writer(rt))?;
    Ok(())
}

/// Writes how long each layer but the desk takes.
fn time_all(rt: &HostRuntime, asked: Asked) -> Result<()> {
    let text = fs::read(rt, "timed/plans.txt").context("timed/plans.txt")?;
    let plans = Plans::read(rt.alloc(), &text)?;
    let plan = plans.get(0)?;
    time::<Detecting>(rt, "detectors", plan, asked)?;
    time::<Preempting>(rt, "preempts", plan, asked)?;
    time::<Coordinating>(rt, "coordination", plan, asked)?;
    time::<Calling>(rt, "calls", plan, asked)?;
    time::<Phasing>(rt, "phases", plan, asked)?;
    time::<Ringing>(rt, "rings", plan, asked)?;
    time::<Heading>(rt, "heads", plan, asked)
}

/// Writes how long this many rounds of a layer's stored ticks take.
fn time<T: Driven + Ticked>(
    rt: &HostRuntime,
    name: &str,
    plan: &Checked,
    asked: Asked,
) -> Result<()> {
    let path = format!(in rt.alloc(); "timed/{name}.runs")?;
    let text = fs::read(rt, path.as_str()).context(format_args!("{path}"))?;
    let givens = read::<T>(rt.alloc(), &text)?;
    let rounds = asked.rounds;
    let start = Instant::now(rt)?;
    let mut sum = 0u32;
    for _round in 0..rounds {
        let ran = match asked.times {
            None => run::<T>(rt.alloc(), plan, &givens)?,
            Some(times) => run_passing::<T>(rt.alloc(), plan, &givens, times)?,
        };
        sum = sum.rotate_left(1) ^ ran;
    }
    let time = start.elapsed(rt)?;
    println!(rt;
        "{name}.runs: {time:?} for {rounds} rounds of {} ticks, {} times each ({sum})",
        givens.len(),
        asked.times.unwrap_or(1)
    )?;
    Ok(())
}
