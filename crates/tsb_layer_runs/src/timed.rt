//! A layer that is timed over stored ticks.

use crate::driven::{Changes, Driven, Ticked};
use crate::fault::Fault;
use crate::numbers::Numbers;
use anyhow::Result as Anyhow;
use std::alloc::Global;
use tsb_lines::{next_line, next_word};
use tsb_objects::Checked;

/// How many ticks there are after the next one and before the one that is due.
#[inline(always)]
pub fn ticks_before(due: u32, now: u32) -> u32 {
    due.saturating_sub(now.saturating_add(2))
}

/// A sum of how many cells each tick changes, with one more for a tick that is due.
#[inline(always)]
fn summed(sum: u32, changed: usize, is_due: bool) -> u32 {
    sum.rotate_left(3) ^ (changed.min(1000) as u32).saturating_add(u32::from(is_due))
}

/// Runs a layer from power-up, and gives a sum of what each tick changes.
#[inline(never)]
pub fn run<T: Driven + Ticked>(
    alloc: Global,
    plan: &Checked,
    givens: &[T::Given],
) -> Result<u32, Fault> {
    let mut layer = T::power_up(alloc, plan)?;
    let mut out = Changes::new();
    let mut sum = 0u32;
    for given in givens {
        out.clear();
        let answer = layer.tick(given, plan, &mut out)?;
        sum = summed(sum, out.len(), T::is_due(&answer));
    }
    Ok(sum)
}

/// Runs a layer from power-up over ticks that each repeat this many times, like a bench that passes over ticks: it asks
/// after a tick that changed nothing how many may be passed over. Gives a sum as `run` does, of the other ticks.
#[inline(never)]
pub fn run_passing<T: Driven + Ticked>(
    alloc: Global,
    plan: &Checked,
    givens: &[T::Given],
    times: u32,
) -> Result<u32, Fault> {
    let mut layer = T::power_up(alloc, plan)?;
    let mut out = Changes::new();
    let mut sum = 0u32;
    for given in givens {
        let mut is_quiet = false;
        let mut spare = 0u32;
        for _k in 0..times {
            if spare > 0 {
                spare -= 1;
                layer.pass();
                continue;
            }
            let found = if is_quiet {
                layer.spare(given, plan)
            } else {
                0
            };
            out.clear();
            let answer = layer.tick(given, plan, &mut out)?;
            let is_due = T::is_due(&answer);
            sum = summed(sum, out.len(), is_due);
            is_quiet = out.is_empty() && !is_due;
            spare = if is_quiet { found } else { 0 };
        }
    }
    Ok(sum)
}

/// What the ticks of a text give in free operation, one after the other.
pub fn read<T: Ticked>(alloc: Global, text: &[u8]) -> Anyhow<Vec<T::Given>> {
    let mut givens = Vec::new(alloc);
    let mut rest = text;
    for _line in 0..text.len() {
        let (line, behind) = next_line(rest);
        if let Some((kind, words)) = next_word(line) {
            if kind == b"t".as_slice() {
                keep::<T>(&mut givens, words)?;
            }
        }
        match behind {
            Some(behind) => rest = behind,
            None => break,
        }
    }
    Ok(givens)
}

fn keep<T: Ticked>(givens: &mut Vec<T::Given>, words: &[u8]) -> Anyhow<()> {
    let mut numbers = Numbers::of(words);
    let times = numbers.number()?;
    for _k in 0..times {
        let mut again = numbers;
        let mut given = T::read(&mut again)?;
        T::free(&mut given);
        givens.push(given)?;
    }
    Ok(())
}
