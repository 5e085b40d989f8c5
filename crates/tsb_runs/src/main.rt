//! Runs for tools that compare or time: commands that are played, all ticks, and a random log.
//!
//! With words it runs the whole bench on a random log, see `timed`. Without words its input is `all ticks`, or the
//! number of a command that is left out, or nothing. Given a number or nothing it plays commands of every kind on the
//! plan of eight phases. It writes the answer to each, then what the copy and the bench show and undo; or what memory
//! ran out for. tools/programs/refused_calls.py refuses its requests for memory one after another, and leaves out the
//! input that was refused, to see that the others are answered the same. For `all ticks` see `all_ticks`.
#![tactic(auto)]

mod all_ticks;
mod commands;
mod played;
mod timed;

use crate::all_ticks::all_ticks;
use crate::played::all_kinds;
use crate::timed::timed;
use anyhow::Result;
use std::env;
use std::io::{self, Read};
use tsb_lines::number;

/// Does what the words ask for, or, where there are none, standard input.
fn main(rt: HostRuntime) -> Result<()> {
    let Ok(words) = given_words(&rt) else {
        println!(rt; "words: memory")?;
        return Ok(());
    };
    if words.len() > 1 {
        return timed(&rt, &words[1..]);
    }
    play_input(&rt)?;
    Ok(())
}

/// The words of the command line, the program's name first.
fn given_words(rt: &HostRuntime) -> Result<Vec<String>> {
    let mut words = Vec::new(rt.alloc());
    for word in env::args(rt)? {
        words.push(word)?;
    }
    Ok(words)
}

/// Does what standard input asks for.
fn play_input(rt: &HostRuntime) -> io::Result<()> {
    let mut text = [0; 16];
    let count = rt.reader().read(&mut text)?;
    let given = &text[..count];
    if given == b"all ticks".as_slice() {
        return all_ticks(rt);
    }
    all_kinds(rt, number(given).unwrap_or(0))
}
