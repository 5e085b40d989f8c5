//! The lines of a session that remain, kept by their changes.
ghost use Rattle.std.specs.Prelude.{◌≡◌, ◌≤◌, ◌<◌, ◌-◌, ◌++◌, ◌∷◌, [], ℕ, List, length, slice_index_or, OnOk, OnErr};
ghost use Rattle.tsb_field_display.specs.declared.shown.Shown.{Shown};
ghost use Rattle.tsb_field_display.specs.Remaining.{Keeps, Rises, before_tick, changes_in, last_in, no_line, shows_last};

use crate::shown::{Shown, Signals, same};
use std::alloc::{AllocError, Global};

/// What remains of the lines of a session. A line whose tick is not above the last one takes back the lines from that
/// tick on, as a session does that goes back, and is then the last one. Only the first line is kept and those that show
/// something other than the line before, so memory grows with changes and not with ticks.
#[derive(Drop)]
pub struct Replay {
    changes: Vec<Shown>,
    last: Option<u32>,
}

impl Replay {
    /// The replay of no line. It takes no memory.
    pub fn new(alloc: Global) -> Replay
        ensures { Keeps result [] }
    {
        Replay {
            changes: Vec::new(alloc),
            last: None,
        }
    }

    /// Takes a further line. Where memory runs out, the changes that it takes back are gone, the last tick is as it was, and
    /// the line does not count: no further line is taken then.
    pub fn push(&mut self, shown: Shown) -> Result<(), AllocError>
        ensures ok { (lines : List Shown) → Keeps self.old lines → OnOk result (Keeps self.new (lines ++ shown ∷ [])) }
        ensures err { (lines : List Shown) → Keeps self.old lines →
            OnErr result (changes_in self.new ≡ before_tick shown.tick (changes_in self.old)) }
        ensures last { OnErr result (last_in self.new ≡ last_in self.old) }
    {
        let count = count_before(&self.changes, shown.tick);
        self.changes.truncate(count);
        if !shows_last(&self.changes, &shown.signals) {
            self.changes.push(shown)?;
        }
        self.last = Some(shown.tick);
        Ok(())
    }

    /// The first line that remains, and those that show something other than the line before. Their ticks rise.
    pub fn changes(&self) -> &[Shown]
        ensures { result.now ≡ changes_in self.now }
    {
        &self.changes
    }

    /// The tick of the last line, or `None` where there was none.
    pub fn last_tick(&self) -> Option<u32>
        ensures { result ≡ last_in self.now }
    {
        self.last
    }
}

/// How many of the lines are before a tick, found from the end. The ticks of the lines rise.
fn count_before(lines: &[Shown], tick: u32) -> usize
    ensures within { result ≤ length lines.now }
    ensures above { (j : ℕ) → result ≤ j → j < length lines.now → tick ≤ (slice_index_or lines.now j no_line).tick }
    ensures below { 0 < result → (slice_index_or lines.now (result - 1) no_line).tick < tick }
{
    let mut count = lines.len();
    while count > 0 {
        if lines[count - 1].tick < tick {
            break;
        }
        count -= 1;
    }
    count
}

/// Whether the last of the lines shows the same as this.
fn shows_last(lines: &[Shown], signals: &Signals) -> bool
    ensures { result ≡ shows_last lines.now signals.now }
{
    if lines.is_empty() {
        return false;
    }
    same(&lines[lines.len() - 1].signals, signals)
}
