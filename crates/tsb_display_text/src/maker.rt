//! Display lines made one after another.
ghost use Rattle.std.specs.Prelude.{◌≡◌, if◌then◌else◌, None, false, take};
ghost use Rattle.tsb_heads.specs.Reading.{heads_of};
ghost use Rattle.tsb_display_text.specs.Line.{line_in, wide_line_of};
ghost use Rattle.tsb_display_text.specs.Rounds.{IsOfRound};

use crate::display_line::{LOCAL, PREEMPT, TICK, UNITS, WIDTH, WideBytes, bytes_of, put};
use crate::letters::Letters;
use crate::numbers::{local_digits, preempt_digit};
use std::marker::Model;
use tsb_heads::Display;
use tsb_lines::{digit, seven_digits};
use tsb_types::Preempt;

/// The text of a display line, without a line feed. Clauses see it as the list of its bytes.
#[derive(Drop)]
pub struct LineText {
    bytes: WideBytes,
    /// Whether it has all fields of a wide line.
    is_wide: bool,
}

impl Model for LineText {
    ghost use Rattle.std.specs.Prelude.{ℕ, List, if◌then◌else◌, take};

    ghost Value = { List ℕ };

    ghost view = { λ line. if line.is_wide then line.bytes else take 53 line.bytes };
}

impl LineText {
    /// The bytes of the line.
    #[inline(always)]
    pub fn as_bytes(&self) -> &[u8]
        ensures { result.now ≡ self.now }
    {
        shown(&self.bytes, self.is_wide)
    }
}

/// Makes display lines one after another, each in the place of the one before. It finds letters anew only where the heads
/// show something else than in the line before, as most ticks change no head. Most digits it finds only at each tenth
/// tick. Clauses see it as the bytes of the line that it made last.
#[derive(Drop)]
pub struct LineMaker {
    /// The line, with all fields of a wide line.
    line: WideBytes,
    /// What the heads show in the line.
    heads: Display,
    /// The tick number of the line with a 0 for its last digit.
    round: u32,
    /// Whether the line is a wide one.
    is_wide: bool,
}

impl Model for LineMaker {
    ghost use Rattle.std.specs.Prelude.{ℕ, List, if◌then◌else◌, take};
    ghost use Rattle.tsb_heads.specs.Reading.{heads_of};
    ghost use Rattle.tsb_display_text.specs.Rounds.{IsOfRound};

    ghost Value = { List ℕ };

    ghost view = { λ maker. if maker.is_wide then maker.line else take 53 maker.line };

    ghost invariant = { λ maker. IsOfRound maker.line maker.round (heads_of maker.heads) };
}

impl LineMaker {
    /// One whose line is that of these heads at tick 0, without a preempt and a local counter.
    pub fn new(heads: &Display) -> LineMaker
        ensures { result ≡ line_in false 0 (heads_of heads.now) None None }
    {
        LineMaker {
            line: bytes_of(0, &Letters::of(heads), None, None),
            heads: *heads,
            round: 0,
            is_wide: false,
        }
    }

    /// Makes the display line at tick number `now`, without a line feed, as `line_bytes` gives it; or the wide line.
    pub fn make(
        &mut self,
        is_wide: bool,
        now: u32,
        heads: &Display,
        preempt: Option<Preempt>,
        local: Option<u32>,
    )
        ensures { self.new ≡ line_in is_wide now (heads_of heads.now) preempt local }
    {
        let round = now - now % 10;
        if self.heads == *heads {
            if self.round != round {
                put(&mut self.line, TICK, &seven_digits(round));
                self.round = round;
            }
        } else {
            self.line = bytes_of(round, &Letters::of(heads), None, None);
            self.heads = *heads;
            self.round = round;
        }
        self.line[UNITS] = digit(now, 1);
        self.line[PREEMPT] = preempt_digit(preempt);
        put(&mut self.line, LOCAL, &local_digits(local));
        self.is_wide = is_wide;
    }

    /// The bytes of the line that was made last.
    #[inline(always)]
    pub fn as_bytes(&self) -> &[u8]
        ensures { result.now ≡ self.now }
    {
        shown(&self.line, self.is_wide)
    }

    /// A copy of the line that was made last.
    pub fn text(&self) -> LineText
        ensures { result ≡ self.now }
    {
        LineText {
            bytes: self.line,
            is_wide: self.is_wide,
        }
    }
}

/// What is shown of a line with all fields: all of it where it is wide.
#[inline(always)]
fn shown(line: &WideBytes, is_wide: bool) -> &[u8]
    ensures { result.now ≡ (if is_wide then line.now else take 53 line.now) }
{
    if is_wide { line } else { &line[..WIDTH] }
}
