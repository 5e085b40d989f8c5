//! What answers lines.
ghost use Rattle.std.specs.Prelude.{◌≡◌, false};
ghost use Rattle.tsb_dialog.specs.Blame.{AfterCalls};
ghost use Rattle.tsb_dialog.specs.Says.{Answered};

use crate::pending::Pending;
use std::io::Write;
use tsb_lines::{Watched, WriteError};

/// Whether a dialog goes on after a line.
#[derive(Clone, Copy, PartialEq, Eq)]
pub enum Flow {
    /// The next line is answered.
    On,
    /// No other line is read.
    Over,
}

/// What answers lines, one after another.
pub trait Answers {
    ghost use Rattle.std.specs.Prelude.{ℕ, List};
    ghost use Rattle.tsb_dialog.specs.declared.answers.Flow.{Flow};

    /// What it has come to, in the terms of definitions.
    ghost State: { Type 0 };

    /// It has come to this.
    ghost stands: { Self → State → Type 0 };

    /// What may be said to a line with this number, counted from 1, and what it then comes to.
    ghost says: { State → ℕ → List ℕ → List ℕ → Flow → State → Type 0 };

    /// Answers a line, which is given without its end. Of a longer line than the dialog keeps the first bytes are given.
    /// At an error a first part of an answer was said.
    fn answer<W: Write>(
        &mut self,
        number: u32,
        line: &[u8],
        pending: &mut Pending,
        writer: &mut Watched<W>,
    ) -> Result<Flow, WriteError>
        ensures answered { (s : State) → stands self.old s
            → Answered stands (says s number line.now) result self.new (W.contents writer.old.device) (W.contents writer.new.device) pending.old pending.new }
        ensures blame { writer.old.failed ≡ false → AfterCalls result writer.new.failed };
}
