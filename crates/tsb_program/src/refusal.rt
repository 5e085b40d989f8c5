//! Why a text is refused.
ghost use Rattle.std.specs.Prelude.{◌≡◌, ◌++◌, ◌∷◌, ℕ, [], IfOk, List, string_bytes};
ghost use Rattle.tsb_plan_text.specs.FaultLines.{plan_fault};
ghost use Rattle.tsb_program.specs.Lines.{refused_log};

use crate::lines::line_of;
use crate::read::RefusedLog;
use std::alloc::{AllocError, Global};
use tsb_plan_text::PlanError;

/// Why a text is refused: a program reports it by a line of its own.
pub trait TextRefusal: Drop {
    // Its line, without its end.
    ghost told: { Self → List ℕ };

    /// Its line, with its end. The error is that memory ran out.
    fn ended_line(&self, alloc: Global) -> Result<String, AllocError>
        ensures { IfOk result (λ line. string_bytes line ≡ told self.now ++ 10 ∷ []) };
}

impl TextRefusal for PlanError {
    ghost told = { plan_fault };

    fn ended_line(&self, alloc: Global) -> Result<String, AllocError> {
        line_of(alloc, self.line())
    }
}

impl TextRefusal for RefusedLog {
    ghost told = { refused_log };

    fn ended_line(&self, alloc: Global) -> Result<String, AllocError> {
        line_of(alloc, *self)
    }
}
