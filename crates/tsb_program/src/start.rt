//! What the programs have in common at their start: their words, and the stack that a run needs.
ghost use Rattle.std.specs.Prelude.{◌≡◌};
ghost use Rattle.tsb_program.specs.Runs.{after_fault};

use crate::stack::has_stack;
use std::env;
use tsb_text::OnFault;
use tsb_words::WordsError;

/// Gives the words of the command line, the program's name first, once the stack that a run needs is there. The error is
/// `Memory` where there is no memory for the words or for that stack, and `Bad` where a word is not UTF-8.
pub fn words_given(rt: &HostRuntime) -> Result<Vec<String>, WordsError> {
    let words: Vec<String> = env::args(rt)?.collect(rt.alloc())?;
    if has_stack(rt.alloc(), words.len() as u64) {
        Ok(words)
    } else {
        Err(WordsError::Memory)
    }
}

/// What a run does after a line with which something is wrong: a strict one ends there.
pub fn after_fault(is_strict: bool) -> OnFault
    ensures { result ≡ after_fault is_strict }
{
    if is_strict {
        OnFault::Stop
    } else {
        OnFault::GoOn
    }
}
