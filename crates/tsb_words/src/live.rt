//! The words of `tsb_live`, and what they ask for.
ghost use Rattle.std.specs.Prelude.{◌≡◌, Bool, Some, codes, map, option_map};
ghost use Rattle.clap.specs.Words.{first_of, one_of};
ghost use Rattle.tsb_words.specs.LiveProgram.{flag_text, wish_with};
ghost use Rattle.tsb_words.specs.LiveWords.{Spells, seen};
ghost use Rattle.tsb_words.specs.Words.{given_of};

use crate::commands::{Argument, Leaf, Program};
use crate::error::WordsError;
use crate::matches::matches_of;
use clap::ArgMatches;
use std::alloc::Global;
use std::convert::AsStr;

/// The command of the program.
const PROGRAM: Program = Program {
    top: Leaf {
        name: "tsb_live",
        arguments: &[Argument::File("PLAN"), Argument::Flag("strict")],
    },
    subcommands: &[],
};

/// What the words ask for: a live run.
#[derive(Clone, Copy)]
pub struct Asked<'a> {
    /// The file of the plan.
    pub plan: &'a str,
    /// Whether the run ends at the first line that is refused or is no command.
    pub is_strict: bool,
}

/// What the words ask for, the first of which is the program's name.
///
/// They name the file of a plan. The flag `--strict` may stand before it or after it, once. A word `--` is passed over
/// once, and what follows it is not a flag: so a file whose name begins with a hyphen is named after it. All else is
/// `Bad`, and so is a request for help. `Memory` may come in place of every answer, as `clap` allocates.
pub fn read_words<'a, S: AsStr>(alloc: Global, words: &'a [S]) -> Result<Asked<'a>, WordsError>
    ensures { Spells (map S.text words.now) result }
{
    let matches = match matches_of(alloc, &PROGRAM, words) {
        Ok(matches) => matches,
        Err(error) => return Err(error),
    };
    match asked_of(&matches) {
        Some(asked) => Ok(asked),
        None => Err(WordsError::Bad),
    }
}

/// What was asked for, with the plan that was named and the flag that was set or not. It needs no memory.
fn asked_of<'a>(matches: &ArgMatches<'a>) -> Option<Asked<'a>>
    ensures { (is_strict : Bool) → one_of (codes "strict") (given_of matches.now) ≡ Some (flag_text is_strict)
        → option_map seen result ≡ wish_with (first_of (codes "PLAN") (given_of matches.now)) is_strict }
{
    let Some(plan) = matches.get_str("PLAN") else {
        return None;
    };
    let is_strict = matches.get_flag("strict");
    Some(Asked { plan, is_strict })
}
