//! The words of `tsb`, and what they ask for.
ghost use Rattle.std.specs.Prelude.{◌≡◌, map, option_map};
ghost use Rattle.clap.specs.Simple.{subcommand_rows_of};
ghost use Rattle.tsb_words.specs.BenchProgram.{asked_by};
ghost use Rattle.tsb_words.specs.BenchWords.{Spells, seen};

use crate::commands::{Argument, Leaf, Program};
use crate::error::WordsError;
use crate::matches::matches_of;
use clap::ArgMatches;
use std::alloc::Global;
use std::convert::AsStr;

/// The command of the program. It needs no subcommand.
const PROGRAM: Program = Program {
    top: Leaf {
        name: "tsb",
        arguments: &[],
    },
    subcommands: &[
        Leaf {
            name: "check",
            arguments: &[Argument::File("PLAN")],
        },
        Leaf {
            name: "run",
            arguments: &[Argument::File("PLAN"), Argument::File("LOG")],
        },
    ],
};

/// What the words ask for.
#[derive(Clone, Copy)]
pub enum Asked<'a> {
    /// To judge the plan in this file.
    Check(&'a str),
    /// To run a session on the plan and the log in these files.
    Run(&'a str, &'a str),
    /// To run a session on the built-in plan with an empty log.
    BuiltIn,
}

/// What the words ask for, the first of which is the program's name.
///
/// `check PLAN` and `run PLAN LOG` name files, and no word after the name asks for the built-in plan. A word `--` is
/// passed over once, and what follows it is not a flag: so a file whose name begins with a hyphen is named after it.
/// All else is `Bad`, and so is a request for help. `Memory` may come in place of every answer, as `clap` allocates.
pub fn read_words<'a, S: AsStr>(alloc: Global, words: &'a [S]) -> Result<Asked<'a>, WordsError>
    ensures { Spells (map S.text words.now) result }
{
    let matches = match matches_of(alloc, &PROGRAM, words) {
        Ok(matches) => matches,
        Err(error) => return Err(error),
    };
    match asked_of(&matches) {
        Some(asked) => Ok(asked),
        None => Err(WordsError::Bad),
    }
}

/// What the subcommand that was met asks for, with the files that were named. It needs no memory.
fn asked_of<'a>(matches: &ArgMatches<'a>) -> Option<Asked<'a>>
    ensures { option_map seen result ≡ asked_by (subcommand_rows_of matches.now) }
{
    let Some((name, files)) = matches.subcommand() else {
        return Some(Asked::BuiltIn);
    };
    let Some(plan) = files.get_str("PLAN") else {
        return None;
    };
    if name == "check" {
        return Some(Asked::Check(plan));
    }
    let Some(log) = files.get_str("LOG") else {
        return None;
    };
    Some(Asked::Run(plan, log))
}
