//! What `clap` reads from words.
ghost use Rattle.std.specs.Prelude.{◌≡◌, map, true};
ghost use Rattle.clap.specs.Words.{app_of, is_simple_and_free};
ghost use Rattle.clap.specs.Simple.{subcommand_rows_of};
ghost use Rattle.tsb_words.specs.Commands.{app_of_program};
ghost use Rattle.tsb_words.specs.Words.{SpelledBy, given_by, given_of, met_by};

use crate::commands::{Program, command_of};
use crate::error::WordsError;
use clap::{ArgMatches, Command};
use std::alloc::Global;
use std::convert::AsStr;

/// The matches of words, the first of which is the program's name, where its command takes them.
pub(crate) fn matches_of<'a, S: AsStr>(
    alloc: Global,
    program: &Program,
    words: &'a [S],
) -> Result<ArgMatches<'a>, WordsError>
    ensures met { is_simple_and_free (app_of_program program.now) ≡ true
        → SpelledBy subcommand_rows_of (met_by (app_of_program program.now) (map S.text words.now)) result }
    ensures given { is_simple_and_free (app_of_program program.now) ≡ true
        → SpelledBy given_of (given_by (app_of_program program.now) (map S.text words.now)) result }
{
    match command_of(alloc, program) {
        Ok(command) => taken(command, words),
        Err(_) => Err(WordsError::Memory),
    }
}

/// The matches of words, where this command takes them.
fn taken<'a, S: AsStr>(command: Command<'a>, words: &'a [S]) -> Result<ArgMatches<'a>, WordsError>
    ensures met { is_simple_and_free (app_of command.entry) ≡ true
        → SpelledBy subcommand_rows_of (met_by (app_of command.entry) (map S.text words.now)) result }
    ensures given { is_simple_and_free (app_of command.entry) ≡ true
        → SpelledBy given_of (given_by (app_of command.entry) (map S.text words.now)) result }
{
    match command.try_get_matches_from(words) {
        Ok(matches) => Ok(matches),
        Err(error) => Err(WordsError::from(error)),
    }
}
