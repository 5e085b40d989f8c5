//! The commands of the programs, as tables, and how `clap` is told of them.
ghost use Rattle.std.specs.Prelude.{◌≡◌, IfOk, false};
ghost use Rattle.clap.specs.Words.{app_of, rule_of, with_subcommand};
ghost use Rattle.tsb_words.specs.Commands.{IsLeaf, app_of_program, app_over, leaf_shape, option_rule, rule_of_argument};

use clap::{Arg, ArgAction, Command};
use std::alloc::{AllocError, Global};

/// An argument of a command, by its name.
#[derive(Clone, Copy)]
pub(crate) enum Argument {
    /// A file that has to be named.
    File(&'static str),
    /// An option with one value, `--NAME VALUE`, that may come once.
    Optional(&'static str),
    /// An option that has to come.
    Required(&'static str),
    /// A flag, `--NAME`, that may come once.
    Flag(&'static str),
    /// An option that may come several times, with a value each.
    Repeated(&'static str),
}

/// A command with no subcommand.
#[derive(Clone, Copy)]
pub(crate) struct Leaf {
    pub(crate) name: &'static str,
    pub(crate) arguments: &'static [Argument],
}

/// The command of a program.
#[derive(Clone, Copy)]
pub(crate) struct Program {
    /// Its name, with its own arguments.
    pub(crate) top: Leaf,
    pub(crate) subcommands: &'static [Leaf],
}

/// The command of a program, as `clap` reads it.
pub(crate) fn command_of<'a>(alloc: Global, program: &Program) -> Result<Command<'a>, AllocError>
    ensures { IfOk result (λ command. app_of command ≡ app_of_program program.now) }
{
    match leaf_of(alloc, &program.top) {
        Ok(top) => with_subcommands(alloc, top, program.subcommands),
        Err(error) => Err(error),
    }
}

/// The command with these subcommands after its own.
fn with_subcommands<'a>(
    alloc: Global,
    top: Command<'a>,
    subcommands: &[Leaf],
) -> Result<Command<'a>, AllocError>
    ensures { IfOk result (λ command. app_of command ≡ app_over (app_of top.entry) subcommands.now) }
{
    let mut command = top;
    for subcommand in subcommands {
        match with_subcommand(alloc, command, subcommand) {
            Ok(more) => command = more,
            Err(error) => return Err(error),
        }
    }
    Ok(command)
}

/// The command with this subcommand after its own.
fn with_subcommand<'a>(
    alloc: Global,
    command: Command<'a>,
    subcommand: &Leaf,
) -> Result<Command<'a>, AllocError>
    ensures { IfOk result (λ more. app_of more ≡ with_subcommand (app_of command.entry) (leaf_shape subcommand.now)) }
{
    match leaf_of(alloc, subcommand) {
        Ok(leaf) => command.subcommand(leaf),
        Err(error) => {
            drop(command);
            Err(error)
        }
    }
}

/// A command with no subcommand, as `clap` reads it.
fn leaf_of<'a>(alloc: Global, leaf: &Leaf) -> Result<Command<'a>, AllocError>
    ensures { IfOk result (IsLeaf leaf.now) }
{
    let mut command = Command::new(alloc, leaf.name);
    for argument in leaf.arguments {
        match command.arg(arg(alloc, argument)) {
            Ok(more) => command = more,
            Err(error) => return Err(error),
        }
    }
    Ok(command)
}

/// An argument, as `clap` reads it.
fn arg<'a>(alloc: Global, argument: &Argument) -> Arg<'a>
    ensures rule { rule_of result ≡ rule_of_argument argument.now }
    ensures own { result.global ≡ false }
{
    match *argument {
        Argument::File(name) => Arg::new(alloc, name).required(true),
        Argument::Optional(name) => option(alloc, name),
        Argument::Required(name) => option(alloc, name).required(true),
        Argument::Flag(name) => option(alloc, name).action(ArgAction::SetTrue),
        Argument::Repeated(name) => option(alloc, name).action(ArgAction::Append),
    }
}

/// An option with one value, that may come once.
fn option<'a>(alloc: Global, name: &'a str) -> Arg<'a>
    ensures rule { rule_of result ≡ option_rule name.now }
    ensures own { result.global ≡ false }
{
    Arg::new(alloc, name).long(name)
}
