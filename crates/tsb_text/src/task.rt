//! What a command asks.
ghost use Rattle.std.specs.Prelude.{◌≡◌};
ghost use Rattle.tsb_text.specs.Tasks.{AsksNoTick, task_of};

use tsb_bench::{Cmd, Input};
use tsb_command_text::Command;

/// What a command asks.
#[derive(Clone, Copy)]
pub enum Task {
    /// So many ticks.
    Ticks(u32),
    /// The display line.
    Show,
    /// The end.
    Quit,
    /// This, of the bench.
    Ask(Cmd),
}

/// What a command asks.
pub fn task_of(command: Command) -> Task
    ensures task { result ≡ task_of command }
    ensures no_tick { AsksNoTick result }
{
    match command {
        Command::Step(ticks) => Task::Ticks(ticks),
        Command::Show => Task::Show,
        Command::Quit => Task::Quit,
        Command::Back(ticks) => Task::Ask(Cmd::Back(ticks)),
        Command::Seek(tick) => Task::Ask(Cmd::Seek(tick)),
        Command::Undo => Task::Ask(Cmd::Undo),
        Command::When(watch) => Task::Ask(Cmd::When(watch)),
        Command::Begin(station) => Task::Ask(Cmd::Apply(Input::Begin(station))),
        Command::Set(station, id, value) => Task::Ask(Cmd::Apply(Input::Set(station, id, value))),
        Command::Verify(station) => Task::Ask(Cmd::Apply(Input::Verify(station))),
        Command::Commit(station) => Task::Ask(Cmd::Apply(Input::Commit(station))),
        Command::Abort(station) => Task::Ask(Cmd::Apply(Input::Abort(station))),
        Command::Pattern(number) => Task::Ask(Cmd::Apply(Input::Pattern(number))),
        Command::Preempt(number, on) => Task::Ask(Cmd::Apply(Input::Switch(number, on))),
        Command::Fault(lamp) => Task::Ask(Cmd::Apply(Input::Fault(lamp))),
        Command::Reset => Task::Ask(Cmd::Apply(Input::Reset)),
        Command::Clock(time) => Task::Ask(Cmd::Apply(Input::Clock(time))),
        Command::Omit(list) => Task::Ask(Cmd::Apply(Input::Omit(list))),
    }
}
