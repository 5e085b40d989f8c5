//! What holds of every bench that `play` of tsb_bench leaves: the laws of runs, said of its state, of the inputs that
//! remain, and of each state that it can go back to.
ghost use Rattle.std.specs.Prelude.{◌≡◌, ℕ, ◌≤◌, length, drop, IfErr, IfOk};
ghost use Rattle.tsb_types.specs.declared.refusal.Refusal.TheVariants.{Memory};
ghost use Rattle.tsb_step.specs.MonitorLaws.{IsLamp};
ghost use Rattle.tsb_step.specs.Past.{earlier};
ghost use Rattle.tsb_step.specs.Play.{remaining};
ghost use Rattle.tsb_step.specs.Runs.{replay, AreTaken};
ghost use Rattle.tsb_step.specs.tsb_objects.Checked.{checked_plan};
ghost use Rattle.tsb_bench.specs.Held.{state_of, whole};
ghost use Rattle.tsb_laws.specs.PlayLaws.{KeepsLaws};
ghost use Rattle.tsb_laws.specs.PlayRecords.{IsTypedCommand, KeepsRecords};
ghost use Rattle.tsb_laws.specs.Runs.{AreTyped, IsTyped};

use std::alloc::Global;
use tsb_bench::{Answer, Bench, Checked, Cmd, Input, Lamp, Refusal, play};

/// The bench that `play` leaves keeps the laws of runs. From power-up with this plan, after these commands with these
/// answers, each law of runs of tsb_step, of `safety`, `heads`, `operation` and `options` holds of its state, of the
/// inputs that remain and of the next input, whatever that is (`KeepsLaws`). So it is of each state that it can go back
/// to. At each moment a session is where `play` leaves the commands so far.
///
/// Needs: what `play` promises, in its clauses `taken`, `state` and `earlier`.
/// Not said: laws of two runs (`desks_act_by_plans`, `limits_change_no_run`, `converted_offsets_change_no_run`); laws
/// of any state or of a layer, which need no run.
/// Mistake: an input that is carried out though it was refused, `carried_out` (`breaks_none`, `would_break_K5`).
/// Witness: `are_right`, `are_taken` of Mistakes, a session with a commit that E7 refuses.
pub fn plays_keep_the_laws(plan: Checked, commands: &[Cmd], answers: &[Answer], bench: &Bench)
    requires taken { AreTaken (checked_plan plan) (remaining (checked_plan plan) commands.now answers.now) }
    requires state { state_of bench.now ≡ replay (checked_plan plan) (remaining (checked_plan plan) commands.now answers.now) }
    requires earlier { (k : ℕ) → k ≤ length (remaining (checked_plan plan) commands.now answers.now) →
        (earlier (whole bench.now) k).state ≡ replay (checked_plan plan) (drop k (remaining (checked_plan plan) commands.now answers.now)) }
    ensures now { KeepsLaws (checked_plan plan) (remaining (checked_plan plan) commands.now answers.now) (state_of bench.now) }
    ensures earlier { (k : ℕ) → k ≤ length (remaining (checked_plan plan) commands.now answers.now) →
        KeepsLaws (checked_plan plan) (drop k (remaining (checked_plan plan) commands.now answers.now)) (earlier (whole bench.now) k).state }
{}

/// The bench that `play` leaves keeps the laws of cells and records. Its cells are its state, the record of each input
/// that remains gives the state before it back, and the next tick writes no timer that waits or runs on
/// (`KeepsRecords`).
///
/// Needs: what `play` promises, in its clauses `taken` and `state`, and inputs whose numbers are of the program's types,
/// as those of all commands are (`inputs_are_typed`).
/// Mistake: an input that is carried out though it was refused, `carried_out` (`breaks_none`, `would_break_K5`).
/// Witness: `are_right`, `are_taken`, `are_typed` of Mistakes, the same session.
pub fn plays_keep_the_records(plan: Checked, commands: &[Cmd], answers: &[Answer], bench: &Bench)
    requires taken { AreTaken (checked_plan plan) (remaining (checked_plan plan) commands.now answers.now) }
    requires state { state_of bench.now ≡ replay (checked_plan plan) (remaining (checked_plan plan) commands.now answers.now) }
    requires typed { AreTyped (remaining (checked_plan plan) commands.now answers.now) }
    ensures { KeepsRecords (checked_plan plan) (remaining (checked_plan plan) commands.now answers.now) (state_of bench.now) }
{}

/// Whether a lamp is of a head that there is: its type says so.
fn lamp_is_typed(lamp: &Option<Lamp>)
    ensures { IsLamp lamp.now }
{
    match lamp {
        None => {}
        Some(Lamp::Phase(phase, _)) => phase.known(),
        Some(Lamp::Pedestrian(phase, _)) => phase.known(),
        Some(Lamp::Overlap(overlap, _)) => overlap.known(),
        Some(Lamp::Arrow(overlap)) => overlap.known(),
    }
}

/// The numbers of an input are of the program's types.
fn input_is_typed(input: &Input)
    ensures { IsTyped input.now }
{
    match input {
        Input::Fault(lamp) => lamp_is_typed(lamp),
        Input::Begin(station) => station.known(),
        Input::Clock(time) => {
            let _number = time.number();
        }
        _ => {}
    }
}

/// The numbers of a command are of the program's types.
fn command_is_typed(command: &Cmd)
    ensures { IsTypedCommand command.now }
{
    match command {
        Cmd::Apply(input) => input_is_typed(input),
        _ => {}
    }
}

/// The numbers of all commands are of the program's types, and so are those of the inputs that remain after any answers.
pub fn inputs_are_typed(plan: Checked, commands: &[Cmd], answers: &[Answer])
    ensures { AreTyped (remaining (checked_plan plan) commands.now answers.now) }
{
    for command in commands {
        command_is_typed(command);
    }
}

/// Plays commands from power-up, as `play` does: so what `plays_keep_the_laws` and `plays_keep_the_records` need is
/// what `play` gives. The only `Err` is `Refusal::Memory`.
pub fn play_by_the_laws(
    alloc: Global,
    plan: Checked,
    commands: &[Cmd],
) -> Result<(Bench, Vec<Answer>), Refusal>
    ensures memory { IfErr result (λ e. e ≡ Memory) }
    ensures laws { IfOk result (λ r. KeepsLaws (checked_plan plan) (remaining (checked_plan plan) commands.now r.1.items) (state_of r.0)) }
    ensures records { IfOk result (λ r. KeepsRecords (checked_plan plan) (remaining (checked_plan plan) commands.now r.1.items) (state_of r.0)) }
{
    let (bench, answers) = play(alloc, plan, commands)?;
    inputs_are_typed(plan, commands, &answers);
    plays_keep_the_laws(plan, commands, &answers, &bench);
    plays_keep_the_records(plan, commands, &answers, &bench);
    Ok((bench, answers))
}
