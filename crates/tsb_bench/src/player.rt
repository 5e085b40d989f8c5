//! Runs of commands.
ghost use Rattle.std.specs.Prelude.{◌≡◌, ℕ, ◌≤◌, length, drop, reverse, fold, IfOk, IfErr};
ghost use Rattle.tsb_types.specs.declared.refusal.Refusal.TheVariants.{Memory};
ghost use Rattle.tsb_objects.specs.Checked.{checked_plan};
ghost use Rattle.tsb_plan.specs.Plan.{Plan};
ghost use Rattle.tsb_machine.specs.Laws.{GiveBack};
ghost use Rattle.tsb_machine.specs.Play as play;
ghost use Rattle.tsb_step.specs.Past.{controller, earlier};
ghost use Rattle.tsb_step.specs.Play.{records_of, remaining, AreRight};
ghost use Rattle.tsb_step.specs.Runs.{replay, AreTaken};
ghost use Rattle.tsb_step.specs.Signs.{IsSafe};
ghost use Rattle.tsb_step.specs.State.{start};
ghost use Rattle.tsb_step.specs.Step.{step};
ghost use Rattle.tsb_step.specs.Watches.{watched};
ghost use Rattle.tsb_bench.specs.Held.{state_of, whole};

use crate::bench::Bench;
use std::alloc::Global;
use tsb_machine::Answer;
use tsb_objects::{Checked, Refusal};
use tsb_step::Cmd;

/// Carries out a command, and gives its answer. It does what the answer says. So, where the bench has come from
/// power-up by some inputs, the answer is right, and the bench is then one that has come from power-up by the inputs
/// that remain.
pub fn answer(bench: &mut Bench, command: Cmd) -> Answer
    ensures does { play.Does controller watched (whole bench.old) command result (whole bench.new) }
    ensures right { (plan : Plan) → play.Answers controller (start plan) watched (whole bench.old) command result (whole bench.new) }
{
    match command {
        Cmd::Apply(input) => match bench.apply(input) {
            Ok(()) => Answer::Took,
            Err(refusal) => Answer::Refused(refusal),
        },
        Cmd::Undo => match bench.undo() {
            Ok(kind) => Answer::Undone(kind),
            Err(_) => Answer::Nothing,
        },
        Cmd::Back(ticks) => match bench.back(ticks) {
            Ok(()) => Answer::Moved,
            Err(_) => Answer::Nothing,
        },
        Cmd::Seek(tick) => match bench.seek(tick) {
            Ok(()) => Answer::Moved,
            Err(_) => Answer::Nothing,
        },
        Cmd::When(watch) => Answer::Changed(bench.when(watch)),
    }
}

/// Carries out commands in turn, and gives the answer to each. The only `Err` is `Refusal::Memory`: there was no memory
/// for the answers.
fn answer_all(alloc: Global, bench: &mut Bench, commands: &[Cmd]) -> Result<Vec<Answer>, Refusal>
    ensures memory { IfErr result (λ e. e ≡ Memory) }
    ensures done { IfOk result (λ answers. play.DoAll controller watched (whole bench.old) commands.now answers.items (whole bench.new)) }
{
    let mut answers = Vec::new(alloc);
    for command in commands {
        let answer = answer(bench, *command);
        if answers.push(answer).is_err() {
            return Err(Refusal::Memory);
        }
    }
    Ok(answers)
}

/// Runs commands from power-up, and gives the bench then with the answer to each command. The only `Err` is
/// `Refusal::Memory`: there was no memory for the first room of the history or for the answers.
pub fn play(alloc: Global, plan: Checked, commands: &[Cmd]) -> Result<(Bench, Vec<Answer>), Refusal>
    ensures memory { IfErr result (λ e. e ≡ Memory) }
    // There are as many answers as commands, and each is right in its place.
    ensures answers { IfOk result (λ r. AreRight (checked_plan plan) commands.now r.1.items) }
    // Each of the inputs that were not undone was taken.
    ensures taken { IfOk result (λ r. AreTaken (checked_plan plan) (remaining (checked_plan plan) commands.now r.1.items)) }
    // The state is that of a run from power-up on these inputs, the newest first.
    ensures state { IfOk result (λ r. state_of r.0 ≡ replay (checked_plan plan) (remaining (checked_plan plan) commands.now r.1.items)) }
    // The same the other way round: the steps of those inputs, the oldest first.
    ensures in_order { IfOk result (λ r. state_of r.0
        ≡ fold step (start (checked_plan plan)) (reverse (remaining (checked_plan plan) commands.now r.1.items))) }
    // So is each earlier state, without the newest of those inputs.
    ensures earlier { IfOk result (λ r. (k : ℕ) → k ≤ length (remaining (checked_plan plan) commands.now r.1.items) →
        (earlier (whole r.0) k).state ≡ replay (checked_plan plan) (drop k (remaining (checked_plan plan) commands.now r.1.items))) }
    // The history is the records of those inputs and nothing else.
    ensures records { IfOk result (λ r. r.0.records ≡ records_of (checked_plan plan) (remaining (checked_plan plan) commands.now r.1.items)) }
    // The record of each of those inputs gives the state before it back.
    ensures back { IfOk result (λ r. GiveBack controller (start (checked_plan plan)) (remaining (checked_plan plan) commands.now r.1.items)) }
    // Two phases with right of way are concurrent in the plan in effect, in each of these states.
    ensures safe { IfOk result (λ r. (k : ℕ) → IsSafe (earlier (whole r.0) k).state) }
{
    let Ok(mut bench) = Bench::power_up(alloc, plan) else {
        return Err(Refusal::Memory);
    };
    let Ok(answers) = answer_all(alloc, &mut bench, commands) else {
        drop(bench);
        return Err(Refusal::Memory);
    };
    // What `now` promises of every bench holds of this one.
    let _tick = bench.now();
    Ok((bench, answers))
}
