//! The moves of the rings carried out on the phases.
ghost use Rattle.std.specs.Prelude.{◌≡◌, ℕ, ◌+◌, ◌<◌, ◌^◌, true};
ghost use Rattle.tsb_objects.specs.Checked.{checked_plan};
ghost use Rattle.tsb_phase.specs.Cells.{IsBy};
ghost use Rattle.tsb_phase.specs.Layer.{cells_of, kept_of, is_open};
ghost use Rattle.tsb_phase.specs.Promises.{IsClearing, KeepsBy};
ghost use Rattle.tsb_ring.specs.Moves.{is_cleared};
ghost use Rattle.tsb_controller.specs.Carried.{IsEndedIf, IsClearedIf, IsStartedIf, IsOne, AreOnes, CanClear, AreApart, IsCarriedOut};

use tsb_objects::{Checked, Moves, Phase, Timing};
use tsb_phase::{Conditions, Phases};

/// What is known of the number of a phase.
#[inline(always)]
fn known(phase: Option<Phase>)
    ensures { IsOne phase }
{
    if let Some(phase) = phase {
        phase.known();
    }
}

/// What is known of the numbers in moves: each is that of a phase.
#[inline(always)]
fn known_moves(moves: &Moves)
    ensures { AreOnes moves.now }
{
    known(moves.first.ends);
    known(moves.second.ends);
    known(moves.first.clears);
    known(moves.second.clears);
    known(moves.first.starts);
    known(moves.second.starts);
}

/// Ends the green of a phase, if there is one.
#[inline(always)]
fn end_some(
    phases: &mut Phases,
    phase: Option<Phase>,
    now: u32,
    timing: &Timing,
    conditions: &Conditions,
    plan: &Checked,
)
    requires opened { is_open phases.old ≡ true }
    requires fits { now + 1 < 2 ^ 32 }
    requires by { IsBy now (cells_of phases.old) }
    ensures each { IsEndedIf phase now timing.now conditions.now (checked_plan plan.now) (cells_of phases.old) (cells_of phases.new) }
    ensures by { IsBy now (cells_of phases.new) }
    ensures kept { kept_of phases.new ≡ kept_of phases.old }
    ensures opened { is_open phases.new ≡ true }
{
    if let Some(phase) = phase {
        phases.end(phase, now, timing, conditions, plan);
    }
}

/// Makes a phase Red, if there is one.
#[inline(always)]
fn clear_some(phases: &mut Phases, phase: Option<Phase>)
    requires opened { is_open phases.old ≡ true }
    requires clearing { CanClear phase (cells_of phases.old) }
    ensures each { IsClearedIf phase (cells_of phases.old) (cells_of phases.new) }
    ensures by { KeepsBy (cells_of phases.old) (cells_of phases.new) }
    ensures kept { kept_of phases.new ≡ kept_of phases.old }
    ensures opened { is_open phases.new ≡ true }
{
    if let Some(phase) = phase {
        phases.clear(phase);
    }
}

/// Starts a phase, if there is one.
#[inline(always)]
fn start_some(
    phases: &mut Phases,
    phase: Option<Phase>,
    now: u32,
    conditions: &Conditions,
    plan: &Checked,
)
    requires opened { is_open phases.old ≡ true }
    requires fits { now + 1 < 2 ^ 32 }
    requires by { IsBy now (cells_of phases.old) }
    ensures each { IsStartedIf phase now conditions.now (checked_plan plan.now) (cells_of phases.old) (cells_of phases.new) }
    ensures by { IsBy now (cells_of phases.new) }
    ensures kept { kept_of phases.new ≡ kept_of phases.old }
    ensures opened { is_open phases.new ≡ true }
{
    if let Some(phase) = phase {
        phases.start(phase, now, conditions, plan);
    }
}

/// Carries out the moves of tick `now`, after the phases' own tick, which gave `timing` from `conditions`: greens end,
/// phases that are over go Red, and phases start. The rings end and clear different phases.
pub(crate) fn carry_out(
    phases: &mut Phases,
    moves: &Moves,
    now: u32,
    timing: &Timing,
    conditions: &Conditions,
    plan: &Checked,
)
    requires opened { is_open phases.old ≡ true }
    requires fits { now + 1 < 2 ^ 32 }
    requires by { IsBy now (cells_of phases.old) }
    requires clearing { (p : ℕ) → is_cleared moves.now p ≡ true → IsClearing p (cells_of phases.old) }
    requires apart { AreApart moves.now }
    ensures each { IsCarriedOut moves.now now timing.now conditions.now (checked_plan plan.now) (cells_of phases.old) (cells_of phases.new) }
    ensures ones { AreOnes moves.now }
    ensures by { IsBy now (cells_of phases.new) }
    ensures kept { kept_of phases.new ≡ kept_of phases.old }
    ensures opened { is_open phases.new ≡ true }
{
    known_moves(moves);
    end_some(phases, moves.first.ends, now, timing, conditions, plan);
    end_some(phases, moves.second.ends, now, timing, conditions, plan);
    clear_some(phases, moves.first.clears);
    clear_some(phases, moves.second.clears);
    start_some(phases, moves.first.starts, now, conditions, plan);
    start_some(phases, moves.second.starts, now, conditions, plan);
}
