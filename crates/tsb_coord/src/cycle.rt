//! How the local counter goes, for event logs: the state of the cycle, local zero and yield points.
ghost use Rattle.std.specs.Prelude.{◌≡◌, ℕ, ◌+◌, ◌<◌, ◌≤◌, true};
ghost use Rattle.tsb_objects.specs.tsb_types.declared.clock_time.TheConstants.{DAY, FIRST_MOMENT};
ghost use Rattle.tsb_objects.specs.tsb_types.declared.limits.TheConstants.{TICKS};
ghost use Rattle.tsb_objects.specs.tsb_types.Sets.{has};
ghost use Rattle.tsb_objects.specs.tsb_plan.Parts.{correction_mode, is_used};
ghost use Rattle.tsb_objects.specs.Checked.{checked_plan};
ghost use Rattle.tsb_coord.specs.Cells.{IsBy};
ghost use Rattle.tsb_coord.specs.Coordinated.{agree};
ghost use Rattle.tsb_coord.specs.Cycle.{TellsCycle, TellsYields, TellsZero, first_place, is_either, last_place, number_of, place_by, way_in, yields_at};

use crate::clock::shift;
use crate::coord::Coord;
use crate::correction::{Correction, ahead_before, ahead_in};
use crate::counting::{counter, cycle_of};
use tsb_objects::{Checked, CorrectionMode, Pattern, PhaseSet};
use tsb_types::event::{CYCLE_ADDS, CYCLE_DWELLS, CYCLE_FREE, CYCLE_IN_STEP, CYCLE_SUBTRACTS};

/// How the local counter of the pattern that runs goes: the states of the Indiana enumerations' code 150 (Coord cycle
/// state change).
#[derive(Clone, Copy, PartialEq, Eq)]
pub enum CycleState {
    /// No pattern runs: free operation.
    Free,
    /// It is in step.
    InStep,
    /// It comes into step by longer cycles.
    Adds,
    /// It comes into step by shorter cycles.
    Subtracts,
    /// It comes into step by waiting at one place of the cycle.
    Dwells,
}

impl CycleState {
    /// The number of the state in an event, 0 to 4.
    pub fn number(self) -> u8
        ensures { result ≡ number_of self }
    {
        match self {
            CycleState::Free => CYCLE_FREE,
            CycleState::InStep => CYCLE_IN_STEP,
            CycleState::Adds => CYCLE_ADDS,
            CycleState::Subtracts => CYCLE_SUBTRACTS,
            CycleState::Dwells => CYCLE_DWELLS,
        }
    }
}

/// How the local counter of a pattern goes by the correction mode, where it is not in step.
fn way_of(plan: &Checked, n: Pattern, correction: Correction) -> CycleState
    requires used { is_used (checked_plan plan.now) n ≡ true }
    ensures { result ≡ way_in (correction_mode (checked_plan plan.now)) (checked_plan plan.now) n correction }
{
    let cycle = cycle_of(plan, n);
    match plan.plan().correction_mode() {
        CorrectionMode::AtOnce => CycleState::InStep,
        CorrectionMode::Dwell => CycleState::Dwells,
        CorrectionMode::ShortWay => {
            if 2 * (correction.ahead % cycle) <= cycle {
                CycleState::Adds
            } else {
                CycleState::Subtracts
            }
        }
        CorrectionMode::AddOnly => CycleState::Adds,
    }
}

/// Where the local counter comes to in a tick.
#[derive(Clone, Copy)]
struct Places {
    /// Where it comes to with its last step, unless it stays for another tick.
    last: Option<u32>,
    /// Where it comes to with the first of two steps, if it takes two.
    first: Option<u32>,
}

/// Where the local counter of a pattern comes to with a step, by the tick in which one in step is there. `None` without
/// a step.
fn place_by(plan: &Checked, n: Pattern, steps: bool, tick: u32) -> Option<u32>
    requires used { is_used (checked_plan plan.now) n ≡ true }
    requires in_time { tick ≤ TICKS + 5100 }
    ensures { result ≡ place_by (checked_plan plan.now) n steps tick }
{
    if steps {
        Some(counter(plan, n, tick))
    } else {
        None
    }
}

/// Where the local counter of a pattern comes to in tick `now`.
fn places_in(plan: &Checked, n: Pattern, correction: Correction, now: u32) -> Places
    requires used { is_used (checked_plan plan.now) n ≡ true }
    requires since { correction.since ≤ TICKS }
    requires midnight { correction.midnight < FIRST_MOMENT + DAY }
    requires in_time { now ≤ TICKS }
    ensures last { result.last ≡ last_place (checked_plan plan.now) n correction now }
    ensures first { result.first ≡ first_place (checked_plan plan.now) n correction now }
{
    let before = ahead_before(plan, n, correction, now);
    let ahead = ahead_in(plan, n, correction, now);
    let counted = now + shift(plan, n, correction.midnight) + ahead;
    let stays = before == ahead + 1;
    let steps_twice = ahead == (before + 1) % cycle_of(plan, n);
    Places {
        last: place_by(plan, n, !stays, counted),
        first: place_by(plan, n, steps_twice, counted.saturating_sub(1)),
    }
}

/// Whether a place of the local counter is this instant.
fn is_at(place: &Option<u32>, instant: &Option<u32>) -> bool
    ensures { result ≡ agree place.now instant.now }
{
    match (place, instant) {
        (Some(place), Some(instant)) => *place == *instant,
        _ => false,
    }
}

/// Whether the local counter comes to this instant.
fn comes_to(places: &Places, instant: &Option<u32>) -> bool
    ensures { result ≡ is_either places.now.last places.now.first instant.now }
{
    is_at(&places.last, instant) || is_at(&places.first, instant)
}

/// The coordinated phases of a pattern to whose force-off instant the local counter comes.
fn yielding(plan: &Checked, n: Pattern, places: &Places) -> PhaseSet
    requires used { is_used (checked_plan plan.now) n ≡ true }
    ensures { (p : ℕ) → 1 ≤ p → p ≤ 16 → has result p ≡ yields_at (checked_plan plan.now) n places.now.last places.now.first p }
{
    let mut yielding = PhaseSet::empty();
    let mut rest = plan.coordinated(Some(n));
    while let Some(p) = rest.pop() {
        yielding = yielding.joined(p, comes_to(places, &plan.force_off(n, p)));
    }
    yielding
}

impl Coord {
    ghost use Rattle.tsb_coord.specs.Layer.{cells_of};

    /// How the local counter of the pattern that runs goes in tick `now`, at most the last that there is. It goes on while
    /// the bench is tripped.
    pub fn cycle_state(&self, now: u32, plan: &Checked) -> CycleState
        requires by { IsBy (cells_of self.now) }
        requires in_time { now ≤ TICKS }
        ensures { TellsCycle now (checked_plan plan.now) (cells_of self.now) result }
    {
        match self.running(plan) {
            None => CycleState::Free,
            Some(n) => {
                let correction = self.correction();
                if ahead_in(plan, n, correction, now) == 0 {
                    CycleState::InStep
                } else {
                    way_of(plan, n, correction)
                }
            }
        }
    }

    /// Whether the local counter comes to 0 in tick `now`, where a cycle begins; `false` in free operation, and where it
    /// was there before.
    pub fn is_at_zero(&self, now: u32, plan: &Checked) -> bool
        requires by { IsBy (cells_of self.now) }
        requires in_time { now ≤ TICKS }
        ensures { TellsZero now (checked_plan plan.now) (cells_of self.now) result }
    {
        match self.running(plan) {
            None => false,
            Some(n) => comes_to(&places_in(plan, n, self.correction(), now), &Some(0)),
        }
    }

    /// The coordinated phases at their yield point in tick `now`: the local counter comes to their force-off instant. There
    /// is none in free operation.
    pub fn yields(&self, now: u32, plan: &Checked) -> PhaseSet
        requires by { IsBy (cells_of self.now) }
        requires in_time { now ≤ TICKS }
        ensures { TellsYields now (checked_plan plan.now) (cells_of self.now) result }
    {
        match self.running(plan) {
            None => PhaseSet::empty(),
            Some(n) => yielding(plan, n, &places_in(plan, n, self.correction(), now)),
        }
    }
}
