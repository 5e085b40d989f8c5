//! Phase timing alone, with the moves that the rings make by it.
ghost use Rattle.std.specs.Prelude.{◌≡◌, ◌<◌, ◌+◌, ◌^◌, true, false};
ghost use Rattle.arrayvec.specs.ArrayVec.{array_vec_len};
ghost use Rattle.tsb_phase.specs.Cells.{IsBy};
ghost use Rattle.tsb_phase.specs.Counts.{AreCounts};
ghost use Rattle.tsb_phase.specs.Layer.{cells_of, is_open};

use crate::driven::{Changes, Driven, Ticked, ticks};
use crate::fault::{Fault, same};
use crate::numbers::Numbers;
use crate::timed::ticks_before;
use std::alloc::Global;
use tsb_cells::Reversible;
use tsb_objects::{Called, Checked, Interval, Orders, Pattern, Phase, PhaseSet, Preempt, Timing};
use tsb_phase::laws::rows_stay_by;
use tsb_phase::{Conditions, Phases};
use tsb_types::limits;

/// What a tick gives: what phases are given, what they have to answer, and the moves of both rings.
#[derive(Clone, Copy, Drop)]
pub struct Given {
    called: Called,
    counts: [u32; 16],
    runs: Option<Pattern>,
    service: Option<Preempt>,
    orders: Orders,
    told: Timing,
    first: Moved,
    second: Moved,
    ghost small: { AreCounts counts },
}

/// The phase that ends, the one that clears and the one that starts in a ring.
#[derive(Clone, Copy, Drop)]
struct Moved {
    ends: Option<Phase>,
    clears: Option<Phase>,
    starts: Option<Phase>,
}

impl Given {
    /// The conditions of the tick.
    #[inline(always)]
    fn conditions(&self) -> Conditions<'_> {
        Conditions {
            called: self.called,
            counts: &self.counts,
            runs: self.runs,
            service: self.service,
            orders: self.orders,
        }
    }
}

/// Phases at a tick.
#[derive(Drop)]
pub struct Phasing {
    layer: Phases,
    now: u32,
    ghost by: { IsBy now (cells_of layer) },
    ghost counted: { now < 2 ^ 31 },
    ghost closed: { is_open layer ≡ false },
}

impl Phasing {
    /// A line `u`: a pattern was selected, which takes forced latches off; what changes.
    fn unforce(&mut self, numbers: Numbers) -> Result<u32, Fault> {
        let mut numbers = numbers;
        let mut layer = self.layer;
        layer.open();
        unforced(&mut layer, self.now);
        let changes = layer.close();
        self.layer = layer;
        numbers.tells_changes(changes.as_slice())?;
        Ok(1)
    }
}

impl Driven for Phasing {
    fn power_up(_alloc: Global, _plan: &Checked) -> Result<Phasing, Fault> {
        Ok(Phasing {
            layer: at_power_up(),
            now: 0,
        })
    }

    fn take(&mut self, kind: &[u8], numbers: Numbers, plan: &Checked) -> Result<u32, Fault> {
        if kind == b"t".as_slice() {
            ticks(self, numbers, plan)
        } else if kind == b"u".as_slice() {
            self.unforce(numbers)
        } else {
            Err(Fault::Malformed)
        }
    }
}

impl Ticked for Phasing {
    type Given = Given;

    type Answer = Timing;

    fn read(numbers: &mut Numbers) -> Result<Given, Fault> {
        let called = numbers.called()?;
        let counts = numbers.counts()?;
        Ok(Given {
            called,
            counts,
            runs: numbers.pattern()?,
            service: numbers.preempt()?,
            orders: orders(numbers)?,
            told: timing(numbers)?,
            first: ring_moves(numbers)?,
            second: ring_moves(numbers)?,
        })
    }

    fn free(given: &mut Given) {
        given.runs = None;
    }

    #[inline(always)]
    fn tick(&mut self, given: &Given, plan: &Checked, out: &mut Changes) -> Result<Timing, Fault> {
        if self.now >= limits::TICKS {
            return Err(Fault::Malformed);
        }
        let now = self.now + 1;
        self.layer.open();
        let conditions = given.conditions();
        let timing = self.layer.tick(now, &conditions, plan);
        carried_out(
            &mut self.layer,
            now,
            &given.first,
            &timing,
            &conditions,
            plan,
        );
        carried_out(
            &mut self.layer,
            now,
            &given.second,
            &timing,
            &conditions,
            plan,
        );
        self.layer.close_onto(out, 0);
        self.now = now;
        Ok(timing)
    }

    fn tells(&self, given: &Given, answer: &Timing, _answers: &mut Numbers) -> Result<(), Fault> {
        same(*answer == given.told)
    }

    /// A tick with an empty answer is due, so that no answer is missed.
    #[inline(always)]
    fn is_due(answer: &Timing) -> bool {
        let ends = answer.ready.union(answer.over);
        let others = answer.red_revert_passed.union(answer.gapped);
        ends.union(others).union(answer.walks).is_empty()
    }

    #[inline(always)]
    fn spare(&self, given: &Given, plan: &Checked) -> u32 {
        if self.now >= limits::TICKS {
            return 0;
        }
        let next = self.now + 1;
        ticks_before(self.layer.due(next, &given.conditions(), plan), self.now)
    }

    #[inline(always)]
    fn pass(&mut self) {
        if self.now < limits::TICKS {
            rows_stay_by();
            self.now += 1;
        }
    }
}

/// What is asked of phases; they don't read omitted phases or a target.
fn orders(numbers: &mut Numbers) -> Result<Orders, Fault> {
    Ok(Orders {
        hold: numbers.phases()?,
        must_end: numbers.phases()?,
        forced: numbers.phases()?,
        recycle: numbers.phases()?,
        omit: PhaseSet::empty(),
        target: None,
    })
}

/// What phases have to answer.
fn timing(numbers: &mut Numbers) -> Result<Timing, Fault> {
    Ok(Timing {
        ready: numbers.phases()?,
        over: numbers.phases()?,
        red_revert_passed: numbers.phases()?,
        gapped: numbers.phases()?,
        walks: numbers.phases()?,
    })
}

/// What a ring moves.
fn ring_moves(numbers: &mut Numbers) -> Result<Moved, Fault> {
    Ok(Moved {
        ends: numbers.phase()?,
        clears: numbers.phase()?,
        starts: numbers.phase()?,
    })
}

/// Carries out what a ring moves.
#[inline(always)]
fn carried_out(
    phases: &mut Phases,
    now: u32,
    moved: &Moved,
    timing: &Timing,
    conditions: &Conditions,
    plan: &Checked,
)
    requires fits { now + 1 < 2 ^ 32 }
    requires opened { is_open phases.old ≡ true }
    requires by { IsBy now (cells_of phases.old) }
    ensures by { IsBy now (cells_of phases.new) }
    ensures opened { is_open phases.new ≡ true }
{
    ended(phases, now, moved.ends, timing, conditions, plan);
    cleared(phases, now, moved.clears);
    started(phases, now, moved.starts, conditions, plan);
}

/// Ends the green of a phase, if there is one.
#[inline(always)]
fn ended(
    phases: &mut Phases,
    now: u32,
    ends: Option<Phase>,
    timing: &Timing,
    conditions: &Conditions,
    plan: &Checked,
)
    requires fits { now + 1 < 2 ^ 32 }
    requires opened { is_open phases.old ≡ true }
    requires by { IsBy now (cells_of phases.old) }
    ensures by { IsBy now (cells_of phases.new) }
    ensures opened { is_open phases.new ≡ true }
{
    if let Some(p) = ends {
        phases.end(p, now, timing, conditions, plan);
    }
}

/// Clears a phase, if there is one.
#[inline(always)]
fn cleared(phases: &mut Phases, now: u32, clears: Option<Phase>)
    requires opened { is_open phases.old ≡ true }
    requires by { IsBy now (cells_of phases.old) }
    ensures by { IsBy now (cells_of phases.new) }
    ensures opened { is_open phases.new ≡ true }
{
    if let Some(p) = clears {
        clear(phases, now, p);
    }
}

/// Clears a phase that is in yellow change or red clearance. Another stays as it is, which its cells then show.
#[inline(always)]
fn clear(phases: &mut Phases, now: u32, p: Phase)
    requires opened { is_open phases.old ≡ true }
    requires by { IsBy now (cells_of phases.old) }
    ensures by { IsBy now (cells_of phases.new) }
    ensures opened { is_open phases.new ≡ true }
{
    match phases.interval(p) {
        Interval::Yellow => phases.clear(p),
        Interval::RedClear => phases.clear(p),
        _ => {}
    }
}

/// Starts a phase, if there is one.
#[inline(always)]
fn started(
    phases: &mut Phases,
    now: u32,
    starts: Option<Phase>,
    conditions: &Conditions,
    plan: &Checked,
)
    requires fits { now + 1 < 2 ^ 32 }
    requires opened { is_open phases.old ≡ true }
    requires by { IsBy now (cells_of phases.old) }
    ensures by { IsBy now (cells_of phases.new) }
    ensures opened { is_open phases.new ≡ true }
{
    if let Some(p) = starts {
        phases.start(p, now, conditions, plan);
    }
}

/// Takes the forced latches off.
fn unforced(phases: &mut Phases, now: u32)
    requires opened { is_open phases.old ≡ true }
    requires by { IsBy now (cells_of phases.old) }
    ensures by { IsBy now (cells_of phases.new) }
    ensures opened { is_open phases.new ≡ true }
{
    phases.unforce();
}

/// Phases as at power-up.
fn at_power_up() -> Phases
    ensures by { IsBy 0 (cells_of result) }
    ensures closed { is_open result ≡ false }
{
    Phases::new()
}
