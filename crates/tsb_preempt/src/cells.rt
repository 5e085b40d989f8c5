//! The cells of the preempts: lists, delay timers and the service are read in them and put into them.
//!
//! A tick loads the service, computes on plain values, and stores what it found.
ghost use Rattle.tsb_types.specs.declared.limits.TheConstants.{PREEMPTS};
ghost use Rattle.std.specs.Prelude.{◌≡◌, ◌≢◌, ℕ, ◌+◌, ◌<◌, ◌≤◌, ◌^◌, true, false, slice_index};
ghost use Rattle.tsb_types.specs.Sets.{has_number, names, list_in};
ghost use Rattle.tsb_preempt.specs.Cells.{IsBy, service_in, stage_in};
ghost use Rattle.tsb_preempt.specs.Done.{IsIdle};
ghost use Rattle.tsb_preempt.specs.Rows.{serving_of, delay_cell, IsStored, IsServingBy};

use crate::preempts::Preempts;
use crate::serving::{Serving, delay_cell};
use tsb_objects::limits::PREEMPTS;
use tsb_objects::{NumberSet, Preempt, Stage};

/// The list of switches that are on.
pub(crate) const SWITCHES: usize = 0;

/// The list of spent preempts.
pub(crate) const SPENT: usize = 1;

/// The delay timer of preempt `n` has the cell `DELAYS + n`.
const DELAYS: usize = 1;

/// The preempt in service, 0 for none.
const IN_SERVICE: usize = 2 + PREEMPTS as usize;

/// The stage in service: 0 Track, 1 Dwell, 2 Exit.
const STAGE_IN_SERVICE: usize = IN_SERVICE + 1;

/// The service timer.
const SERVICE_TIMER: usize = IN_SERVICE + 2;

/// The timer of Track.
const STAGE_TIMER: usize = IN_SERVICE + 3;

/// How many lists there are of the numbers of preempts.
pub(crate) const LISTS: u32 = 1 << PREEMPTS;

/// A number that is 0 only where both are.
#[inline(always)]
fn either(one: u32, other: u32) -> u32
    ensures one { result ≡ 0 → one ≡ 0 }
    ensures other { result ≡ 0 → other ≡ 0 }
{
    one | other
}

/// Whether a set has the number of a preempt.
#[inline(always)]
fn names_preempt(set: NumberSet) -> bool
    ensures { result ≡ false → (n : ℕ) → 1 ≤ n → n ≤ PREEMPTS → has_number set n ≡ false }
{
    u32::from(set.list()) % LISTS != 0
}

impl Preempts {
    ghost use Rattle.tsb_preempt.specs.Layer.{cells_of, kept_of, is_open, AreDelayed};

    /// The cell of the delay timer of a preempt.
    #[inline(always)]
    pub(crate) fn delay(&self, n: u8) -> u32
        requires from { 1 ≤ n }
        requires within { n ≤ PREEMPTS }
        ensures { result ≡ slice_index (cells_of self.now) (1 + n) }
    {
        self.bank.get(DELAYS + usize::from(n))
    }

    /// Whether no input is on, no delay timer runs and no preempt is in service: then a tick changes nothing.
    #[inline(always)]
    pub(crate) fn is_idle(&self, inputs: NumberSet) -> bool
        ensures { result ≡ true → IsIdle inputs (cells_of self.now) }
    {
        let mut cells = self.bank.get(IN_SERVICE);
        for n in 1..PREEMPTS + 1 {
            cells = either(cells, self.delay(n));
        }
        cells == 0 && !names_preempt(inputs)
    }

    /// Replaces list `k` with that of the preempts of a set.
    #[inline(always)]
    pub(crate) fn put_set(&mut self, k: usize, set: NumberSet)
        requires in_range { k < 2 }
        requires opened { is_open self.old ≡ true }
        ensures told { (n : ℕ) → 1 ≤ n → n ≤ PREEMPTS → names (list_in (cells_of self.new) k) n ≡ has_number set n }
        ensures small { slice_index (cells_of self.new) k < 2 ^ PREEMPTS }
        ensures others { (j : ℕ) → j ≢ k → slice_index (cells_of self.new) j ≡ slice_index (cells_of self.old) j }
        ensures kept { kept_of self.new ≡ kept_of self.old }
        ensures opened { is_open self.new ≡ true }
    {
        self.bank.put(k, u32::from(set.list()) % LISTS);
    }

    /// The delay timer of a preempt runs, begins or is Off.
    #[inline(always)]
    fn put_delay(&mut self, now: u32, n: u8, inputs: NumberSet)
        requires fits { now + 1 < 2 ^ 32 }
        requires from { 1 ≤ n }
        requires within { n ≤ PREEMPTS }
        requires opened { is_open self.old ≡ true }
        ensures here { slice_index (cells_of self.new) (1 + n) ≡ delay_cell now (has_number inputs n) (slice_index (cells_of self.old) (1 + n)) }
        ensures others { (j : ℕ) → j ≢ 1 + n → slice_index (cells_of self.new) j ≡ slice_index (cells_of self.old) j }
        ensures kept { kept_of self.new ≡ kept_of self.old }
        ensures opened { is_open self.new ≡ true }
    {
        let cell = delay_cell(now, inputs.contains(n), self.delay(n));
        self.bank.put(DELAYS + usize::from(n), cell);
    }

    /// The delay timers run, begin or are Off.
    #[inline(always)]
    pub(crate) fn put_delays(&mut self, now: u32, inputs: NumberSet)
        requires fits { now + 1 < 2 ^ 32 }
        requires opened { is_open self.old ≡ true }
        ensures delays { AreDelayed now inputs (cells_of self.old) (cells_of self.new) }
        ensures kept { kept_of self.new ≡ kept_of self.old }
        ensures opened { is_open self.new ≡ true }
    {
        for n in 1..PREEMPTS + 1 {
            self.put_delay(now, n, inputs);
        }
    }

    /// The stage that its cell keeps.
    #[inline(always)]
    fn stage_in(&self) -> Stage
        ensures { result ≡ stage_in (slice_index (cells_of self.now) (3 + PREEMPTS)) }
    {
        match self.bank.get(STAGE_IN_SERVICE) {
            0 => Stage::Track,
            1 => Stage::Dwell,
            _ => Stage::Exit,
        }
    }

    /// The service that the cells keep.
    #[inline(always)]
    #[tactic(auto, unfolding(crate::specs::Cells::service_in))]
    pub(crate) fn load(&self) -> Option<Serving>
        ensures state { (now : ℕ) → serving_of now result ≡ service_in now (cells_of self.now) }
        ensures by { (now : ℕ) → IsBy now (cells_of self.now) → IsServingBy now result }
    {
        match Preempt::new(self.bank.get(IN_SERVICE)) {
            None => None,
            Some(preempt) => Some(Serving {
                preempt,
                stage: self.stage_in(),
                timer: self.bank.get(SERVICE_TIMER),
                stage_timer: self.bank.get(STAGE_TIMER),
            }),
        }
    }

    /// Puts values into the four cells of service.
    #[inline(always)]
    fn put_service(&mut self, preempt: u32, stage: u32, timer: u32, stage_timer: u32)
        requires opened { is_open self.old ≡ true }
        ensures preempt { slice_index (cells_of self.new) (2 + PREEMPTS) ≡ preempt }
        ensures stage { slice_index (cells_of self.new) (3 + PREEMPTS) ≡ stage }
        ensures timer { slice_index (cells_of self.new) (4 + PREEMPTS) ≡ timer }
        ensures stage_timer { slice_index (cells_of self.new) (5 + PREEMPTS) ≡ stage_timer }
        ensures others { (j : ℕ) → j < 2 + PREEMPTS → slice_index (cells_of self.new) j ≡ slice_index (cells_of self.old) j }
        ensures kept { kept_of self.new ≡ kept_of self.old }
        ensures opened { is_open self.new ≡ true }
    {
        self.bank.put(IN_SERVICE, preempt);
        self.bank.put(STAGE_IN_SERVICE, stage);
        self.bank.put(SERVICE_TIMER, timer);
        self.bank.put(STAGE_TIMER, stage_timer);
    }

    /// Puts the service into its cells.
    #[inline(always)]
    pub(crate) fn store(&mut self, serving: &Option<Serving>)
        requires opened { is_open self.old ≡ true }
        ensures stored { IsStored (cells_of self.new) serving.now }
        ensures others { (j : ℕ) → j < 2 + PREEMPTS → slice_index (cells_of self.new) j ≡ slice_index (cells_of self.old) j }
        ensures kept { kept_of self.new ≡ kept_of self.old }
        ensures opened { is_open self.new ≡ true }
    {
        match serving {
            None => self.put_service(0, 0, 0, 0),
            Some(s) => {
                let stage = match s.stage {
                    Stage::Track => 0,
                    Stage::Dwell => 1,
                    Stage::Exit => 2,
                };
                self.put_service(u32::from(s.preempt.number()), stage, s.timer, s.stage_timer)
            }
        }
    }
}
