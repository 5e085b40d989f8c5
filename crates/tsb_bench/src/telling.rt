//! Takes an input and writes its events.
#![tactic(auto, unfolding(tsb_objects::specs::Checked::checked_plan, tsb_plan::specs::PlanOf::plan_of))]

ghost use Rattle.std.specs.Prelude.{◌≡◌, ℕ, ◌+◌, ◌<◌, ◌≤◌, [], ◌∷◌, length, Err, None, true, is_some, OnOk, OnErr, IfErr};
ghost use Rattle.tsb_history.specs.History.{record_size};
ghost use Rattle.tsb_types.specs.declared.refusal.Refusal.TheVariants.{Memory};
ghost use Rattle.tsb_types.specs.Clip.{Agree};
ghost use Rattle.tsb_types.specs.Sets.{has};
ghost use Rattle.tsb_plan.specs.PlanOf.{plan_in};
ghost use Rattle.tsb_machine.specs.Play.{IsRefusal};
ghost use Rattle.tsb_step.specs.declared.inputs.Input.TheVariants as inputs;
ghost use Rattle.tsb_step.specs.Cells.{clock_at};
ghost use Rattle.tsb_step.specs.EventLaws.{EndsNoTime};
ghost use Rattle.tsb_step.specs.Events.{completes_minimum, completes_red, events_of, times_minimum, times_red};
ghost use Rattle.tsb_step.specs.MonitorCells.{trip_in};
ghost use Rattle.tsb_step.specs.Past.{earlier, record_of};
ghost use Rattle.tsb_step.specs.Step.{kind_of, last_tick, step, verdict};
ghost use Rattle.tsb_controller.specs.Seen.{KeepsCycle};
ghost use Rattle.tsb_controller.specs.Whole.{All, AreAllBy, all_in};
ghost use Rattle.tsb_bench.specs.Cabinet.{rows_of, IsShut, most_cells};
ghost use Rattle.tsb_bench.specs.Held.{state_of, whole};
ghost use Rattle.tsb_bench.specs.Telling.{AreEnds, IsAllowed, IsBefore, IsFound, Sees, SeesSelected};

use crate::bench::Bench;
use crate::cabinet::Cabinet;
use tsb_controller::{Causes, Controller};
use tsb_events::{Change, Events, Found, Seen, Selected, other_events, tick_events};
use tsb_objects::limits::TICKS;
use tsb_objects::{NumberSet, PhaseSet, Refusal, Row};
use tsb_step::Input;
use tsb_step::log_form::Noted;

/// What is kept of the cabinet as it was before an input.
#[derive(Clone, Copy)]
pub(crate) struct Before {
    /// The tick number then.
    tick: u32,
    /// What the log saw.
    seen: Seen,
    /// What it saw of the selected pattern.
    selected: Selected,
    /// The layers.
    controller: Controller,
    /// That tick number, or that of the trip, at which timers are read.
    clock: u32,
    /// The Green phases whose minimum green the next tick completes.
    completed: PhaseSet,
}

/// Whether an input is a tick with the inputs of this row.
fn has_row(input: &Input, row: &Row) -> bool
    ensures { result ≡ true → input.now ≡ inputs.Tick row.now }
{
    match input {
        Input::Tick(given) => *given == *row,
        _ => false,
    }
}

impl Cabinet {
    /// What the log of a controller sees at tick number `tick`.
    fn view(&self, tick: u32) -> Seen
        requires limit { tick ≤ last_tick }
        requires by { (now : ℕ) × AreAllBy now (rows_of self.now) }
        ensures sees { Sees tick (rows_of self.now) result }
        ensures flashes { result.flashes ≡ is_some (trip_in (rows_of self.now).monitor) }
    {
        let tripped = self.monitor.is_tripped();
        self.controller
            .view(tripped, self.clock(tick), tick, &self.plan)
    }

    /// What it sees of the selected pattern.
    fn selected(&self) -> Selected
        requires by { (now : ℕ) × AreAllBy now (rows_of self.now) }
        ensures { SeesSelected (rows_of self.now) result }
    {
        self.controller.selected(&self.plan)
    }

    /// The tick number at which timers are read, at tick number `tick`: that of the trip, where there is one.
    pub(crate) fn clock(&self, tick: u32) -> u32
        requires by { (now : ℕ) × AreAllBy now (rows_of self.now) }
        ensures { result ≡ clock_at tick (trip_in (rows_of self.now).monitor) }
    {
        match self.monitor.trip() {
            Some(trip) => trip.1,
            None => tick,
        }
    }

    /// The phases in red clearance whose time has not passed at tick number `tick`.
    fn red_timings(&self, tick: u32) -> PhaseSet
        requires by { (now : ℕ) × AreAllBy now (rows_of self.now) }
        ensures { Agree (has result) (times_red (all_in tick (rows_of self.now))) }
    {
        let tripped = self.monitor.is_tripped();
        self.controller
            .red_timings(tripped, self.clock(tick), &self.plan)
    }

    /// The Green phases whose minimum green has not passed at tick number `tick`.
    fn minimums(&self, tick: u32) -> PhaseSet
        requires by { (now : ℕ) × AreAllBy now (rows_of self.now) }
        ensures { Agree (has result) (times_minimum (all_in tick (rows_of self.now))) }
    {
        let tripped = self.monitor.is_tripped();
        self.controller
            .minimums(tripped, self.clock(tick), &self.plan)
    }

    /// The Green phases whose minimum green the tick after tick number `tick` completes.
    fn completed(&self, tick: u32) -> PhaseSet
        requires limit { tick ≤ last_tick }
        requires by { AreAllBy tick (rows_of self.now) }
        ensures { Agree (has result) (completes_minimum (all_in tick (rows_of self.now))) }
    {
        self.minimums(tick).difference(self.minimums(tick + 1))
    }

    /// The phases in red clearance whose time the tick after tick number `tick` ends.
    fn cleared(&self, tick: u32) -> PhaseSet
        requires limit { tick ≤ last_tick }
        requires by { AreAllBy tick (rows_of self.now) }
        ensures { Agree (has result) (completes_red (all_in tick (rows_of self.now))) }
    {
        self.red_timings(tick)
            .difference(self.red_timings(tick + 1))
    }

    /// Whether the local counter, in the tick after tick number `tick`, goes on as it did and comes to no place that
    /// has an event.
    fn keeps_cycle(&self, tick: u32) -> bool
        requires limit { tick ≤ last_tick }
        requires by { AreAllBy tick (rows_of self.now) }
        ensures { result ≡ true → KeepsCycle tick (plan_in (rows_of self.now).plan) (rows_of self.now).layers.pattern }
    {
        if tick == TICKS {
            return false;
        }
        self.controller.keeps_cycle(tick, &self.plan)
    }

    /// Whether the tick after tick number `tick` ends no minimum green and no time of a red clearance. The local
    /// counter also has to go on in it as it did, and to come to no place that has an event.
    fn ends_no_time(&self, tick: u32) -> bool
        requires limit { tick ≤ last_tick }
        requires by { AreAllBy tick (rows_of self.now) }
        ensures { result ≡ true → EndsNoTime (all_in tick (rows_of self.now)) }
    {
        if !self.keeps_cycle(tick) {
            return false;
        }
        let ends = self.completed(tick).union(self.cleared(tick));
        ends.is_empty()
    }

    /// What is kept of the cabinet at tick number `tick`, before an input.
    fn before(&self, tick: u32) -> Before
        requires shut { IsShut self.now }
        requires limit { tick ≤ last_tick }
        requires by { AreAllBy tick (rows_of self.now) }
        ensures tick { result.tick ≡ tick }
        ensures before { IsBefore tick (rows_of self.now) result }
    {
        Before {
            tick,
            seen: self.view(tick),
            selected: self.selected(),
            controller: self.controller,
            clock: self.clock(tick),
            completed: self.completed(tick),
        }
    }

    /// What ended the greens that a tick with the inputs of `row` ended. The cabinet is as it is after the tick.
    fn causes(&self, before: &Before, row: &Row) -> Causes
        requires was { (a : All) × IsBefore before.now.tick a before.now × AreAllBy before.now.tick a × IsAllowed before.now.tick a (inputs.Tick row.now)
            × (plan_in a.plan ≡ plan_in (rows_of self.now).plan) }
        ensures { (a : All) (now : ℕ) → IsBefore before.now.tick a before.now → AreAllBy before.now.tick a
            → all_in now (rows_of self.now) ≡ step (all_in before.now.tick a) (inputs.Tick row.now) → AreEnds (all_in before.now.tick a) row.now result }
    {
        if before.seen.flashes {
            return Causes::none();
        }
        let intervals = self.controller.phases().intervals();
        let yellow = intervals.yellow.difference(intervals.green);
        before
            .controller
            .causes(yellow, before.tick + 1, row, &self.plan)
    }

    /// What a tick with the inputs of `row` found, where the log has noted this before. The cabinet is as it is after the
    /// tick.
    fn found(&self, before: &Before, row: &Row, noted: &Noted) -> Found
        requires was { (a : All) × IsBefore before.now.tick a before.now × AreAllBy before.now.tick a × IsAllowed before.now.tick a (inputs.Tick row.now)
            × (plan_in a.plan ≡ plan_in (rows_of self.now).plan) }
        ensures { (a : All) (now : ℕ) → IsBefore before.now.tick a before.now → AreAllBy before.now.tick a
            → all_in now (rows_of self.now) ≡ step (all_in before.now.tick a) (inputs.Tick row.now) → IsFound noted.now (all_in before.now.tick a) row.now result }
    {
        let causes = self.causes(before, row);
        Found {
            minimum: NumberSet::from_list(before.completed.list()),
            gap: causes.gap,
            maximum: causes.maximum,
            force_off: causes.force_off,
            noted: *noted,
            row: *row,
            zero: before.controller.comes_to_zero(before.tick, &self.plan),
            yields: NumberSet::from_list(before.controller.yields(before.tick, &self.plan).list()),
            served: before.controller.is_served(before.clock, row, &self.plan),
        }
    }

    /// Writes the events of an input to `events`, in place of what was there. The cabinet is as it is after the input, at
    /// tick number `now`.
    fn tell(&self, before: &Before, now: u32, input: &Input, noted: &Noted, events: &mut Events)
        requires was { (a : All) × IsBefore before.now.tick a before.now × AreAllBy before.now.tick a × IsAllowed before.now.tick a input.now
            × (all_in now (rows_of self.now) ≡ step (all_in before.now.tick a) input.now) }
        requires limit { now ≤ last_tick }
        requires by { AreAllBy now (rows_of self.now) }
        ensures { (a : All) → IsBefore before.now.tick a before.now → AreAllBy before.now.tick a
            → all_in now (rows_of self.now) ≡ step (all_in before.now.tick a) input.now → events.new.items ≡ events_of noted.now (all_in before.now.tick a) input.now }
    {
        let seen = self.view(now);
        match input {
            Input::Tick(row) => {
                let found = self.found(before, row, noted);
                tick_events(events, now, &before.seen, &seen, &found);
            }
            _ => {
                let change = Change {
                    before: before.selected,
                    after: self.selected(),
                };
                other_events(events, now, noted, &before.seen, &seen, &change);
            }
        }
    }
}

impl Bench {
    /// Takes an input, as `apply` does, and writes its events to `events`, in place of what was there. `noted` is what
    /// the log has noted before it: its form, and the inputs that were on in the newest tick. A refused input has no
    /// events.
    ///
    /// It takes no memory beside that of `apply`. A tick that changes nothing, with the inputs of the tick before, costs
    /// little more than there.
    pub fn apply_telling(
        &mut self,
        input: Input,
        noted: &Noted,
        events: &mut Events,
    ) -> Result<(), Refusal>
        ensures allowed { OnOk result (verdict (state_of self.old) input ≡ None) }
        ensures state { OnOk result (state_of self.new ≡ step (state_of self.old) input) }
        ensures records { OnOk result (self.new.records ≡ record_of input (state_of self.old) (state_of self.new) ∷ self.old.records) }
        ensures back { OnOk result (earlier (whole self.new) 1 ≡ whole self.old) }
        ensures refused { IfErr result (IsRefusal (verdict (state_of self.old) input)) }
        ensures err { OnErr result (self.new ≡ self.old) }
        ensures few { OnOk result (length (record_of input (state_of self.old) (state_of self.new)).entries ≤ most_cells (kind_of input)) }
        ensures wanting { result ≡ Err Memory → self.old.room < record_size (most_cells (kind_of input)) }
        ensures room { OnOk result (self.old.room
            ≤ self.new.room + record_size (length (record_of input (state_of self.old) (state_of self.new)).entries)) }
        ensures told { OnOk result (events.new.items ≡ events_of noted.now (state_of self.old) input) }
        ensures untold { OnErr result (events.new.items ≡ []) }
    {
        events.clear();
        let tick = self.tick;
        if self.cabinet.passes(tick, &input)
            && has_row(&input, &noted.row)
            && self.cabinet.ends_no_time(tick)
        {
            return self.apply(input);
        }
        let before = self.cabinet.before(tick);
        match self.apply(input) {
            Ok(()) => {}
            Err(refusal) => return Err(refusal),
        }
        self.cabinet.tell(&before, self.tick, &input, noted, events);
        Ok(())
    }
}
