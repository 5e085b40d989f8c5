//! The inputs of stations: the desk's transactions, and the commit that changes the plan in effect.
#![tactic(auto, unfolding(tsb_objects::specs::Checked::checked_plan, tsb_plan::specs::PlanOf::plan_of))]

ghost use Rattle.std.specs.Prelude.{◌≡◌, ℕ, ◌+◌, ◌≤◌, ◌++◌, [], None, true};
ghost use Rattle.arrayvec.specs.ArrayVec.{array_vec_len};
ghost use Rattle.tsb_objects.specs.Checked.{checked_plan};
ghost use Rattle.tsb_step.specs.tsb_ring.Cells as rings;
ghost use Rattle.tsb_transact.specs.Calls as calls;
ghost use Rattle.tsb_transact.specs.Cells.{desk_in};
ghost use Rattle.tsb_transact.specs.Layer.{cells_of, kept_of, is_open};
ghost use Rattle.tsb_transact.specs.Promises.{CanCommit};
ghost use Rattle.tsb_step.specs.Good.{IsGood};
ghost use Rattle.tsb_step.specs.Step.{verdict};
ghost use Rattle.tsb_step.specs.declared.inputs.Input.TheVariants as inputs;
ghost use Rattle.tsb_controller.specs.Layer.{IsClosed, rows_of as rows_of_layers};
ghost use Rattle.tsb_controller.specs.Promises.{KeepsBy};
ghost use Rattle.tsb_controller.specs.Records.{changes};
ghost use Rattle.tsb_controller.specs.Rows.{Beside, state_of};
ghost use Rattle.tsb_controller.specs.Whole.{AreAllBy, all_in};
ghost use Rattle.tsb_bench.specs.Cabinet.{rows_of, IsShut, IsDone, forgotten_if};
ghost use Rattle.tsb_step.specs.declared.first_cell.TheConstants.{ALL_CELLS, LAYER_CELLS};
ghost use Rattle.tsb_bench.specs.declared.cabinet.TheConstants.{MOST_CELLS};

use crate::cabinet::{Cabinet, Changes};
use tsb_cells::Reversible;
use tsb_controller::Controller;
use tsb_controller::plan_changes::differences_onto;
use tsb_objects::{Checked, ObjectId, Refusal, Station};
use tsb_step::first_cell::DESK;
use tsb_transact::Desk;

impl Cabinet {
    /// Opens a station's transaction.
    pub(crate) fn begin(&mut self, tick: u32, station: Station, out: &mut Changes)
        requires shut { IsShut self.old }
        requires by { AreAllBy tick (rows_of self.old) }
        requires allowed { verdict (all_in tick (rows_of self.old)) (inputs.Begin station) ≡ None }
        requires empty { out.old.items ≡ [] }
        ensures done { IsDone (inputs.Begin station) tick (rows_of self.old) (rows_of self.new) out.new.items }
        ensures few { array_vec_len out.new ≤ MOST_CELLS }
        ensures shut { IsShut self.new }
        ensures passing { self.new.passing ≡ self.old.passing }
    {
        self.desk.open();
        let _done = self.desk.begin(station);
        self.desk.close_onto(out, DESK);
    }

    /// Puts an edit into the station's transaction.
    pub(crate) fn set(
        &mut self,
        tick: u32,
        station: Station,
        id: ObjectId,
        value: u32,
        out: &mut Changes,
    )
        requires shut { IsShut self.old }
        requires by { AreAllBy tick (rows_of self.old) }
        requires allowed { verdict (all_in tick (rows_of self.old)) (inputs.Set station id value) ≡ None }
        requires empty { out.old.items ≡ [] }
        ensures done { IsDone (inputs.Set station id value) tick (rows_of self.old) (rows_of self.new) out.new.items }
        ensures few { array_vec_len out.new ≤ MOST_CELLS }
        ensures shut { IsShut self.new }
        ensures passing { self.new.passing ≡ self.old.passing }
    {
        self.desk.open();
        self.desk.take_edit(id, value);
        self.desk.close_onto(out, DESK);
    }

    /// Checks the plan with the station's edits.
    pub(crate) fn verify(&mut self, tick: u32, station: Station, out: &mut Changes)
        requires shut { IsShut self.old }
        requires by { AreAllBy tick (rows_of self.old) }
        requires allowed { verdict (all_in tick (rows_of self.old)) (inputs.Verify station) ≡ None }
        requires empty { out.old.items ≡ [] }
        ensures done { IsDone (inputs.Verify station) tick (rows_of self.old) (rows_of self.new) out.new.items }
        ensures few { array_vec_len out.new ≤ MOST_CELLS }
        ensures shut { IsShut self.new }
        ensures passing { self.new.passing ≡ self.old.passing }
    {
        self.desk.open();
        let _done = self.desk.verify(station, &self.plan);
        self.desk.close_onto(out, DESK);
    }

    /// Gives up the station's transaction.
    pub(crate) fn abort(&mut self, tick: u32, station: Station, out: &mut Changes)
        requires shut { IsShut self.old }
        requires by { AreAllBy tick (rows_of self.old) }
        requires allowed { verdict (all_in tick (rows_of self.old)) (inputs.Abort station) ≡ None }
        requires empty { out.old.items ≡ [] }
        ensures done { IsDone (inputs.Abort station) tick (rows_of self.old) (rows_of self.new) out.new.items }
        ensures few { array_vec_len out.new ≤ MOST_CELLS }
        ensures shut { IsShut self.new }
        ensures passing { self.new.passing ≡ self.old.passing }
    {
        self.desk.open();
        let _done = self.desk.abort(station);
        self.desk.close_onto(out, DESK);
    }

    /// Why a commit would be refused.
    pub(crate) fn commit_refusal(&self, station: Station) -> Option<Refusal>
        requires by { (tick : ℕ) × AreAllBy tick (rows_of self.now) }
        ensures { (tick : ℕ) → result ≡ verdict (all_in tick (rows_of self.now)) (inputs.Commit station) }
    {
        let serving = self.controller.is_serving();
        let preempted = self.controller.is_preempted();
        self.desk
            .commit_refusal(station, &self.plan, serving, preempted)
    }

    /// Puts the station's edits into effect. The rings forget the phases that they started last where the structure
    /// changes.
    pub(crate) fn commit(&mut self, tick: u32, station: Station, out: &mut Changes)
        requires shut { IsShut self.old }
        requires by { AreAllBy tick (rows_of self.old) }
        requires good { IsGood (all_in tick (rows_of self.old)) }
        requires allowed { verdict (all_in tick (rows_of self.old)) (inputs.Commit station) ≡ None }
        requires empty { out.old.items ≡ [] }
        ensures done { IsDone (inputs.Commit station) tick (rows_of self.old) (rows_of self.new) out.new.items }
        ensures few { array_vec_len out.new ≤ ALL_CELLS }
        ensures shut { IsShut self.new }
        ensures passing { self.new.passing ≡ self.old.passing }
    {
        let forgets = self.desk.forgets(&self.plan);
        let serving = self.controller.is_serving();
        let preempted = self.controller.is_preempted();
        let before = *self.plan.plan();
        self.desk.open();
        put_into_effect(&mut self.desk, station, &mut self.plan, serving, preempted);
        differences_onto(&before, self.plan.plan(), out);
        self.desk.close_onto(out, DESK);
        forget_if(&mut self.controller, forgets, out);
    }
}

/// Puts the edits of a commit that is not refused into effect; the desk closes its transaction.
fn put_into_effect(
    desk: &mut Desk,
    station: Station,
    plan: &mut Checked,
    serving: bool,
    preempted: bool,
)
    requires opened { is_open desk.old ≡ true }
    requires can { CanCommit (checked_plan plan.old) (cells_of desk.old) }
    requires allowed { calls.commit_refusal (checked_plan plan.old) station serving preempted (desk_in (cells_of desk.old)) ≡ None }
    ensures plan { checked_plan plan.new ≡ calls.committed_plan (checked_plan plan.old) (desk_in (cells_of desk.old)) }
    ensures desk { desk_in (cells_of desk.new) ≡ calls.after_commit }
    ensures kept { kept_of desk.new ≡ kept_of desk.old }
    ensures opened { is_open desk.new ≡ true }
{
    let _done = desk.commit_onto(station, plan, serving, preempted);
}

/// The rings forget the phases that they started last, where a commit changes the structure. The cells that change go
/// to `out`.
fn forget_if(controller: &mut Controller, forgets: bool, out: &mut Changes)
    requires closed { IsClosed controller.old }
    requires rings_by { rings.IsBy (rows_of_layers controller.old).rings }
    requires room { array_vec_len out.old + LAYER_CELLS ≤ ALL_CELLS }
    ensures state { (now : ℕ) (b : Beside) → state_of now b (rows_of_layers controller.new) ≡ forgotten_if forgets (state_of now b (rows_of_layers controller.old)) }
    ensures by { KeepsBy (rows_of_layers controller.old) (rows_of_layers controller.new) }
    ensures changes { out.new.items ≡ out.old.items ++ changes (rows_of_layers controller.old) (rows_of_layers controller.new) }
    ensures len { array_vec_len out.new ≤ array_vec_len out.old + LAYER_CELLS }
    ensures closed { IsClosed controller.new }
{
    if !forgets {
        return;
    }
    controller.open();
    controller.forget();
    controller.close_onto(out);
}
