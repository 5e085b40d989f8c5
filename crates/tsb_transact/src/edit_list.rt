//! Edits as the cells have them: listed, laid over a plan, and what they would change there.
ghost use Rattle.std.specs.Prelude.{◌≡◌, ◌+◌, ◌*◌, ◌&&◌, ◌≤◌, true, slice_index};
ghost use Rattle.tsb_cells.specs.Bank.{cells_of};
ghost use Rattle.tsb_plan.specs.Objects.{has_index};
ghost use Rattle.tsb_plan.specs.PlanOf.{plan_of};
ghost use Rattle.tsb_transact.specs.declared.TheConstants.{MOST_EDITS};
ghost use Rattle.tsb_transact.specs.Cells.{IsBy, desk_in, edit_in};
ghost use Rattle.tsb_transact.specs.Commit.{changes, changes_some, is_preempt_list};
ghost use Rattle.tsb_transact.specs.Desk.{with_edits};
ghost use Rattle.tsb_transact.specs.Matters.{is_about};

use crate::edit::Edit;
use crate::head_cells::COUNT;
use crate::places::id_at;
use crate::{CELLS, MOST_EDITS};
use arrayvec::ArrayVec;
use tsb_cells::Bank;
use tsb_objects::{Object, Plan, is_structural};

/// The cell of the place of edit `k`, from 1.
pub fn place_cell(k: usize) -> usize
    requires { k ≤ MOST_EDITS }
    ensures { result ≡ 2 * k + 2 }
{
    2 * k + 2
}

/// The cell of the value of edit `k`, from 1.
pub fn value_cell(k: usize) -> usize
    requires { k ≤ MOST_EDITS }
    ensures { result ≡ 2 * k + 3 }
{
    2 * k + 3
}

/// Edit `k`, from 1.
pub fn edit(bank: &Bank<CELLS>, k: usize) -> Edit
    requires from { 1 ≤ k }
    requires within { k ≤ MOST_EDITS }
    ensures { result ≡ edit_in (cells_of bank.now) k }
{
    Edit {
        id: id_at(bank.get(place_cell(k))),
        value: bank.get(value_cell(k)),
    }
}

/// All edits, in order.
#[tactic(auto, unfolding(crate::specs::Cells::desk_in))]
pub fn edits(bank: &Bank<CELLS>) -> ArrayVec<Edit, MOST_EDITS>
    requires { slice_index (cells_of bank.now) 3 ≤ MOST_EDITS }
    ensures { result.items ≡ (desk_in (cells_of bank.now)).edits }
{
    let mut list = ArrayVec::new();
    for k in 1..bank.get(COUNT) as usize + 1 {
        list.push(edit(bank, k));
    }
    list
}

/// The plan with all edits laid over it.
#[tactic(auto, unfolding(crate::specs::Cells::desk_in))]
pub fn laid(bank: &Bank<CELLS>, plan: &Plan) -> Plan
    requires { IsBy (cells_of bank.now) }
    ensures { plan_of result ≡ with_edits (plan_of plan.now) (desk_in (cells_of bank.now)).edits }
{
    let mut laid = *plan;
    let count = bank.get(COUNT) as usize;
    for k in 1..count + 1 {
        let place = bank.get(place_cell(k)) as usize;
        laid.put_cell(place - 1, bank.get(value_cell(k)));
    }
    laid
}

/// Whether the edit differs from the present value.
fn changes(plan: &Plan, edit: Edit) -> bool
    requires { has_index edit.id.object edit.id.index ≡ true }
    ensures { result ≡ changes (plan_of plan.now) edit }
{
    plan.at(edit.id.object, edit.id.index) != edit.value
}

/// Whether the object is a list of phases of preempts: of track, dwell or exit.
fn is_preempt_list(object: Object) -> bool
    ensures { result ≡ is_preempt_list object }
{
    matches!(
        object,
        Object::PreemptTrackPhase | Object::PreemptDwellPhase | Object::PreemptExitPhase
    )
}

/// What a change of an object is about, which says what a commit has to wait for.
#[derive(Clone, Copy)]
pub enum Matter {
    /// Which phases there are, where they are placed, or which belong together.
    Structure,
    /// The lists of phases of preempts.
    PreemptLists,
}

/// Whether a change of the object is about the matter.
fn is_about(matter: Matter, object: Object) -> bool
    ensures { result ≡ is_about matter object }
{
    match matter {
        Matter::Structure => is_structural(object),
        Matter::PreemptLists => is_preempt_list(object),
    }
}

/// Whether the edit is a change about the matter.
fn is_change_about(matter: Matter, plan: &Plan, edit: Edit) -> bool
    requires { has_index edit.id.object edit.id.index ≡ true }
    ensures { result ≡ (is_about matter edit.id.object && changes (plan_of plan.now) edit) }
{
    is_about(matter, edit.id.object) && changes(plan, edit)
}

/// Whether some edit is a change about the matter.
#[tactic(auto, unfolding(crate::specs::Cells::desk_in))]
pub fn changes_some(bank: &Bank<CELLS>, plan: &Plan, matter: Matter) -> bool
    requires { IsBy (cells_of bank.now) }
    ensures { result ≡ changes_some (is_about matter) (plan_of plan.now) (desk_in (cells_of bank.now)).edits }
{
    for k in 1..bank.get(COUNT) as usize + 1 {
        let edit = edit(bank, k);
        if is_change_about(matter, plan, edit) {
            return true;
        }
    }
    false
}
