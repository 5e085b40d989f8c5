//! Edits put into the cells and into the map that finds them, and taken out again when the transaction is closed.
//!
//! The map has the place of each edit as its key and the value beside it, in the order of the edits. It is made with
//! room for 64, so that no insertion takes memory.
ghost use Rattle.std.specs.Prelude.{◌≡◌, ◌==◌, ℕ, ◌+◌, ◌<◌, ◌≤◌, true, false, is_some, take, None, Some, [], slice_index, nat_eq};
ghost use Rattle.indexmap.specs.IndexMap.{index_map_len, spare, keys, get, insert_entry, index_of_by, IsUnique};
ghost use Rattle.tsb_cells.specs.Bank.{cells_of, kept_of, is_open};
ghost use Rattle.tsb_plan.specs.Objects.{greatest};
ghost use Rattle.tsb_plan.specs.declared.object.TheConstants.{PLAN_CELLS};
ghost use Rattle.tsb_plan.specs.PlanOf.{put_refusal};
ghost use Rattle.tsb_transact.specs.declared.TheConstants.{MOST_EDITS};
ghost use Rattle.tsb_transact.specs.Calls.{has_no_room, with_set};
ghost use Rattle.tsb_transact.specs.Cells.{IsBy, desk_in, id_at};
ghost use Rattle.tsb_transact.specs.Desk.{closed};
ghost use Rattle.tsb_transact.specs.Promises.{UnlessMemory};
ghost use Rattle.tsb_transact.specs.Rows.{IsRow, Leaves, pairs_in, pairs_to};

use crate::cells::blank;
use crate::edit_list::{place_cell, value_cell};
use crate::head_cells::{COUNT, RULE, STATE, TRANSACTION};
use crate::places::place;
use crate::{CELLS, MOST_EDITS};
use indexmap::IndexMap;
use std::alloc::Global;
use tsb_cells::Bank;
use tsb_objects::{ObjectId, Refusal};

/// A map without edits, with room for 64: so many are put in and taken out again. E1 is its only refusal.
pub fn empty_map(alloc: Global) -> Result<IndexMap<u32, u32>, Refusal>
    ensures empty { UnlessMemory (λ edits. edits.entries ≡ []) result }
    ensures room { UnlessMemory (λ edits. MOST_EDITS ≤ index_map_len edits + spare edits) result }
{
    let mut edits = IndexMap::new(alloc);
    for place in 0..MOST_EDITS as u32 {
        let Ok(_) = edits.insert(place, 0) else {
            return Err(Refusal::Memory);
        };
    }
    edits.clear();
    Ok(edits)
}

/// Makes the map hold the cells' edits. Its room for 64 is kept, so no memory is taken. Edits at the front that are in
/// the map already stay there, so that what takes one edit back does not put the others in again.
pub fn refill(edits: &mut IndexMap<u32, u32>, bank: &Bank<CELLS>)
    requires row { IsRow (cells_of bank.now) }
    requires room { MOST_EDITS ≤ index_map_len edits.old + spare edits.old }
    ensures entries { edits.new.entries ≡ pairs_in (cells_of bank.now) }
    ensures room { MOST_EDITS ≤ index_map_len edits.new + spare edits.new }
{
    let front = mend_front(edits, bank);
    cut(edits, front);
    let count = bank.get(COUNT) as usize;
    for k in edits.len() + 1..count + 1 {
        insert(edits, bank.get(place_cell(k)), bank.get(value_cell(k)));
    }
}

/// Gives edits at the front of the map the cells' values, as far as they have the cells' places, and says how many do.
fn mend_front(edits: &mut IndexMap<u32, u32>, bank: &Bank<CELLS>) -> usize
    requires { slice_index (cells_of bank.now) 3 ≤ MOST_EDITS }
    ensures few { result ≤ slice_index (cells_of bank.now) 3 }
    ensures held { result ≤ index_map_len edits.new }
    ensures same { take result edits.new.entries ≡ pairs_to (cells_of bank.now) result }
    ensures room { index_map_len edits.new + spare edits.new ≡ index_map_len edits.old + spare edits.old }
{
    let most = edits.len().min(bank.get(COUNT) as usize);
    for i in 0..most {
        if !has_place(edits, i, bank.get(place_cell(i + 1))) {
            return i;
        }
        edits[i] = bank.get(value_cell(i + 1));
    }
    most
}

/// Whether the edit at an index of the map has this place.
fn has_place(edits: &IndexMap<u32, u32>, i: usize, place: u32) -> bool
    requires { i < index_map_len edits.now }
    ensures { result ≡ (slice_index (keys edits.now) i == place) }
{
    match edits.get_index(i) {
        Some((key, _)) => *key == place,
        None => false,
    }
}

/// Keeps edits at the front of the map, `most` at most, and its room for 64. An edit that goes may leave no room for
/// another: where there might be too little, none stays.
fn cut(edits: &mut IndexMap<u32, u32>, most: usize)
    requires room { MOST_EDITS ≤ index_map_len edits.old + spare edits.old }
    requires within { most ≤ index_map_len edits.old }
    ensures few { index_map_len edits.new ≤ most }
    ensures kept { edits.new.entries ≡ take (index_map_len edits.new) edits.old.entries }
    ensures room { MOST_EDITS ≤ index_map_len edits.new + spare edits.new }
{
    let unused = edits.capacity() - edits.len();
    if most + unused >= MOST_EDITS {
        edits.truncate(most);
    } else {
        edits.clear();
    }
}

/// Inserts a pair into a map with room.
fn insert(edits: &mut IndexMap<u32, u32>, place: u32, value: u32)
    requires room { 0 < spare edits.old }
    ensures entries { edits.new.entries ≡ insert_entry nat_eq edits.old.entries place value }
    ensures spare { spare edits.old ≤ spare edits.new + 1 }
    ensures unique { IsUnique nat_eq edits.new }
{
    edits.insert(place, value).unwrap();
}

/// Gives the edit at an index of the map another value. A write in place, so that the map keeps all its room.
fn rewrite_edit(
    bank: &mut Bank<CELLS>,
    edits: &mut IndexMap<u32, u32>,
    i: usize,
    place: u32,
    value: u32,
)
    requires opened { is_open bank.old ≡ true }
    requires by { IsBy (cells_of bank.old) }
    requires tied { edits.old.entries ≡ pairs_in (cells_of bank.old) }
    requires index { Some i ≡ index_of_by (nat_eq place) edits.old }
    requires fits { value ≤ greatest (id_at place).object }
    ensures by { IsBy (cells_of bank.new) }
    ensures tied { insert_entry nat_eq edits.old.entries place value ≡ pairs_in (cells_of bank.new) }
    ensures room { index_map_len edits.new + spare edits.new ≡ index_map_len edits.old + spare edits.old }
    ensures entries { edits.new.entries ≡ insert_entry nat_eq edits.old.entries place value }
    ensures head { (j : ℕ) → j < 3 → slice_index (cells_of bank.new) j ≡ slice_index (cells_of bank.old) j }
    ensures kept { kept_of bank.new ≡ kept_of bank.old }
    ensures opened { is_open bank.new ≡ true }
{
    bank.put(value_cell(i + 1), value);
    edits[i] = value;
}

/// Puts an edit of a new place after the others.
fn add_edit(bank: &mut Bank<CELLS>, edits: &mut IndexMap<u32, u32>, place: u32, value: u32)
    requires opened { is_open bank.old ≡ true }
    requires by { IsBy (cells_of bank.old) }
    requires tied { edits.old.entries ≡ pairs_in (cells_of bank.old) }
    requires room { MOST_EDITS ≤ index_map_len edits.old + spare edits.old }
    requires from { 1 ≤ place }
    requires to { place ≤ PLAN_CELLS }
    requires fits { value ≤ greatest (id_at place).object }
    requires space { slice_index (cells_of bank.old) 3 < MOST_EDITS }
    requires absent { get nat_eq edits.old place ≡ None }
    ensures by { IsBy (cells_of bank.new) }
    ensures entries { edits.new.entries ≡ insert_entry nat_eq edits.old.entries place value }
    ensures tied { edits.new.entries ≡ pairs_in (cells_of bank.new) }
    ensures room { MOST_EDITS ≤ index_map_len edits.new + spare edits.new }
    ensures head { (j : ℕ) → j < 3 → slice_index (cells_of bank.new) j ≡ slice_index (cells_of bank.old) j }
    ensures kept { kept_of bank.new ≡ kept_of bank.old }
    ensures opened { is_open bank.new ≡ true }
{
    let k = edits.len() + 1;
    bank.put(place_cell(k), place);
    bank.put(value_cell(k), value);
    bank.put(COUNT, k as u32);
    insert(edits, place, value);
}

/// Puts an edit into the cells and the map: one of a new place goes last, and one that is there already keeps its
/// place.
fn put_edit(bank: &mut Bank<CELLS>, edits: &mut IndexMap<u32, u32>, place: u32, value: u32)
    requires opened { is_open bank.old ≡ true }
    requires by { IsBy (cells_of bank.old) }
    requires tied { edits.old.entries ≡ pairs_in (cells_of bank.old) }
    requires room { MOST_EDITS ≤ index_map_len edits.old + spare edits.old }
    requires from { 1 ≤ place }
    requires to { place ≤ PLAN_CELLS }
    requires fits { value ≤ greatest (id_at place).object }
    requires space { get nat_eq edits.old place ≡ None → slice_index (cells_of bank.old) 3 < MOST_EDITS }
    ensures by { IsBy (cells_of bank.new) }
    ensures entries { edits.new.entries ≡ insert_entry nat_eq edits.old.entries place value }
    ensures tied { edits.new.entries ≡ pairs_in (cells_of bank.new) }
    ensures room { MOST_EDITS ≤ index_map_len edits.new + spare edits.new }
    ensures head { (j : ℕ) → j < 3 → slice_index (cells_of bank.new) j ≡ slice_index (cells_of bank.old) j }
    ensures kept { kept_of bank.new ≡ kept_of bank.old }
    ensures opened { is_open bank.new ≡ true }
{
    match edits.get_index_of(&place) {
        Some(i) => rewrite_edit(bank, edits, i, place, value),
        None => add_edit(bank, edits, place, value),
    }
}

/// Puts an edit into the open transaction. What a check found of the earlier edits is forgotten.
pub fn edit_transaction(
    bank: &mut Bank<CELLS>,
    edits: &mut IndexMap<u32, u32>,
    id: ObjectId,
    value: u32,
)
    requires opened { is_open bank.old ≡ true }
    requires row { IsRow (cells_of bank.old) }
    requires tied { edits.old.entries ≡ pairs_in (cells_of bank.old) }
    requires room { MOST_EDITS ≤ index_map_len edits.old + spare edits.old }
    requires owned { is_some (desk_in (cells_of bank.old)).owner ≡ true }
    requires taken { put_refusal id value ≡ None }
    requires space { has_no_room id (desk_in (cells_of bank.old)).edits ≡ false }
    ensures leaves { Leaves (with_set id value (desk_in (cells_of bank.old))) edits.new.entries (cells_of bank.new) }
    ensures room { MOST_EDITS ≤ index_map_len edits.new + spare edits.new }
    ensures kept { kept_of bank.new ≡ kept_of bank.old }
    ensures opened { is_open bank.new ≡ true }
{
    put_edit(bank, edits, place(id), value);
    bank.put(STATE, TRANSACTION);
    bank.put(RULE, 0);
    let _len = edits.len();
}

/// Closes the transaction: no station owns the desk, and there are no edits.
pub fn close_transaction(bank: &mut Bank<CELLS>, edits: &mut IndexMap<u32, u32>)
    requires opened { is_open bank.old ≡ true }
    requires room { MOST_EDITS ≤ index_map_len edits.old + spare edits.old }
    ensures leaves { Leaves closed edits.new.entries (cells_of bank.new) }
    ensures room { MOST_EDITS ≤ index_map_len edits.new + spare edits.new }
    ensures kept { kept_of bank.new ≡ kept_of bank.old }
    ensures opened { is_open bank.new ≡ true }
{
    blank(bank);
    edits.clear();
}
