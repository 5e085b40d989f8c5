//! Places of objects: each object at each index has one, 1 to `PLAN_CELLS`, among all values of a plan.
ghost use Rattle.std.specs.Prelude.{◌≡◌, ◌≤◌, true, IfSome};
ghost use Rattle.tsb_plan.specs.Objects.{has_index};
ghost use Rattle.tsb_plan.specs.declared.object.TheConstants.{PLAN_CELLS};
ghost use Rattle.tsb_transact.specs.Cells.{place_of, id_at, id_among};

use tsb_objects::{Object, ObjectId, limits};

/// The place of an object's value at an index among all of a plan, from 1.
pub fn place(id: ObjectId) -> u32
    requires { has_index id.object id.index ≡ true }
    ensures at { result ≡ place_of id }
    ensures from { 1 ≤ result }
    ensures within { result ≤ PLAN_CELLS }
{
    id.object.first_cell() as u32 + id.index
}

/// The object and index at a place among the values of these objects, from 1. A place after all of them has none: it
/// gives the index 0, which no object has.
fn id_among(all: &[Object], place: u32) -> ObjectId
    ensures { result ≡ id_among all.now place }
{
    let mut rest = place;
    for object in all {
        if rest <= object.indices() {
            return ObjectId {
                object: *object,
                index: rest,
            };
        }
        rest -= object.indices();
    }
    ObjectId {
        object: Object::PhaseEnabled,
        index: 0,
    }
}

/// The object and index at a place, if the place is one of this object's.
fn id_of(object: Object, place: u32) -> Option<ObjectId>
    ensures { IfSome result (λ id. id ≡ id_at place) }
{
    let before = object.first_cell();
    let place = place as usize;
    if before < place && place - before <= object.indices() as usize {
        return Some(ObjectId {
            object,
            index: (place - before) as u32,
        });
    }
    None
}

/// The object and index at a place, if each object up to its own has as many indices as there are phases.
fn id_by_phases(place: u32) -> Option<ObjectId>
    ensures { IfSome result (λ id. id ≡ id_at place) }
{
    let number = place.saturating_sub(1) as usize / limits::PHASES;
    if number < Object::COUNT {
        id_of(Object::ALL[number], place)
    } else {
        None
    }
}

/// The object and index at a place among all of a plan, 1 to `PLAN_CELLS`. Those of phases come first, with 16 indices
/// each, so they are found at once.
#[tactic(auto, unfolding(tsb_plan::specs::Objects::objects))]
pub fn id_at(place: u32) -> ObjectId
    ensures { result ≡ id_at place }
{
    match id_by_phases(place) {
        Some(id) => id,
        None => id_among(&Object::ALL, place),
    }
}
