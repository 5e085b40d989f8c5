//! The desk when it is full, when a change of it is abandoned, and when it is cloned.
ghost use Rattle.std.specs.Prelude.{◌≡◌, true, false};
ghost use Rattle.tsb_transact.specs.Layer.{is_open};

use tsb_cells::{Reversible, abandon};
use tsb_objects::{Object, ObjectId, Refusal, Station};
use tsb_transact::*;

fn split_time(index: u32) -> ObjectId {
    ObjectId {
        object: Object::SplitTime,
        index,
    }
}

/// Whether the station begins, and then may not begin again.
fn begins(desk: &mut Desk, station: Station) -> bool
    requires closed { is_open desk.old ≡ false }
    ensures closed { is_open desk.new ≡ false }
{
    desk.open();
    let first = desk.begin(station);
    let second = desk.begin(station);
    let _ = desk.close();
    first == Ok(()) && second == Err(Refusal::Busy(station))
}

/// Whether the desk takes as many edits as it has room for.
fn is_filled(desk: &mut Desk, station: Station) -> bool
    requires closed { is_open desk.old ≡ false }
    ensures closed { is_open desk.new ≡ false }
{
    desk.open();
    let mut is_set = true;
    for index in 1..65u32 {
        is_set &= desk.set(station, split_time(index), index).is_ok();
    }
    let _ = desk.close();
    is_set
}

/// Whether the desk has no room for a new object.
fn is_full(desk: &Desk, station: Station) -> bool {
    desk.set_refusal(station, split_time(65), 1) == Some(Refusal::TooManyEdits)
        && desk.edits().len() == 64
}

/// Whether the desk has room for a new value of an object that is there.
fn takes_again(desk: &Desk, station: Station) -> bool {
    desk.set_refusal(station, split_time(1), 9) == None
}

/// Whether the station may abort, which is then abandoned.
fn abandons_an_abort(desk: &mut Desk, station: Station) -> bool
    requires closed { is_open desk.old ≡ false }
{
    desk.open();
    let ended = desk.abort(station);
    let owner = desk.owner();
    abandon(desk);
    ended == Ok(()) && owner == None
}

/// Whether no station owns the desk, and it has no edits.
fn is_closed(desk: &Desk) -> bool {
    desk.owner() == None && desk.state() == DeskState::Normal && desk.edits().is_empty()
}

#[test]
fn clones_a_new_desk(rt: HostRuntime) {
    let Ok(desk) = Desk::new(rt.alloc()) else {
        panic!(rt; "no memory");
    };
    let Ok(mut clone) = desk.clone_in(rt.alloc()) else {
        panic!(rt; "no memory");
    };
    assert!(rt; is_closed(&clone));
    let s = Station::of(1);
    assert!(rt; begins(&mut clone, s) && is_filled(&mut clone, s));
    assert!(rt; is_full(&clone, s) && is_closed(&desk));
}

#[test]
fn keeps_its_edits_through_undo(rt: HostRuntime) {
    let Ok(mut desk) = Desk::new(rt.alloc()) else {
        panic!(rt; "no memory");
    };
    let s = Station::of(1);
    assert!(rt; begins(&mut desk, s) && is_filled(&mut desk, s));
    assert!(rt; is_full(&desk, s) && takes_again(&desk, s));
    assert!(rt; abandons_an_abort(&mut desk, s) && is_full(&desk, s));
}
