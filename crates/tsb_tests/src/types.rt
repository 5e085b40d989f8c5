//! Sets and numbers.

use tsb_types::*;

/// Whether sets of numbers are their lists.
fn number_sets_are_lists(odd: NumberSet, low: NumberSet) -> bool {
    odd.intersection(low).list() == 0x0005
        && odd.union(low).list() == 0x555F
        && odd.difference(low).list() == 0x5550
        && odd.with(16, true).with(1, false).list() == 0xD554
        && odd.contains(15)
        && !odd.contains(16)
        && odd.difference(low).first() == Some(5)
        && !odd.is_empty()
        && NumberSet::empty().is_empty()
        && Row::all_off().vehicles == DetectorSet::empty()
}

/// Whether sets of phases are their lists.
fn phase_sets_are_lists(odd: PhaseSet, low: PhaseSet) -> bool {
    odd.intersection(low).list() == 0x0005
        && odd.union(low).list() == 0x555F
        && odd.difference(low).list() == 0x5550
        && odd
            .with(Phase::of(16), true)
            .with(Phase::of(1), false)
            .list()
            == 0xD554
        && odd.contains(Phase::of(15))
        && !odd.contains(Phase::of(16))
        && odd.difference(low).first() == Some(Phase::of(5))
        && !odd.is_empty()
        && PhaseSet::empty().is_empty()
}

fn popped(set: &mut PhaseSet) -> Option<Phase> {
    set.pop()
}

/// Whether the last phase and one that is put to it are taken out of a set, the lower one first.
fn are_taken_out(mut rest: PhaseSet) -> bool {
    rest.insert(Phase::of(3));
    rest.list() == 0x8004
        && popped(&mut rest) == Some(Phase::of(3))
        && popped(&mut rest) == Some(Phase::of(16))
        && popped(&mut rest) == None
}

#[test]
fn sets_are_lists(rt: HostRuntime) {
    let (odd, low) = (NumberSet::from_list(0x5555), NumberSet::from_list(0x000F));
    assert!(rt; number_sets_are_lists(odd, low));
    let (odd, low) = (PhaseSet::from_list(0x5555), PhaseSet::from_list(0x000F));
    assert!(rt; phase_sets_are_lists(odd, low) && are_taken_out(PhaseSet::from_list(0x8000)));
    laws::lists_tell_their_phases();
}

/// The number, if it is one from 1 to `most`.
fn from_one(number: u8, most: u8) -> Option<u8> {
    (1 <= number && number <= most).then_some(number)
}

/// Whether the numbers of what a plan has are those that they are to hold.
fn numbers_of_plans_are(byte: u8) -> bool {
    let number = u32::from(byte);
    let eight = from_one(byte, 8);
    let four = from_one(byte, 4);
    Ring::new(number).map(Ring::number) == from_one(byte, 2)
        && PedestrianDetector::new(number).map(PedestrianDetector::number) == from_one(byte, 16)
        && Pattern::new(number).map(Pattern::number) == from_one(byte, 16)
        && Split::new(number).map(Split::number) == eight
        && Sequence::new(number).map(Sequence::number) == four
        && Preempt::new(number).map(Preempt::number) == eight
}

/// Whether the greatest of them is made in both ways.
fn greatest_of_plans_are() -> bool {
    Ring::new(2) == Some(Ring::of(2))
        && PedestrianDetector::new(16) == Some(PedestrianDetector::of(16))
        && Pattern::new(16) == Some(Pattern::of(16))
        && Split::new(8) == Some(Split::of(8))
        && Sequence::new(4) == Some(Sequence::of(4))
        && Preempt::new(8) == Some(Preempt::of(8))
        && Phase::all().len() == 16
}

#[test]
fn numbers_of_plans_hold_their_range(rt: HostRuntime) {
    for byte in 0..20 {
        assert!(rt; numbers_of_plans_are(byte));
    }
    assert!(rt; greatest_of_plans_are());
}

/// Whether the numbers of phases and of what is beside them are those that they are to hold.
fn numbers_are(byte: u8) -> bool {
    let number = u32::from(byte);
    let four = from_one(byte, 4);
    let sixteen = from_one(byte, 16);
    Phase::new(number).map(Phase::number) == sixteen
        && Detector::new(number).map(Detector::number) == from_one(byte, 64)
        && Side::new(number).map(Side::number) == four
        && Overlap::new(number).map(Overlap::number) == sixteen
        && Station::new(number).map(Station::number) == four
}

/// Whether the greatest of them is made in both ways.
fn greatest_are() -> bool {
    Phase::new(16) == Some(Phase::of(16))
        && Detector::new(64) == Some(Detector::of(64))
        && Side::new(4) == Some(Side::of(4))
        && Overlap::new(16) == Some(Overlap::of(16))
        && Station::new(4) == Some(Station::of(4))
}

#[test]
fn numbers_hold_their_range(rt: HostRuntime) {
    for byte in 0..70 {
        assert!(rt; numbers_are(byte));
    }
    assert!(rt; greatest_are());
}
