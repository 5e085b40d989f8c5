//! Reading a display line.
ghost use Rattle.std.specs.Prelude.{◌≡◌, ◌≤◌, ◌==◌, ◌&&◌, nat_le, true, length, slice_index, codes, IfSome};
ghost use Rattle.std.specs.List.{list_all};
ghost use Rattle.tsb_field_display.specs.Reading.{heads_with, is_display, is_local, is_preempt, is_spelled, is_whole, list_with, overlap_letters, pedestrians_of, preempt_of, shown_of, vehicles_of};
ghost use Rattle.tsb_field_display.specs.Shows.{AreApart};

use crate::shown::{PedestrianHeads, Shown, Signals, VehicleHeads};
use tsb_display_text::{WIDE, WIDTH};
use tsb_lines::number;
use tsb_types::NumberSet;
use tsb_types::limits::PREEMPTS;

/// What a display line shows, or `None` where the line is not one: a display line has 53 bytes, with a space between
/// its fields, and digits and letters in their places. No other answer of a session is one. Where wide lines are read a
/// display line has 70 bytes, and only those count: its overlaps are those of its seventh field.
#[tactic(auto, unfolding(crate::specs::Reading::shown_of))]
pub fn read_line(line: &[u8], is_wide: bool) -> Option<Shown>
    ensures shown { result ≡ shown_of is_wide line.now }
    ensures apart { IfSome result (λ s. AreApart s.signals) }
{
    if !is_whole(line, is_wide) || !is_display(line) {
        return None;
    }
    let tick = number(&line[..7])?;
    Some(Shown {
        tick,
        signals: Signals {
            vehicles: vehicles(&line[8..24]),
            pedestrians: pedestrians(&line[25..41]),
            overlaps: overlaps(line, is_wide),
            preempt: preempt(line[47]),
        },
    })
}

/// Whether a line has the length of a display line; a wide line has a seventh field too.
fn is_whole(line: &[u8], is_wide: bool) -> bool
    ensures whole { result ≡ is_whole is_wide line.now }
    ensures long { result ≡ true → 53 ≤ length line.now }
    ensures wide { result ≡ true → is_wide ≡ true → length line.now ≡ 70 }
{
    if is_wide {
        line.len() == WIDE && line[53] == b' ' && are_overlaps(&line[54..70])
    } else {
        line.len() == WIDTH
    }
}

/// What the letters of overlaps show: those of the fourth field, or of the seventh of a wide line.
fn overlaps(line: &[u8], is_wide: bool) -> VehicleHeads
    requires long { 53 ≤ length line.now }
    requires wide { is_wide ≡ true → length line.now ≡ 70 }
    ensures { result ≡ vehicles_of (overlap_letters is_wide line.now) }
{
    if is_wide {
        vehicles(&line[54..70])
    } else {
        vehicles(&line[42..46])
    }
}

/// Whether all but the tick of a display line is in its place, in the first 53 bytes.
#[tactic(auto, unfolding(crate::specs::Reading::is_display))]
fn is_display(line: &[u8]) -> bool
    requires { 53 ≤ length line.now }
    ensures display { result ≡ is_display line.now }
    ensures preempt { result ≡ true → is_preempt (slice_index line.now 47) ≡ true }
{
    line[7] == b' '
        && line[24] == b' '
        && line[41] == b' '
        && line[46] == b' '
        && line[48] == b' '
        && are_vehicles(&line[8..24])
        && are_pedestrians(&line[25..41])
        && are_overlaps(&line[42..46])
        && is_preempt(line[47])
        && is_local(&line[49..53])
}

/// Whether each byte is a letter of a vehicle head.
fn are_vehicles(letters: &[u8]) -> bool
    ensures { result ≡ is_spelled (codes "-RYGF") letters.now }
{
    for letter in letters {
        if !matches!(*letter, b'-' | b'R' | b'Y' | b'G' | b'F') {
            return false;
        }
    }
    true
}

/// Whether each byte is a letter of the head of an overlap.
fn are_overlaps(letters: &[u8]) -> bool
    ensures { result ≡ is_spelled (codes "-RYGPF") letters.now }
{
    for letter in letters {
        if !matches!(*letter, b'-' | b'R' | b'Y' | b'G' | b'P' | b'F') {
            return false;
        }
    }
    true
}

/// Whether each byte is a letter of a pedestrian head.
fn are_pedestrians(letters: &[u8]) -> bool
    ensures { result ≡ is_spelled (codes "-DCW") letters.now }
{
    for letter in letters {
        if !matches!(*letter, b'-' | b'D' | b'C' | b'W') {
            return false;
        }
    }
    true
}

/// Whether a byte gives the preempt in service.
fn is_preempt(digit: u8) -> bool
    ensures { result ≡ is_preempt digit }
{
    b'0' <= digit && digit <= b'0' + PREEMPTS
}

/// Whether each byte is a digit, or each a dash.
fn is_local(field: &[u8]) -> bool
    ensures { result ≡ is_local field.now }
{
    are_digits(field) || are_dashes(field)
}

/// Whether each byte is a digit.
fn are_digits(field: &[u8]) -> bool
    ensures { result ≡ list_all (λ b. nat_le 48 b && nat_le b 57) field.now }
{
    for byte in field {
        if *byte < b'0' || *byte > b'9' {
            return false;
        }
    }
    true
}

/// Whether each byte is a dash.
fn are_dashes(field: &[u8]) -> bool
    ensures { result ≡ list_all (λ b. b == 45) field.now }
{
    for byte in field {
        if *byte != b'-' {
            return false;
        }
    }
    true
}

/// What letters of vehicle heads show.
fn vehicles(letters: &[u8]) -> VehicleHeads
    requires { length letters.now ≤ 16 }
    ensures { result ≡ vehicles_of letters.now }
{
    VehicleHeads {
        greens: heads_with(letters, b'G'),
        yellows: heads_with(letters, b'Y'),
        reds: heads_with(letters, b'R'),
        flashing: heads_with(letters, b'F'),
        arrows: heads_with(letters, b'P'),
    }
}

/// What letters of pedestrian heads show.
fn pedestrians(letters: &[u8]) -> PedestrianHeads
    requires { length letters.now ≤ 16 }
    ensures { result ≡ pedestrians_of letters.now }
{
    PedestrianHeads {
        walks: heads_with(letters, b'W'),
        clearances: heads_with(letters, b'C'),
        dont_walks: heads_with(letters, b'D'),
    }
}

/// The preempt in service, by its digit.
fn preempt(digit: u8) -> Option<u8>
    requires { is_preempt digit ≡ true }
    ensures { result ≡ preempt_of digit }
{
    if digit == b'0' {
        None
    } else {
        Some(digit - b'0')
    }
}

/// The heads whose letter this is, the first letter for head 1.
fn heads_with(letters: &[u8], letter: u8) -> NumberSet
    requires { length letters.now ≤ 16 }
    ensures { result ≡ heads_with letter letters.now }
{
    let mut list: u32 = 0;
    let mut weight: u32 = 1;
    for found in letters {
        if *found == letter {
            list += weight;
        }
        weight *= 2;
    }
    NumberSet::from_list(list as u16)
}
