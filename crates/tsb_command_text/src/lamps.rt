//! Numbers of phases, detectors and stations, and lamps of heads, as commands write them.
ghost use Rattle.std.specs.Prelude.{◌≡◌};
ghost use Rattle.tsb_command_text.specs.Lamps.{detector_of, head_number, lamp_of, pedestrian_signal_of, phase_of, signal_of, station_of};

use crate::names::is;
use tsb_lines::number;
use tsb_types::{Detector, Lamp, Overlap, PedestrianColor, Phase, SignalColor, Station};

pub(crate) fn phase(word: &[u8]) -> Option<Phase>
    ensures { result ≡ phase_of word.now }
{
    Phase::new(number(word)?)
}

pub(crate) fn detector(word: &[u8]) -> Option<Detector>
    ensures { result ≡ detector_of word.now }
{
    Detector::new(number(word)?)
}

pub(crate) fn station(word: &[u8]) -> Option<Station>
    ensures { result ≡ station_of word.now }
{
    Station::new(number(word)?)
}

/// The lamp of a head, as `P3`, `O1` or `W16`, and an aspect.
pub(crate) fn lamp(head: &[u8], aspect: &[u8]) -> Option<Lamp>
    ensures { result ≡ lamp_of head.now aspect.now }
{
    let (letter, digits) = head.split_first()?;
    if *letter == b'P' {
        let phase = Phase::new(number_of_head(digits)?)?;
        return Some(Lamp::Phase(phase, signal(aspect)?));
    }
    if *letter == b'O' {
        let overlap = Overlap::new(number_of_head(digits)?)?;
        if is(aspect, b"P") {
            return Some(Lamp::Arrow(overlap));
        }
        return Some(Lamp::Overlap(overlap, signal(aspect)?));
    }
    if *letter == b'W' {
        let phase = Phase::new(number_of_head(digits)?)?;
        return Some(Lamp::Pedestrian(phase, pedestrian_signal(aspect)?));
    }
    None
}

/// The number of a head, which has no leading zero.
fn number_of_head(digits: &[u8]) -> Option<u32>
    ensures { result ≡ head_number digits.now }
{
    match digits {
        [] => None,
        [first, ..] if *first == b'0' => None,
        _ => number(digits),
    }
}

fn signal(word: &[u8]) -> Option<SignalColor>
    ensures { result ≡ signal_of word.now }
{
    if is(word, b"G") {
        return Some(SignalColor::Green);
    }
    if is(word, b"Y") {
        return Some(SignalColor::Yellow);
    }
    if is(word, b"R") {
        return Some(SignalColor::Red);
    }
    None
}

fn pedestrian_signal(word: &[u8]) -> Option<PedestrianColor>
    ensures { result ≡ pedestrian_signal_of word.now }
{
    if is(word, b"W") {
        return Some(PedestrianColor::Walk);
    }
    if is(word, b"C") {
        return Some(PedestrianColor::Clearance);
    }
    if is(word, b"D") {
        return Some(PedestrianColor::DontWalk);
    }
    None
}
