//! Heads, fields and the monitor alone.
ghost use Rattle.std.specs.Prelude.{◌≡◌, false};
ghost use Rattle.arrayvec.specs.ArrayVec.{array_vec_len};
ghost use Rattle.tsb_heads.specs.Promises.{AreApart, Flashes};

use crate::driven::{Changes, Driven, Ticked};
use crate::fault::Fault;
use crate::numbers::Numbers;
use std::alloc::Global;
use tsb_heads::{Commitments, Display, Field, Monitor, Trip};
use tsb_objects::{
    Checked, Intervals, Lamp, Overlap, OverlapLights, PedestrianColor, Pedestrians, Phase,
    PhaseSet, SignalColor,
};

/// What the heads are given: intervals, pedestrian parts and both commitments.
#[derive(Clone, Copy, Drop)]
pub struct Given {
    intervals: Intervals,
    pedestrians: Pedestrians,
    ring_1: Option<Phase>,
    ring_2: Option<Phase>,
}

/// What a line gave the heads last, and what the lamps showed at the last tick.
#[derive(Drop)]
pub struct Heading {
    told: Given,
    shown: Option<Field>,
}

impl Heading {
    /// A line `d`: what the heads are given; the sets of heads that show each aspect.
    fn show(&mut self, numbers: Numbers, plan: &Checked) -> Result<u32, Fault> {
        let mut numbers = numbers;
        let told = Heading::read(&mut numbers)?;
        // (field by field, as the prover refuses an assignment of the whole)
        self.told.intervals = told.intervals;
        self.told.pedestrians = told.pedestrians;
        self.told.ring_1 = told.ring_1;
        self.told.ring_2 = told.ring_2;
        shows(&mut numbers, &display(&told, plan))?;
        Ok(1)
    }

    /// A line `j`: a lamp that was injected and one that is, over the display that was given last; the trip.
    fn judge(&self, numbers: Numbers, plan: &Checked) -> Result<u32, Fault> {
        let mut numbers = numbers;
        let before = lamp(&mut numbers)?;
        let after = lamp(&mut numbers)?;
        let previous = Field::new(display(&self.told, plan), before);
        let field = Field::new(display(&self.told, plan), after);
        match Monitor::judge(&previous, &field, plan) {
            None => tells_three(&mut numbers, 0, 0, 0)?,
            Some(trip) => tells_trip(&mut numbers, &trip)?,
        }
        numbers.ends()?;
        Ok(1)
    }
}

impl Driven for Heading {
    fn power_up(_alloc: Global, _plan: &Checked) -> Result<Heading, Fault> {
        let none = PhaseSet::empty();
        Ok(Heading {
            told: Given {
                intervals: Intervals {
                    green: none,
                    yellow: none,
                    red_clear: none,
                },
                pedestrians: Pedestrians {
                    walk: none,
                    clearance: none,
                },
                ring_1: None,
                ring_2: None,
            },
            shown: None,
        })
    }

    fn take(&mut self, kind: &[u8], numbers: Numbers, plan: &Checked) -> Result<u32, Fault> {
        if kind == b"d".as_slice() {
            self.show(numbers, plan)
        } else if kind == b"j".as_slice() {
            self.judge(numbers, plan)
        } else {
            Err(Fault::Malformed)
        }
    }
}

impl Ticked for Heading {
    type Given = Given;

    type Answer = bool;

    fn read(numbers: &mut Numbers) -> Result<Given, Fault> {
        Ok(Given {
            intervals: numbers.intervals()?,
            pedestrians: numbers.pedestrians()?,
            ring_1: numbers.phase()?,
            ring_2: numbers.phase()?,
        })
    }

    /// One tick: what the lamps show is judged. It answers whether the monitor trips.
    #[inline(always)]
    fn tick(&mut self, given: &Given, plan: &Checked, _out: &mut Changes) -> Result<bool, Fault> {
        let field = Field::new(display(given, plan), None);
        let trips = match &self.shown {
            Some(previous) => Monitor::judge(previous, &field, plan).is_some(),
            None => false,
        };
        self.shown = Some(field);
        Ok(trips)
    }

    #[inline(always)]
    fn is_due(answer: &bool) -> bool {
        *answer
    }
}

#[inline(always)]
fn display(given: &Given, plan: &Checked) -> Display
    ensures steady { Flashes false result }
    ensures apart { AreApart result }
{
    Display::new(
        &given.intervals,
        &given.pedestrians,
        Commitments {
            ring_1: given.ring_1,
            ring_2: given.ring_2,
        },
        &OverlapLights::none(),
        false,
        plan,
    )
}

/// The sets of heads that show each aspect, which the rest of the line says.
fn shows(numbers: &mut Numbers, display: &Display) -> Result<(), Fault> {
    numbers.tells_phases(display.vehicle_reds())?;
    numbers.tells_phases(display.vehicle_yellows())?;
    numbers.tells_phases(display.vehicle_greens())?;
    numbers.tells_phases(display.dont_walks())?;
    numbers.tells_phases(display.clearances())?;
    numbers.tells_phases(display.walks())?;
    numbers.tells(u32::from(display.overlap_reds().list()))?;
    numbers.tells(u32::from(display.overlap_yellows().list()))?;
    numbers.tells(u32::from(display.overlap_greens().list()))?;
    numbers.ends()
}

fn tells_trip(numbers: &mut Numbers, trip: &Trip) -> Result<(), Fault> {
    match trip {
        Trip::Conflict(p, q) => tells_three(numbers, 1, p.number(), q.number()),
        Trip::GreenToRed(p) => tells_three(numbers, 2, p.number(), 0),
    }
}

fn tells_three(numbers: &mut Numbers, kind: u8, first: u8, second: u8) -> Result<(), Fault> {
    numbers.tells(u32::from(kind))?;
    numbers.tells(u32::from(first))?;
    numbers.tells(u32::from(second))
}

/// The lamp that three numbers say: its kind, 0 for none, the number of its head, and its colour.
fn lamp(numbers: &mut Numbers) -> Result<Option<Lamp>, Fault> {
    let kind = numbers.number()?;
    let head = numbers.number()?;
    let color = numbers.number()?;
    match kind {
        0 => Ok(None),
        1 => Ok(Some(Lamp::Phase(phase(head)?, signal(color)))),
        2 => Ok(Some(Lamp::Pedestrian(phase(head)?, pedestrian(color)))),
        _ => {
            let overlap = Overlap::new(head).ok_or(Fault::Malformed)?;
            Ok(Some(Lamp::Overlap(overlap, signal(color))))
        }
    }
}

fn phase(number: u32) -> Result<Phase, Fault> {
    Phase::new(number).ok_or(Fault::Malformed)
}

fn signal(color: u32) -> SignalColor {
    match color {
        0 => SignalColor::Red,
        1 => SignalColor::Yellow,
        _ => SignalColor::Green,
    }
}

fn pedestrian(color: u32) -> PedestrianColor {
    match color {
        0 => PedestrianColor::DontWalk,
        1 => PedestrianColor::Clearance,
        _ => PedestrianColor::Walk,
    }
}
