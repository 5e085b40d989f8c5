//! Random logs.
ghost use Rattle.std.specs.Prelude.{◌<◌, ◌≤◌};
ghost use Rattle.tsb_step.specs.Step.{last_tick};

use crate::timed::random::Random;
use std::alloc::{AllocError, Global};
use tsb_objects::limits;

/// How many inputs change: vehicle detectors 1 to 8 every 30 to 100 ticks, pedestrian detector 2 every 200 to 1,199.
const INPUTS: usize = 9;

/// The row of tick 0: all inputs are off.
const ROW: [u8; 39] = *b"0000000 0000000000000000 00000000 0000\n";

/// Inputs that change at random.
#[derive(Drop)]
struct Inputs {
    random: Random,
    /// The tick at which each changes next.
    due: [u32; INPUTS],
    /// The row of the tick at which one has changed last, with a line feed.
    row: [u8; 39],
}

impl Inputs {
    /// The inputs of the log of this number, at tick 0.
    fn new(number: u32) -> Inputs {
        let mut random = Random::new(number);
        let mut due = [0; INPUTS];
        for k in 0..INPUTS {
            due[k] = 1 + random.below(100);
        }
        Inputs {
            random,
            due,
            row: ROW,
        }
    }

    /// Changes the inputs that change at this tick, and says whether there are any.
    fn change(&mut self, tick: u32) -> bool
        requires { tick ≤ last_tick }
    {
        let mut is_changed = false;
        for k in 0..INPUTS {
            if self.due[k] == tick {
                self.row[place_of(k)] ^= 1;
                self.due[k] = tick + self.pause(k);
                is_changed = true;
            }
        }
        if is_changed {
            self.put_tick(tick);
        }
        is_changed
    }

    /// How many ticks an input stays as it is.
    fn pause(&mut self, k: usize) -> u32
        ensures { result ≤ 1200 }
    {
        if k < 8 {
            30 + self.random.below(71)
        } else {
            200 + self.random.below(1000)
        }
    }

    /// Puts a tick into the row.
    fn put_tick(&mut self, tick: u32) {
        let mut rest = tick;
        for k in 0..7 {
            self.row[6 - k] = b'0' + (rest % 10) as u8;
            rest /= 10;
        }
    }
}

/// Where the digit of an input is in a row.
fn place_of(k: usize) -> usize
    requires { k < 9 }
    ensures { result < 39 }
{
    if k < 8 { 8 + k } else { 26 }
}

/// The text of the log of this number, up to this tick.
pub fn random_log(alloc: Global, number: u32, ticks: u32) -> Result<Vec<u8>, AllocError> {
    let mut inputs = Inputs::new(number);
    let mut text = Vec::new(alloc);
    for tick in 1..=ticks.min(limits::TICKS) {
        if inputs.change(tick) {
            text.extend_from_slice(&inputs.row)?;
        }
    }
    Ok(text)
}
