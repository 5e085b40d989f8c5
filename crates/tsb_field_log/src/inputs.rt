//! Inputs of a bench, and what events say of them.
ghost use Rattle.std.specs.Prelude.{◌≡◌};
ghost use Rattle.tsb_field_log.specs.Inputs.{inputs_in_digits, is_of, most_inputs, signal_of};

use tsb_types::limits::{PEDESTRIAN_DETECTORS, PREEMPTS, VEHICLE_DETECTORS};

/// A kind of input.
#[derive(Clone, Copy, PartialEq, Eq)]
pub enum InputKind {
    /// A vehicle detector.
    Vehicle,
    /// A pedestrian detector.
    Pedestrian,
    /// A preempt input.
    Preempt,
}

impl InputKind {
    /// How many inputs of this kind a bench has.
    pub fn most(self) -> u8
        ensures { result ≡ most_inputs self }
    {
        match self {
            InputKind::Vehicle => VEHICLE_DETECTORS,
            InputKind::Pedestrian => PEDESTRIAN_DETECTORS,
            InputKind::Preempt => PREEMPTS,
        }
    }
}

impl InputKind {
    /// How many inputs of this kind a row in digits has. Channels up to this number lead to the inputs of their own numbers
    /// where nothing is mapped.
    pub fn digits(self) -> u8
        ensures { result ≡ inputs_in_digits self }
    {
        match self {
            InputKind::Vehicle => 16,
            InputKind::Pedestrian => 8,
            InputKind::Preempt => 4,
        }
    }
}

/// What an event says of an input: its kind, and whether it is switched on or off.
#[derive(Clone, Copy)]
pub struct Signal {
    pub kind: InputKind,
    pub on: bool,
}

impl Signal {
    /// What an event code of the Indiana enumerations says of an input: 82 and 81 switch a vehicle detector on and off,
    /// 90 and 89 a pedestrian detector, 102 and 104 a preempt input. `None` for all other codes.
    pub fn of_code(code: u32) -> Option<Signal>
        ensures { result ≡ signal_of code }
    {
        let (kind, on) = match code {
            82 => (InputKind::Vehicle, true),
            81 => (InputKind::Vehicle, false),
            90 => (InputKind::Pedestrian, true),
            89 => (InputKind::Pedestrian, false),
            102 => (InputKind::Preempt, true),
            104 => (InputKind::Preempt, false),
            _ => return None,
        };
        Some(Signal { kind, on })
    }
}

/// A channel of a controller that leads to an input of a bench. Several may lead to one input, and one to several.
#[derive(Clone, Copy, PartialEq, Eq)]
pub struct Wire {
    pub kind: InputKind,
    /// The controller's number.
    pub channel: u32,
    /// The bench's number, from 1 to the most that there are of the kind.
    pub input: u8,
}

/// An input that is switched on or off.
#[derive(Clone, Copy)]
pub struct InputEvent {
    /// The moment, in nanoseconds, as a `Moment` of an event row counts them.
    pub nanos: u128,
    pub kind: InputKind,
    /// The controller's number.
    pub channel: u32,
    /// Whether it is switched on.
    pub on: bool,
}
