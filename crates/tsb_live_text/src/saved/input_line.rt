//! The line of a command that is an input.
ghost use Rattle.std.specs.Prelude.{◌≡◌, ◌≤◌, ◌+◌, ◌∷◌, ◌++◌, decimal, length, true};
ghost use Rattle.tsb_live_text.specs.saved.Saved.{input_line, lamp_line, number_word, pedestrian_word, signal_word, switch_word};
ghost use Rattle.tsb_live_text.specs.saved.Says.{are_plain};
ghost use Rattle.tsb_text.specs.tsb_step.declared.inputs.Input.TheVariants as inputs;

use arrayvec::ArrayVec;
use itoa::Buffer;
use tsb_command_text::clock::{date_text, time_text};
use tsb_objects::ObjectId;
use tsb_step::Input;
use tsb_types::{ClockTime, Lamp, PedestrianColor, SignalColor, Station};

/// The most bytes of the line of a command.
const LINE: usize = 80;

/// The bytes of the line of a command, without a line feed.
pub(crate) type Line = ArrayVec<u8, LINE>;

/// The line of the command that is an input. For a tick, which has none, it is empty.
pub(crate) fn input_line(input: &Input) -> Line
    ensures line { result.items ≡ input_line input.now }
    ensures plain { are_plain result.items ≡ true }
{
    match *input {
        Input::Tick(_) => words(b""),
        Input::Pattern(number) => number_line(b"pattern ", number),
        Input::Switch(number, on) => switch_line(number, on),
        Input::Fault(None) => words(b"fault none"),
        Input::Fault(Some(lamp)) => lamp_line(lamp),
        Input::Reset => words(b"reset"),
        Input::Begin(station) => station_line(b"begin ", station),
        Input::Set(station, id, value) => set_line(station, id, value),
        Input::Verify(station) => station_line(b"verify ", station),
        Input::Commit(station) => station_line(b"commit ", station),
        Input::Abort(station) => station_line(b"abort ", station),
        Input::Clock(time) => clock_line(time),
        Input::Omit(list) => number_line(b"omit ", list),
    }
}

/// The command that sets a clock.
fn clock_line(time: ClockTime) -> Line
    ensures line { result.items ≡ input_line (inputs.Clock time) }
    ensures plain { are_plain result.items ≡ true }
{
    let mut line = words(b"clock ");
    let _ = line.try_extend_from_slice(&date_text(time));
    let _ = line.try_extend_from_slice(b" ");
    let _ = line.try_extend_from_slice(&time_text(time));
    line
}

/// A line of these words.
fn words(text: &[u8]) -> Line
    requires { length text.now ≤ 10 }
    ensures { result.items ≡ text.now }
{
    let mut line = ArrayVec::new();
    let _ = line.try_extend_from_slice(text);
    line
}

/// A word with its space, and a number.
pub(crate) fn number_line(word: &[u8], number: u32) -> Line
    requires { length word.now ≤ 8 }
    ensures line { result.items ≡ word.now ++ decimal number }
    ensures short { length result.items ≤ 18 }
    ensures plain { are_plain word.now ≡ true → are_plain result.items ≡ true }
{
    let mut digits = Buffer::new();
    let mut line = words(word);
    let _ = line.try_extend_from_slice(digits.format(number).as_bytes());
    line
}

/// A word with its space, and the number of a station.
fn station_line(word: &[u8], station: Station) -> Line
    requires { length word.now ≤ 8 }
    ensures line { result.items ≡ word.now ++ decimal station }
    ensures short { length result.items ≤ 18 }
    ensures plain { are_plain word.now ≡ true → are_plain result.items ≡ true }
{
    number_line(word, u32::from(station.number()))
}

/// The command that sets a switch.
fn switch_line(number: u32, on: bool) -> Line
    ensures line { result.items ≡ input_line (inputs.Switch number on) }
    ensures plain { are_plain result.items ≡ true }
{
    numbered(b"preempt ", number, switch_word(on))
}

/// Whether a switch is set.
fn switch_word(on: bool) -> &'static [u8]
    ensures word { result.now ≡ switch_word on }
    ensures short { length result.now ≤ 4 }
    ensures plain { are_plain result.now ≡ true }
{
    if on { b" on" } else { b" off" }
}

/// The command that lights a lamp.
fn lamp_line(lamp: Lamp) -> Line
    ensures line { result.items ≡ lamp_line lamp }
    ensures plain { are_plain result.items ≡ true }
{
    match lamp {
        Lamp::Phase(phase, color) => {
            numbered(b"fault P", u32::from(phase.number()), signal_word(color))
        }
        Lamp::Pedestrian(phase, color) => {
            numbered(
                b"fault W",
                u32::from(phase.number()),
                pedestrian_word(color),
            )
        }
        Lamp::Overlap(overlap, color) => {
            numbered(b"fault O", u32::from(overlap.number()), signal_word(color))
        }
        Lamp::Arrow(overlap) => numbered(b"fault O", u32::from(overlap.number()), b" P"),
    }
}

/// The aspect of a vehicle head.
fn signal_word(color: SignalColor) -> &'static [u8]
    ensures word { result.now ≡ signal_word color }
    ensures short { length result.now ≤ 4 }
    ensures plain { are_plain result.now ≡ true }
{
    match color {
        SignalColor::Red => b" R",
        SignalColor::Yellow => b" Y",
        SignalColor::Green => b" G",
    }
}

/// The aspect of a pedestrian head.
fn pedestrian_word(color: PedestrianColor) -> &'static [u8]
    ensures word { result.now ≡ pedestrian_word color }
    ensures short { length result.now ≤ 4 }
    ensures plain { are_plain result.now ≡ true }
{
    match color {
        PedestrianColor::DontWalk => b" D",
        PedestrianColor::Clearance => b" C",
        PedestrianColor::Walk => b" W",
    }
}

/// What comes before a number, the number, and the word after it.
fn numbered(before: &[u8], number: u32, behind: &[u8]) -> Line
    requires before { length before.now ≤ 8 }
    requires behind { length behind.now ≤ 4 }
    ensures line { result.items ≡ before.now ++ (decimal number ++ behind.now) }
    ensures plain { are_plain before.now ≡ true → are_plain behind.now ≡ true → are_plain result.items ≡ true }
{
    let mut line = number_line(before, number);
    let _ = line.try_extend_from_slice(behind);
    line
}

/// The command by which a station sets an object at an index to a value.
fn set_line(station: Station, id: ObjectId, value: u32) -> Line
    ensures line { result.items ≡ input_line (inputs.Set station id value) }
    ensures plain { are_plain result.items ≡ true }
{
    let mut line = station_line(b"set ", station);
    let _ = line.try_extend_from_slice(b" ");
    let _ = line.try_extend_from_slice(id.object.name().as_bytes());
    push_number(&mut line, id.index);
    push_number(&mut line, value);
    line
}

/// Adds a space and a number to a line.
fn push_number(line: &mut Line, number: u32)
    requires { length line.old.items + 11 ≤ 80 }
    ensures line { line.new.items ≡ line.old.items ++ number_word number }
    ensures plain { are_plain line.old.items ≡ true → are_plain line.new.items ≡ true }
    ensures short { length line.new.items ≤ length line.old.items + 11 }
{
    let mut digits = Buffer::new();
    let _ = line.try_extend_from_slice(b" ");
    let _ = line.try_extend_from_slice(digits.format(number).as_bytes());
}
