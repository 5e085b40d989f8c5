//! Lists of phases that are given as texts, and the numbers that plans have for them.
ghost use Rattle.std.specs.Prelude.{◌≡◌, ◌≤◌};
ghost use Rattle.tsb_plan_notes.specs.PhaseLists.{after_byte, closed, has_phase, is_between, listed_in, phases_of, spoiled, sum_of, weight, with_digit, with_phase};
ghost use Rattle.tsb_plan_notes.specs.Steps.{is_digit};

/// The greatest number of a phase.
const GREATEST: u32 = 16;

/// What is read of a list so far.
#[derive(Clone, Copy)]
pub(crate) struct PhasesRead {
    /// The phases: the sum of `2^(phase-1)`.
    sum: u32,
    /// How many they are.
    count: u32,
    /// The number whose digits are read, 0 where none is.
    number: u32,
    /// Whether it is a list of phases so far.
    is_good: bool,
}

/// Before the first byte.
const NOTHING: PhasesRead = PhasesRead {
    sum: 0,
    count: 0,
    number: 0,
    is_good: true,
};

/// The number that a plan has for the phases that a text lists, two or more: 72 for "4,7".
#[tactic(auto, unfolding(crate::specs::PhaseLists::phases_of))]
pub(crate) fn phases_of(text: &[u8]) -> Option<u64>
    ensures { result ≡ phases_of text.now }
{
    sum_of(closed(listed_in(text)))
}

/// What a text has listed at its end.
fn listed_in(text: &[u8]) -> PhasesRead
    ensures { result ≡ listed_in text.now }
{
    let mut listed = NOTHING;
    for byte in text {
        listed = after_byte(listed, *byte);
    }
    listed
}

/// The sum of two phases or more, where it is good.
fn sum_of(listed: PhasesRead) -> Option<u64>
    ensures { result ≡ sum_of listed }
{
    if listed.is_good && listed.count > 1 {
        Some(listed.sum as u64)
    } else {
        None
    }
}

/// What is read after a byte more.
fn after_byte(listed: PhasesRead, byte: u8) -> PhasesRead
    ensures { result ≡ after_byte listed byte }
{
    if is_digit(byte) {
        with_digit(listed, (byte - b'0') as u32)
    } else if is_between(byte) {
        closed(listed)
    } else {
        spoiled(listed)
    }
}

/// What is read after a digit more of a number.
fn with_digit(listed: PhasesRead, digit: u32) -> PhasesRead
    requires { digit ≤ 9 }
    ensures { result ≡ with_digit listed digit }
{
    if listed.number == 0 && digit == 0 {
        spoiled(listed)
    } else if listed.number > GREATEST {
        listed
    } else {
        PhasesRead {
            number: listed.number * 10 + digit,
            ..listed
        }
    }
}

/// What is read where a number ends.
fn closed(listed: PhasesRead) -> PhasesRead
    ensures { result ≡ closed listed }
{
    if listed.number == 0 {
        listed
    } else if listed.number > GREATEST || has_phase(listed.sum, listed.number) {
        spoiled(listed)
    } else {
        with_phase(listed)
    }
}

/// What is read with the phase whose number was read.
fn with_phase(listed: PhasesRead) -> PhasesRead
    ensures { result ≡ with_phase listed }
{
    PhasesRead {
        sum: listed.sum.saturating_add(weight(listed.number)),
        count: listed.count.saturating_add(1),
        number: 0,
        is_good: listed.is_good,
    }
}

/// The same, which is no list of phases.
fn spoiled(listed: PhasesRead) -> PhasesRead
    ensures { result ≡ spoiled listed }
{
    PhasesRead {
        is_good: false,
        ..listed
    }
}

/// Whether a list has a phase.
fn has_phase(sum: u32, phase: u32) -> bool
    ensures { result ≡ has_phase sum phase }
{
    sum / weight(phase) % 2 == 1
}

/// What a phase adds to a list: `2^(phase-1)`.
fn weight(phase: u32) -> u32
    ensures value { result ≡ weight phase }
    ensures some { 1 ≤ result }
{
    match phase {
        1 => 1,
        2 => 2,
        3 => 4,
        4 => 8,
        5 => 16,
        6 => 32,
        7 => 64,
        8 => 128,
        9 => 256,
        10 => 512,
        11 => 1024,
        12 => 2048,
        13 => 4096,
        14 => 8192,
        15 => 16384,
        _ => 32768,
    }
}

/// Whether a byte is a digit.
fn is_digit(byte: u8) -> bool
    ensures { result ≡ is_digit byte }
{
    byte >= b'0' && byte <= b'9'
}

/// Whether a byte may part two phases.
fn is_between(byte: u8) -> bool
    ensures { result ≡ is_between byte }
{
    byte == b',' || byte == b' ' || byte == b'+'
}
