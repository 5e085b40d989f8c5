//! The display line, field by field.
ghost use Rattle.std.specs.Prelude.{◌≡◌, ◌+◌, ◌≤◌, ◌++◌, IfSome, take, drop};
ghost use Rattle.std.specs.Str.{IsUtf8};
ghost use Rattle.tsb_heads.specs.Heads.{Heads};
ghost use Rattle.tsb_heads.specs.Reading.{heads_of};
ghost use Rattle.tsb_display_text.specs.Letters.{AreOf};
ghost use Rattle.tsb_display_text.specs.Line.{line_of, wide_line_of};

use crate::letters::Letters;
use crate::numbers::{local_digits, preempt_digit};
use arrayvec::ArrayString;
use tsb_heads::Display;
use tsb_lines::seven_digits;
use tsb_types::Preempt;

/// The length of a display line, in bytes.
pub const WIDTH: usize = 53;

/// The length of a wide display line, in bytes.
pub const WIDE: usize = 70;

/// The bytes of a display line.
pub type LineBytes = [u8; WIDTH];

/// The bytes of a wide display line.
pub(crate) type WideBytes = [u8; WIDE];

/// Where the tick number begins.
pub(crate) const TICK: usize = 0;

/// Where its last digit is.
pub(crate) const UNITS: usize = 6;

/// Where the letters of vehicle heads begin.
const VEHICLES: usize = 8;

/// Where the letters of pedestrian heads begin.
const PEDESTRIANS: usize = 25;

/// Where the letters of overlaps 1 to 4 begin.
const OVERLAPS: usize = 42;

/// Where the preempt in service is.
pub(crate) const PREEMPT: usize = 47;

/// Where the local counter begins.
pub(crate) const LOCAL: usize = 49;

/// Where the letters of overlaps 1 to 16 begin.
const ALL_OVERLAPS: usize = 54;

/// The display line as text, without a line feed: `line_bytes`. It takes no memory.
pub fn line(
    now: u32,
    heads: &Display,
    preempt: Option<Preempt>,
    local: Option<u32>,
) -> ArrayString<64>
    ensures { result.bytes ≡ line_of now (heads_of heads.now) preempt local }
{
    let bytes = line_bytes(now, heads, preempt, local);
    let mut text = ArrayString::new();
    if let Ok(found) = str::from_utf8(&bytes) {
        text.push_str(found);
    }
    text
}

/// The bytes of the display line at tick number `now`, without a line feed. Its fields have one space between them:
///
/// - the tick number in 7 digits;
/// - a letter for the vehicle head of each of phases 1 to 16: `G`, `Y`, `R`, `F` where it flashes red, `-` where it is
///   dark;
/// - a letter for each pedestrian head: `W`, `C` for clearance, `D`, `-` where it is dark;
/// - a letter for each of overlaps 1 to 4, as for vehicle heads;
/// - the preempt in service, or 0;
/// - the local counter, in tenths of a second, in 4 digits, or `----` where no pattern runs.
///
/// A number of more digits shows only the last ones; a tick number has at most 7, and a local counter at most 4. A wide
/// line has a seventh field: a letter for each of overlaps 1 to 16.
pub fn line_bytes(
    now: u32,
    heads: &Display,
    preempt: Option<Preempt>,
    local: Option<u32>,
) -> LineBytes
    ensures line { result ≡ line_of now (heads_of heads.now) preempt local }
    ensures text { IsUtf8 result }
{
    let wide = bytes_of(now, &Letters::of(heads), preempt, local);
    let mut bytes = [b' '; WIDTH];
    bytes.copy_from_slice(&wide[..WIDTH]);
    bytes
}

/// The bytes of the wide display line with these letters.
#[inline(always)]
pub(crate) fn bytes_of(
    now: u32,
    letters: &Letters,
    preempt: Option<Preempt>,
    local: Option<u32>,
) -> WideBytes
    ensures line { (heads : Heads) → AreOf letters.now heads → result ≡ wide_line_of now heads preempt local }
    ensures text { (heads : Heads) → AreOf letters.now heads → IsUtf8 result }
    ensures known { IfSome preempt (λ n. n ≤ 8) }
{
    let mut bytes = [b' '; WIDE];
    put(&mut bytes, TICK, &seven_digits(now));
    put(&mut bytes, VEHICLES, &letters.vehicles);
    put(&mut bytes, PEDESTRIANS, &letters.pedestrians);
    put(&mut bytes, OVERLAPS, &first_four(&letters.overlaps));
    bytes[PREEMPT] = preempt_digit(preempt);
    put(&mut bytes, LOCAL, &local_digits(local));
    put(&mut bytes, ALL_OVERLAPS, &letters.overlaps);
    bytes
}

/// The first four of these letters.
#[inline(always)]
fn first_four(letters: &[u8; 16]) -> [u8; 4]
    ensures { result ≡ take 4 letters.now }
{
    [letters[0], letters[1], letters[2], letters[3]]
}

/// Puts a field into a line from `at` on.
#[inline(always)]
pub(crate) fn put<const N: usize>(bytes: &mut WideBytes, at: usize, field: &[u8; N])
    requires { at + N ≤ 70 }
    ensures { bytes.new ≡ take at bytes.old ++ (field.now ++ drop (at + N) bytes.old) }
{
    bytes[at..at + N].copy_from_slice(field);
}
