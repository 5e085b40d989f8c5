//! Times as text.
ghost use Rattle.std.specs.Prelude.{◌≤◌};

/// A time as text, as `2026-11-22 07:00:00.1`: 21 to 29 bytes.
#[derive(Clone, Copy)]
pub struct TimeText {
    /// What comes before the digits of a second's fraction, with the point.
    pub(crate) head: [u8; 20],
    /// Nine digits.
    pub(crate) digits: [u8; 9],
    /// How many of them are written.
    pub(crate) count: usize,
    ghost few: { count ≤ 9 },
}
