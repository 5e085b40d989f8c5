//! The bytes of the line of the desk.

use tsb_lines::ShortLine;

/// The most bytes that the line of the desk can have.
pub const LONGEST_EDITS: usize = 4_411;

/// The bytes of the line of the desk.
pub type EditsLine = ShortLine<LONGEST_EDITS>;
