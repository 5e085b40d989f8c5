//! A ring.
ghost use Rattle.tsb_status.specs.Plain.{ring_status_of};
ghost use Rattle.tsb_lines.specs.ShortLines.{AddsShort};
ghost use Rattle.tsb_status_text.specs.declared.line.TheConstants.{LONGEST};
ghost use Rattle.tsb_status_text.specs.StatusText.{ring_text};

use crate::line::{StatusLine, push_named, push_optional, push_phase};
use crate::names::part_name;
use tsb_status::RingStatus;

/// Adds a ring to a line.
pub(crate) fn push_ring(line: &mut StatusLine, ring: &RingStatus)
    ensures { AddsShort LONGEST 269 line.old (ring_text (ring_status_of ring.now)) line.new }
{
    push_named(line, b"{\"ringStatus\":", part_name(ring.part));
    push_phase(line, b",\"phase\":", ring.phase);
    push_phase(line, b",\"next\":", ring.next);
    push_optional(line, b",\"initialLeft\":", ring.initial_left);
    push_optional(line, b",\"gap\":", ring.gap);
    push_optional(line, b",\"gapLeft\":", ring.gap_left);
    push_optional(line, b",\"maximumLeft\":", ring.maximum_left);
    push_optional(line, b",\"walkLeft\":", ring.walk_left);
    push_optional(line, b",\"clearanceLeft\":", ring.clearance_left);
    push_optional(line, b",\"yellowLeft\":", ring.yellow_left);
    push_optional(line, b",\"redClearanceLeft\":", ring.red_clearance_left);
    push_optional(line, b",\"forceOffIn\":", ring.force_off_in);
    line.push(b"}");
}
