//! The line that ends a strict run or record.
ghost use Rattle.std.specs.Prelude.{◌≡◌, ◌≤◌, length, take};
ghost use Rattle.tsb_text.specs.Stops.{flow_after, stop_in, stopped_at};

use crate::{LineFault, OnFault};
use arrayvec::ArrayVec;
use tsb_dialog::Flow;

/// How many bytes of a line are kept at most.
pub const KEPT_OF_LINE: usize = 200;

/// The line that ended a strict run or record.
#[derive(Clone, Drop)]
pub struct Stop {
    /// Its number, from 1 on. Lines that are skipped count too.
    pub number: u32,
    /// Its first 200 bytes.
    pub line: ArrayVec<u8, KEPT_OF_LINE>,
    /// What is wrong with it.
    pub fault: LineFault,
}

/// The line that ends a run or a record, where something is wrong with the line that has this number.
pub fn stop_at(
    on_fault: OnFault,
    number: u32,
    line: &[u8],
    fault: Option<LineFault>,
) -> Option<Stop>
    ensures { stop_in result ≡ stopped_at on_fault number line.now fault }
{
    match (on_fault, fault) {
        (OnFault::Stop, Some(fault)) => Some(Stop {
            number,
            line: front_of(line),
            fault,
        }),
        _ => None,
    }
}

/// The first 200 bytes of a line.
pub fn front_of(line: &[u8]) -> ArrayVec<u8, KEPT_OF_LINE>
    ensures front { result.items ≡ take 200 line.now }
    ensures short { length result.items ≤ 200 }
{
    let mut front = ArrayVec::new();
    let _ = front.try_extend_from_slice(&line[..KEPT_OF_LINE.min(line.len())]);
    front
}

/// Whether a run or a record goes on after a line, which is `quit` or not, and ended it or did not.
pub fn flow_after(is_quit: bool, stop: &Option<Stop>) -> Flow
    ensures { result ≡ flow_after is_quit (stop_in stop.now) }
{
    match (is_quit, stop) {
        (false, None) => Flow::On,
        _ => Flow::Over,
    }
}
