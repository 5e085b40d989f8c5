//! What the controller takes.

use tsb_objects::{ObjectId, Row, Station};
use tsb_types::{ClockTime, Lamp};

/// An input of the controller: a tick from the field; a pattern, a switch, a fault, a reset or a clock from the operator; the
/// database transactions of NTCIP 1201 from the stations.
#[derive(Clone, Copy, PartialEq, Eq)]
pub enum Input {
    /// A tenth of a second passes, with these inputs of detectors and preempts on. Refused with E11 at tick
    /// 6,000,000.
    Tick(Row),
    /// Pattern 1 to 16 is selected, or free operation with 0. Refused with E9 for any other number, and for a pattern
    /// whose cycle is 0.
    Pattern(u32),
    /// The switch of preempt 1 to 4 is set. Refused with E10 for any other number, and where it would be switched on
    /// with no dwell phases.
    Switch(u32, bool),
    /// A lamp is lit whatever the controller orders, in place of the one before; or, with none, the one before is taken
    /// out. Refused for want of memory alone.
    Fault(Option<Lamp>),
    /// A controller that has tripped starts anew, and keeps its plan, desk, switches and tick number. Any other stays
    /// as it is. Refused for want of memory alone.
    Reset,
    /// The station opens a transaction. Refused with E4 while one is open.
    Begin(Station),
    /// The station sets an object at its index to a value, in its transaction. Refused with E6, E5, E2, E3, E8.
    Set(Station, ObjectId, u32),
    /// The station has its edits checked. Refused with E6, E5.
    Verify(Station),
    /// The station's edits are put into effect. Refused with E6, E5, E7, E12.
    Commit(Station),
    /// The station gives its transaction up. Refused with E6, E5.
    Abort(Station),
    /// A clock is set: the next tick begins at this moment. Each tick has its moment from then on, and local counters count
    /// from midnights (profile). Refused for want of memory alone.
    Clock(ClockTime),
    /// The overlaps of this list are the arrows that do not flash from now on, in place of those of the one before
    /// (profile). Refused with E3 for a list that names more than 16.
    Omit(u32),
}
