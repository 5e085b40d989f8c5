//! Why an input or a call is refused.

use crate::numbers::Station;

/// Why an input or a call is refused, in the order E1 to E12. What is refused leaves everything as it
/// was.
#[derive(Clone, Copy, Debug, PartialEq, Eq)]
pub enum Refusal {
    /// E1: memory ran out.
    Memory,
    /// E2: the object has no such index. Those of each object are 1 to `range_of(object).indices`.
    NoSuchObject,
    /// E3: the object takes no such value. Those of each object are 0 to `range_of(object).greatest`.
    OutOfRange,
    /// E4: this station has a transaction open.
    Busy(Station),
    /// E5: another station has the transaction open.
    NotOwner,
    /// E6: no station has a transaction open.
    NotOpen,
    /// E7: a commit of edits that did not pass the check.
    NotVerified,
    /// E8: an edit of one more object, where a transaction has 64 already.
    TooManyEdits,
    /// E9: no pattern has this number, or its cycle is 0.
    NoSuchPattern,
    /// E10: no preempt has this number, or it has no dwell phases.
    NoSuchPreempt,
    /// E11: the bench is at tick 6,000,000, and counts no further.
    TickLimit,
    /// E12: a commit would change what is in service now.
    InService,
}
