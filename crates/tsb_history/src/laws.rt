ghost use Rattle.tsb_history.specs.Laws.{IsUnambiguous};

/// Equal bytes of a history are equal records.
///
/// Needs: records of at most 65,535 entries each, with cells below 65,536 and old values below 2^32.
/// Mistake: a record does not say how many entries it has, `bytes_without_count` (`would_be_one`, `would_be_seven`).
/// Witness: `one_fits`, `seven_fit` of Mistakes.
pub fn bytes_tell_records()
    ensures { IsUnambiguous }
{}
