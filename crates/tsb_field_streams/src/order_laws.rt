//! What holds of rows that are sorted, a law that is the contract of a function that does nothing.
ghost use Rattle.tsb_field_streams.specs.OrderLaws.{AreInOrder, StayAsTheyCame, StayInOrder};

/// Sorted rows are in the order of time. Rows of one moment stand as they came, each of them once, and so rows that are
/// in order stay as they are.
///
/// Mistakes: a row goes behind all that are held, `placed_last` (`is_in_order`, `would_be_late`); it goes before those of
/// its moment, `placed_first` (`stay`, `would_be_turned`); one of a moment that is there is lost, `placed_once` (`stay`,
/// `would_be_lost`).
/// Witness: `in_order_stays`, `stay` of OrderMistakes.
pub fn sorted_rows_are_in_order()
    ensures order { AreInOrder }
    ensures came { StayAsTheyCame }
    ensures stay { StayInOrder }
{}
