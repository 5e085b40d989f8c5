//! How long the room of the history lasts, a law as the contract of a function that does nothing.
ghost use Rattle.tsb_bench.specs.Room.{RoomLasts};

/// Reserved room lasts. Where the history has room for n records of k entries each, none of the next n inputs that can
/// each change at most k cells is refused as out of memory. It follows from four clauses of `Bench::apply`: `few`,
/// `wanting`, `room`, `err`.
///
/// Mistake: records counted without their kind and the number of their entries, `entries_size` (`asks_4890`,
/// `would_ask_4884`, `leaves_2439`, `would_lack_room`).
/// Witness: `keep_room` of Mistakes, a reset of a controller that has not tripped.
pub fn room_lasts()
    ensures { RoomLasts }
{}
