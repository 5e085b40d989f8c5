//! What holds in every run of overlaps that have intervals of their own, each law the contract of a function that does
//! nothing.
ghost use Rattle.tsb_step.specs.Backed.{OverlapsAreBacked};

/// Arrows and overlaps that trail are lit by phases. An arrow is green only while its turn is Green, and flashes only
/// while a phase that it includes is Green. It is yellow by its turn or such a phase, which is Green or Yellow and began
/// its own yellow no earlier. An overlap that trails is green only while its phases keep it green, and until it is off
/// after that, a phase that it includes clears. All others are red. So all are red where no phase is in service.
///
/// Not said: that an arrow ever flashes.
/// Mistakes: a phase that is over with its own clearance, though an overlap holds it (`is_over_2`, `is_held_2`,
/// `still_yellow`); an arrow that flashes on while a phase that opposes it clears, `flashes_on` (`clears`,
/// `would_flash_on`).
/// Witness: `flashes` to `is_off` of OverlapRuns, in which an arrow and an overlap that trails have each interval.
pub fn overlaps_are_backed()
    ensures { OverlapsAreBacked }
{}
