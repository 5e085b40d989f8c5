//! What holds of the bars of a diagram, each law the contract of a function that does nothing.
ghost use Rattle.tsb_field_diagram.specs.Laws.{OnAsStretches, ShownAsStretches};

/// The bars of a head in a line of a diagram say what it shows at each tick. They run from where the line begins, or
/// the first change where that comes later, to the end of the line, without gap or overlap. None is empty, neighbours
/// have different marks, and at each tick the mark is that of the change in force.
///
/// Needs: ticks that rise, as in `rises` of the examples.
/// Not said: how it looks. A dark stretch is a bar without a text.
/// Mistakes: a bar for each change (`no_stretches`); what is in force when the line begins is left out (`late`); a bar
/// ends a tick early (`gap`).
/// Witness: `rises`, `as_defined` of Mistakes.
pub fn heads_are_told_by_stretches()
    ensures { ShownAsStretches }
{}

/// The bars of an input in a line of a diagram say at each tick whether it is on. They are those of a head, by the row
/// in force.
///
/// Needs: as `heads_are_told_by_stretches`.
/// Mistakes: as of `heads_are_told_by_stretches`.
/// Witness: as of `heads_are_told_by_stretches`.
pub fn inputs_are_told_by_stretches()
    ensures { OnAsStretches }
{}
