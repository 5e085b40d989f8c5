//! What holds of the objects, the cells and the values of every plan, each law the contract of a function that does
//! nothing.
ghost use Rattle.tsb_plan.specs.Laws.{AreInOrder, HaveCells, ShareNoCell, LeaveNoCell, PlansAreTold, GiveBackWhatIsPut, LeaveOthers};

/// Each value of a plan has its own cell. Each object at each of its indices has one, and no cell of a plan is unused:
/// they are those from 0 to below `PLAN_CELLS`. The list of all objects has each at its place among them, and no other.
///
/// Mistakes: each object has sixteen cells, `cell_of_16` (`is_apart`, `would_be_shared`); indices count from 0,
/// `cell_from_0` (`is_last`, `would_be_outside`).
/// Witness: `is_last` of Mistakes, the last index of the last object.
pub fn cells_are_told_apart()
    ensures in_order { AreInOrder }
    ensures within { HaveCells }
    ensures apart { ShareNoCell }
    ensures used { LeaveNoCell }
{}

/// `get` gives what `put` put. At any other object or index it gives what it gave before, and the cells of a plan are
/// the encoding of what it says of each object at each index.
///
/// Mistake: a value is put at each index of its object, `with_all` (`stays_0`, `would_be_7`).
/// Witness: `takes_7`, `gives_7` of Mistakes.
pub fn values_are_told_apart()
    ensures told { PlansAreTold }
    ensures back { GiveBackWhatIsPut }
    ensures others { LeaveOthers }
{}
