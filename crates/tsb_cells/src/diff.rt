//! What changed in a row of cells.

use arrayvec::ArrayVec;

/// The numbers of the cells that changed, each with what the cell held before, in ascending order.
pub type Diff<const N: usize> = ArrayVec<(u16, u32), N>;
