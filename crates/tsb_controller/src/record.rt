//! The record of what changes in the layers, and how it is put back.
ghost use Rattle.std.specs.Prelude.{◌≡◌, ◌+◌, ◌≤◌, ◌&&◌, ◌++◌, ◌∷◌, [], nat_le, nat_lt};
ghost use Rattle.arrayvec.specs.ArrayVec.{array_vec_len};
ghost use Rattle.tsb_step.specs.declared.first_cell.TheConstants.{DETECTORS, LAYER_CELLS, MONITOR};
ghost use Rattle.tsb_controller.specs.Records.{changes, put_back};

use crate::controller::Controller;
use crate::undo_entry;
use arrayvec::ArrayVec;
use tsb_cells::Reversible;
use tsb_history::Record;
use tsb_step::first_cell::{CALLS, COORD, DETECTORS, OVERLAPS, PHASES, PREEMPTS, RINGS};

impl Controller {
    ghost use Rattle.tsb_controller.specs.Layer.{rows_of, kept_of, IsOpen, IsClosed};

    /// Begins a change: from here on the layers' cells may be written.
    pub fn open(&mut self)
        requires closed { IsClosed self.old }
        ensures rows { rows_of self.new ≡ rows_of self.old }
        ensures kept { kept_of self.new ≡ rows_of self.old }
        ensures opened { IsOpen self.new }
    {
        self.detectors.open();
        self.calls.open();
        self.phases.open();
        self.rings.open();
        self.coord.open();
        self.preempts.open();
        self.overlaps.open();
    }

    /// Ends a change, and adds each cell that differs to `out`, by its number among all cells of the bench, with what
    /// it held at `open`.
    pub fn close_onto<const M: usize>(&mut self, out: &mut ArrayVec<(u16, u32), M>)
        requires opened { IsOpen self.old }
        requires room { array_vec_len out.old + LAYER_CELLS ≤ M }
        ensures changes { out.new.items ≡ out.old.items ++ changes (kept_of self.old) (rows_of self.old) }
        ensures len { array_vec_len out.new ≤ array_vec_len out.old + LAYER_CELLS }
        ensures rows { rows_of self.new ≡ rows_of self.old }
        ensures closed { IsClosed self.new }
    {
        self.detectors.close_onto(out, DETECTORS);
        self.calls.close_onto(out, CALLS);
        self.phases.close_onto(out, PHASES);
        self.rings.close_onto(out, RINGS);
        self.coord.close_onto(out, COORD);
        self.preempts.close_onto(out, PREEMPTS);
        self.overlaps.close_onto(out, OVERLAPS);
    }

    /// Puts back what an entry of a record says, where it is of a cell of the layers, and says whether it is.
    #[inline(always)]
    pub fn undo_entry(&mut self, cell: u16, old: u32) -> bool
        requires closed { IsClosed self.old }
        ensures rows { rows_of self.new ≡ put_back (rows_of self.old) ((cell, old) ∷ []) }
        ensures closed { IsClosed self.new }
        ensures is { result ≡ (nat_le DETECTORS cell && nat_lt cell MONITOR) }
    {
        // Most entries are of detectors. Each test but the last says where cells begin and end, so that LLVM makes it
        // one comparison.
        if DETECTORS <= cell && cell < CALLS {
            undo_entry(&mut self.detectors, cell, old, DETECTORS)
        } else if DETECTORS <= cell && cell < PHASES {
            undo_entry(&mut self.calls, cell, old, CALLS)
        } else if DETECTORS <= cell && cell < RINGS {
            undo_entry(&mut self.phases, cell, old, PHASES)
        } else if DETECTORS <= cell && cell < COORD {
            undo_entry(&mut self.rings, cell, old, RINGS)
        } else if DETECTORS <= cell && cell < PREEMPTS {
            undo_entry(&mut self.coord, cell, old, COORD)
        } else if DETECTORS <= cell && cell < OVERLAPS {
            undo_entry(&mut self.preempts, cell, old, PREEMPTS)
        } else {
            undo_entry(&mut self.overlaps, cell, old, OVERLAPS)
        }
    }
}
