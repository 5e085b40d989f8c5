//! The plan's entries in a record: written and put back.
ghost use Rattle.std.specs.Prelude.{◌≡◌, ℕ, ◌+◌, ◌-◌, ◌<◌, ◌≤◌, ◌%◌, ◌++◌, ◌↔◌, IsTrue, length, drop, get_or};
ghost use Rattle.arrayvec.specs.ArrayVec.{array_vec_len};
ghost use Rattle.tsb_cells.specs.Diff.{diff, diff_from, apply_diff, part};
ghost use Rattle.tsb_plan.specs.declared.object.TheConstants.{PLAN_CELLS};
ghost use Rattle.tsb_plan.specs.Objects.{AreInRange};

use arrayvec::ArrayVec;
use tsb_history::Entries;
use tsb_plan::{PLAN_CELLS, Plan};

/// How many cells are compared at once.
const BLOCK: usize = 64;

/// Adds each cell in which two plans differ to `out`, with what it held in the plan before, in ascending order. Few
/// cells do, so those of blocks that are the same are passed over.
pub fn differences_onto<const M: usize>(
    before: &Plan,
    after: &Plan,
    out: &mut ArrayVec<(u16, u32), M>,
)
    requires { array_vec_len out.old + PLAN_CELLS ≤ M }
    ensures changes { out.new.items ≡ out.old.items ++ diff before.now.values after.now.values }
    ensures len { array_vec_len out.new ≤ array_vec_len out.old + PLAN_CELLS }
{
    for block in 0..PLAN_CELLS / BLOCK + 1 {
        let first = block * BLOCK;
        let end = (first + BLOCK).min(PLAN_CELLS);
        if !are_same(before, after, first, end) {
            differences_within(before, after, first, end, out);
        }
    }
}

/// Whether two plans are the same in the cells from `first` up to `end`.
fn are_same(before: &Plan, after: &Plan, first: usize, end: usize) -> bool
    requires from { first ≤ end }
    requires to { end ≤ PLAN_CELLS }
    ensures { IsTrue result ↔ ((j : ℕ) → first ≤ j → j < end → get_or before.now.values j 0 ≡ get_or after.now.values j 0) }
{
    before.has_same_cells(after, first, end)
}

/// Adds each cell from `first` up to `end` in which two plans differ to `out`, with what it held in the plan before.
fn differences_within<const M: usize>(
    before: &Plan,
    after: &Plan,
    first: usize,
    end: usize,
    out: &mut ArrayVec<(u16, u32), M>,
)
    requires from { first ≤ end }
    requires to { end ≤ PLAN_CELLS }
    requires room { array_vec_len out.old + (end - first) ≤ M }
    ensures changes { out.new.items ++ diff_from end (drop end before.now.values) (drop end after.now.values)
        ≡ out.old.items ++ diff_from first (drop first before.now.values) (drop first after.now.values) }
    ensures len { array_vec_len out.new ≤ array_vec_len out.old + (end - first) }
{
    for k in first..end {
        let old = before.cell(k);
        if old != after.cell(k) {
            out.push((k as u16, old));
        }
    }
}

/// The plan with what these entries of a record say of its cells put back. What this gives has to be in range, as each
/// plan is.
pub fn put_back(plan: &Plan, mut entries: Entries<'_>) -> Plan
    requires { AreInRange (apply_diff plan.now.values (part 0 PLAN_CELLS entries)) }
    ensures { result.values ≡ apply_diff plan.now.values (part 0 PLAN_CELLS entries.entry) }
{
    let mut words = *plan.words();
    while let Some((cell, old)) = entries.next() {
        if (cell as usize) < PLAN_CELLS {
            words[cell as usize] = low_word(old);
        }
    }
    Plan::of_words(&words)
}

/// The lower 16 bits of a value, which are all of it where a plan has it.
fn low_word(value: u32) -> u16
    ensures { result ≡ value % 65536 }
{
    (value % 65536) as u16
}
