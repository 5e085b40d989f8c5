//! The tick at which one of the inputs of rows changed last.
ghost use Rattle.std.specs.Prelude.{◌≡◌, ◌≤◌, List, length, take};
ghost use Rattle.tsb_text.specs.kept.Changed.{change_in, last_change};
ghost use Rattle.tsb_text.specs.kept.Kept.{kept_of, row_behind};
ghost use Rattle.tsb_log_text.specs.RowInputs.{value_of};
ghost use Rattle.tsb_step.specs.declared.inputs.Input.{Input as InputValue};
ghost use Rattle.tsb_step.specs.tsb_plan.Plan.{Plan};
ghost use Rattle.tsb_types.specs.Sets.{all_off};

use crate::kept::Kept;
use tsb_log_text::{LogRow, RowInput};
use tsb_types::Row;

impl Kept {
    /// The number of the newest tick, among the inputs that remain, at which an input of rows is on and was off before,
    /// or the other way round; `None` where there is none. All inputs are off before the first tick.
    pub fn last_change(&self, which: RowInput) -> Option<u32>
        ensures { (plan : Plan) (inputs : List InputValue) → self.now.kept ≡ kept_of plan inputs → result ≡ last_change (value_of which) plan inputs }
    {
        change_in(self.rows(), &which)
    }
}

/// The tick of the last row in which an input differs from the row before; all inputs are off before the first.
fn change_in(rows: &[LogRow], which: &RowInput) -> Option<u32>
    ensures { result ≡ change_in (value_of which.now) all_off rows.now }
{
    let mut left = rows.len();
    while left > 0 {
        let last = &rows[left - 1];
        left -= 1;
        if which.is_on(&last.row) != which.is_on(&row_before(rows, left)) {
            return Some(last.tick);
        }
    }
    None
}

/// The last of the first `count` rows; all inputs are off before the first.
pub(crate) fn row_before(rows: &[LogRow], count: usize) -> Row
    requires { count ≤ length rows.now }
    ensures { result ≡ row_behind all_off (take count rows.now) }
{
    if count == 0 {
        Row::all_off()
    } else {
        rows[count - 1].row
    }
}
