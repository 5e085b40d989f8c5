//! The line of a row of a log.
ghost use Rattle.std.specs.Prelude.{◌≡◌, ◌≤◌, ◌++◌, ◌∷◌, []};
ghost use Rattle.tsb_types.specs.Sets.{has_number};
ghost use Rattle.tsb_log_text.specs.LogText.{first_detectors, mark, row_line, set_marks};

use crate::log::LogRow;
use tsb_lines::{ShortLine, seven_digits};
use tsb_types::{DetectorSet, NumberSet};

/// The length of the line of a row, with its line feed, in bytes.
const LINE: usize = 39;

/// The bytes of the line of a row.
pub type RowLine = ShortLine<LINE>;

/// The line that spells a row, with its line feed: the tick in 7 digits, then a mark for each of 16 vehicle detectors, 8
/// pedestrian detectors and 4 preempt inputs, `1` where it is on and `0` where it is off, and a space between these.
/// Where the tick has more digits, it has the last 7.
pub fn row_line(row: LogRow) -> RowLine
    ensures { result ≡ row_line row ++ 10 ∷ [] }
{
    let mut line = RowLine::new();
    line.push(&seven_digits(row.tick));
    line.push(b" ");
    line.push(&marks::<16>(first_detectors(row.row.vehicles)));
    line.push(b" ");
    line.push(&marks::<8>(row.row.pedestrians));
    line.push(b" ");
    line.push(&marks::<4>(row.row.preempts));
    line.push(b"\n");
    line
}

/// The marks of inputs 1 to `N`.
fn marks<const N: usize>(on: NumberSet) -> [u8; N]
    requires { N ≤ 16 }
    ensures { result ≡ set_marks N on }
{
    let mut all = [b'0'; N];
    for k in 0..N {
        if on.contains(1 + k as u8) {
            all[k] = b'1';
        }
    }
    all
}

/// Those of a set that are 1 to 16.
fn first_detectors(on: DetectorSet) -> NumberSet
    ensures { result ≡ first_detectors on }
{
    NumberSet::from_list((on.list() % 65_536) as u16)
}
