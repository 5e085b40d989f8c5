//! The line that spells a row.
ghost use Rattle.std.specs.Prelude.{◌≡◌, ◌≤◌, length};
ghost use Rattle.tsb_log_text.specs.Rows.{inputs_of, list_in_digits, row_of, tick_of};

use crate::log::LogRow;
use tsb_lines::number;
use tsb_types::limits::TICKS;
use tsb_types::{DetectorSet, NumberSet, Row};

/// The row that a line spells, or `None` where it is not a row.
#[tactic(auto, unfolding(crate::specs::Rows::row_of))]
pub(crate) fn row(line: &[u8]) -> Option<LogRow>
    ensures { result ≡ row_of line.now }
{
    if line.len() != 38 || line[7] != b' ' {
        return None;
    }
    let tick = tick(&line[..7])?;
    let row = inputs_of(&line[8..38])?;
    Some(LogRow { tick, row })
}

/// The inputs that 30 bytes spell as a row of a log does behind its tick: 16 digits 0 or 1 for vehicle detectors 1 to
/// 16, 8 for pedestrian detectors 1 to 8 and 4 for preempt inputs 1 to 4, with a space between them. `None` for any
/// other bytes: a row has no further space at either end.
#[tactic(auto, unfolding(crate::specs::Rows::inputs_of))]
pub fn inputs_of(digits: &[u8]) -> Option<Row>
    ensures { result ≡ inputs_of digits.now }
{
    if digits.len() != 30 || digits[16] != b' ' || digits[25] != b' ' {
        return None;
    }
    let vehicles = list(&digits[..16])?;
    let pedestrians = list(&digits[17..25])?;
    let preempts = list(&digits[26..30])?;
    Some(Row {
        vehicles: DetectorSet::from_list(u64::from(vehicles)),
        pedestrians: NumberSet::from_list(pedestrians),
        preempts: NumberSet::from_list(preempts),
    })
}

/// The tick that digits spell: 1 to the last of a bench.
pub(crate) fn tick(digits: &[u8]) -> Option<u32>
    ensures { result ≡ tick_of digits.now }
{
    let tick = number(digits)?;
    if 1 <= tick && tick <= TICKS {
        Some(tick)
    } else {
        None
    }
}

/// The list that digits 0 and 1 spell, the first for number 1.
fn list(digits: &[u8]) -> Option<u16>
    requires { length digits.now ≤ 16 }
    ensures { result ≡ list_in_digits digits.now }
{
    let mut list: u32 = 0;
    let mut weight: u32 = 1;
    for digit in digits {
        if *digit == b'1' {
            list += weight;
        } else if *digit != b'0' {
            return None;
        }
        weight *= 2;
    }
    Some(list as u16)
}
