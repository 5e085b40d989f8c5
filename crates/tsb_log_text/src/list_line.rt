//! The line of a row by lists, written.
ghost use Rattle.std.specs.Prelude.{◌≡◌, ◌≤◌, ◌<◌, ◌-◌, ◌++◌, ◌∷◌, [], ℕ, codes, if◌then◌else◌};
ghost use Rattle.tsb_lines.specs.ShortLines.{Adds};
ghost use Rattle.tsb_types.specs.Sets.{names};
ghost use Rattle.tsb_log_text.specs.ListText.{kind_text, line_in, lists_line, item_text, run_end};

use crate::form::RowForm;
use crate::line::row_line;
use crate::log::LogRow;
use tsb_lines::{ShortLine, seven_digits};
use tsb_types::limits::{PEDESTRIAN_DETECTORS, PREEMPTS, VEHICLE_DETECTORS};

/// The most bytes of the line of a row, with its line feed.
pub const LISTS_LINE: usize = 200;

/// The bytes of the line of a row by lists.
pub type ListsLine = ShortLine<LISTS_LINE>;

/// The line that spells a row by lists, with its line feed: the tick in 7 digits, then for each kind with an input on a
/// space, its letter and the list of those that are on. Where the tick has more digits, it has the last 7.
pub fn lists_line(row: LogRow) -> ListsLine
    ensures { result ≡ lists_line row ++ 10 ∷ [] }
{
    let mut line = ListsLine::new();
    line.push(&seven_digits(row.tick));
    push_kind(&mut line, b" V", row.row.vehicles.list(), VEHICLE_DETECTORS);
    let pedestrians = u64::from(row.row.pedestrians.list());
    push_kind(&mut line, b" P", pedestrians, PEDESTRIAN_DETECTORS);
    let preempts = u64::from(row.row.preempts.list());
    push_kind(&mut line, b" E", preempts, PREEMPTS);
    line.push(b"\n");
    line
}

/// The line of a row in a form, with its line feed.
pub fn line_in(form: RowForm, row: LogRow) -> ListsLine
    ensures { result ≡ line_in form row ++ 10 ∷ [] }
{
    match form {
        RowForm::Lists => lists_line(row),
        RowForm::Digits => {
            let mut line = ListsLine::new();
            line.push(row_line(row).as_bytes());
            line
        }
    }
}

/// Adds a space, a letter and the list of the numbers from 1 to `most` that are on, where there are some.
fn push_kind(line: &mut ListsLine, letter: &[u8; 2], on: u64, most: u8)
    requires { most ≤ 64 }
    ensures { Adds LISTS_LINE line.old (kind_text letter.now most (names on)) line.new }
{
    let mut is_first = true;
    let mut number = 1u8;
    while number <= most {
        if is_on(on, number) {
            let end = end_of_run(on, number, most);
            push_before(line, letter, is_first);
            push_item(line, number, end);
            is_first = false;
            number = end;
        }
        number += 1;
    }
    line.push(b"");
}

/// Adds what comes before an item: a space and a letter before the first one, a comma before others.
fn push_before(line: &mut ListsLine, letter: &[u8; 2], is_first: bool)
    ensures { Adds LISTS_LINE line.old (if is_first then letter.now else codes ",") line.new }
{
    if is_first {
        line.push(letter);
    } else {
        line.push(b",");
    }
}

/// Adds an item: a number, or the first and the last of a run.
fn push_item(line: &mut ListsLine, first: u8, end: u8)
    requires { first ≤ end }
    ensures { Adds LISTS_LINE line.old (item_text (first, end)) line.new }
{
    line.push_number(first as u32);
    if first < end {
        line.push(b"-");
        line.push_number(end as u32);
    }
}

/// The last number, at most `most`, of the run of numbers that are on from `first`. That one is on.
fn end_of_run(on: u64, first: u8, most: u8) -> u8
    requires from_one { 1 ≤ first }
    requires within { first ≤ most }
    requires few { most ≤ 64 }
    ensures end { result ≡ run_end first (most - first) (names on) }
    ensures from { first ≤ result }
    ensures within { result ≤ most }
{
    let mut end = first;
    while end < most && is_on(on, end + 1) {
        end += 1;
    }
    end
}

/// Whether a list has a number.
#[inline(always)]
fn is_on(on: u64, number: u8) -> bool
    requires from_one { 1 ≤ number }
    requires within { number ≤ 64 }
    ensures { result ≡ names on number }
{
    on >> (number - 1) & 1 == 1
}
