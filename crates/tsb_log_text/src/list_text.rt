//! The line that spells a row by lists, read.
ghost use Rattle.std.specs.Prelude.{◌≡◌, ◌≤◌, ◌<◌, ℕ, IfSome, MatchOption, Some, None, option_map, ◌∷◌, [], ◌&&◌, ◌||◌, length, nat_le, ◌^◌, ◌==◌, false};
ghost use Rattle.tsb_types.specs.Sets.{has_detector};
ghost use Rattle.tsb_log_text.specs.RowLists.{as_range, as_run, ends_of_item, lists_of, own_list, parts, plain_number, row_of_lists, list_spelled, words_left};

use crate::log::LogRow;
use crate::row_text::tick;
use tsb_lines::number;
use tsb_types::limits::{PEDESTRIAN_DETECTORS, PREEMPTS, VEHICLE_DETECTORS};
use tsb_types::{DetectorSet, NumberSet, Row};

/// What may follow a list: the words after it, or none where no space follows.
type Behind<'a> = Option<&'a [u8]>;

/// The row that a line spells by lists, or `None` where it is not such a row.
#[tactic(auto, unfolding(crate::specs::RowLists::row_of_lists))]
pub(crate) fn lists_row(line: &[u8]) -> Option<LogRow>
    ensures { result ≡ row_of_lists line.now }
{
    if line.len() < 7 {
        return None;
    }
    let tick = tick(&line[..7])?;
    if line.len() == 7 {
        let row = Row::all_off();
        return Some(LogRow { tick, row });
    }
    if line[7] != b' ' {
        return None;
    }
    let row = lists_of(&line[8..])?;
    Some(LogRow { tick, row })
}

/// The inputs that lists spell as a row does after its tick: for each kind with an input on its letter and a list, with
/// a space between them. `V` is of vehicle detectors, then `P` of pedestrian detectors, then `E` of preempt inputs. `None`
/// for any other bytes, and for none: where no input is on there is nothing after the tick.
#[tactic(auto, unfolding(crate::specs::RowLists::lists_of))]
pub fn lists_of(text: &[u8]) -> Option<Row>
    ensures { result ≡ lists_of text.now }
{
    let (vehicles, rest) = own_list(b'V', VEHICLE_DETECTORS, Some(text))?;
    let (pedestrians, rest) = own_list(b'P', PEDESTRIAN_DETECTORS, rest)?;
    let (preempts, rest) = own_list(b'E', PREEMPTS, rest)?;
    if rest.is_some() {
        return None;
    }
    Some(Row {
        vehicles: DetectorSet::from_list(vehicles),
        pedestrians: NumberSet::from_list(pedestrians as u16),
        preempts: NumberSet::from_list(preempts as u16),
    })
}

/// The numbers, as a list, that the list of a kind spells, and the words after it. It is the first of these words where
/// some are on. `None` where it is not a list of numbers from 1 to `most`.
fn own_list(letter: u8, most: u8, words: Behind<'_>) -> Option<(u64, Behind<'_>)>
    requires few { most ≤ 64 }
    requires apart { (letter == 32) ≡ false }
    ensures read { MatchOption result (own_list letter most (words_left (option_map (λ text. text.now) words.entry)) ≡ None)
        (λ found. own_list letter most (words_left (option_map (λ text. text.now) words.entry)) ≡ Some (found.0, words_left (option_map (λ text. text.now) found.1))) }
    ensures few { IfSome result (λ found. found.0 < 2 ^ most) }
{
    let Some(text) = words else {
        return Some((0, None));
    };
    if text.is_empty() || text[0] != letter {
        return Some((0, Some(text)));
    }
    let (list, behind) = cut_at(&text[1..], b' ');
    let on = list_in(list, most)?;
    Some((on, behind))
}

/// The numbers, as a list, that a list spells: numbers and ranges of numbers, with a comma between them. They rise, from
/// 1 to `most` at most.
fn list_in(list: &[u8], most: u8) -> Option<u64>
    requires { most ≤ 64 }
    ensures read { result ≡ list_spelled most list.now }
    ensures few { IfSome result (λ on. on < 2 ^ most) }
{
    let mut on = DetectorSet::empty();
    let mut last = 0;
    let mut rest = list;
    loop {
        let (item, behind) = cut_at(rest, b',');
        let (first, end) = ends_of(item)?;
        if first <= last || end > u32::from(most) {
            return None;
        }
        on = with_run(on, first as u8, end as u8);
        last = end;
        let Some(more) = behind else {
            return Some(on.list());
        };
        rest = more;
    }
}

/// The first and the last number of an item of a list: one number twice, or the two of a range, the less one first.
fn ends_of(item: &[u8]) -> Option<(u32, u32)>
    ensures { result ≡ ends_of_item (parts 45 item.now) }
{
    let (low, behind) = cut_at(item, b'-');
    match behind {
        None => one_number(low),
        Some(rest) => range_of(low, rest),
    }
}

/// The ends of the run of one number.
fn one_number(digits: &[u8]) -> Option<(u32, u32)>
    ensures { result ≡ as_run (plain_number digits.now) }
{
    let number = plain_number(digits)?;
    Some((number, number))
}

/// The ends of a range, with what its text has before its hyphen and after it.
fn range_of(low: &[u8], rest: &[u8]) -> Option<(u32, u32)>
    ensures { result ≡ ends_of_item (low.now ∷ parts 45 rest.now) }
{
    let (high, more) = cut_at(rest, b'-');
    match more {
        None => range(low, high),
        Some(_more) => None,
    }
}

/// The ends of a range; the first is less.
fn range(low: &[u8], high: &[u8]) -> Option<(u32, u32)>
    ensures { result ≡ as_range (plain_number low.now) (plain_number high.now) }
{
    let first = plain_number(low)?;
    let end = plain_number(high)?;
    if first < end {
        Some((first, end))
    } else {
        None
    }
}

/// The number that bytes spell without a leading 0.
fn plain_number(digits: &[u8]) -> Option<u32>
    ensures { result ≡ plain_number digits.now }
{
    if digits.is_empty() || digits[0] == b'0' {
        return None;
    }
    number(digits)
}

/// The set with all numbers from `first` to `end`.
fn with_run(on: DetectorSet, first: u8, end: u8) -> DetectorSet
    requires from_one { 1 ≤ first }
    requires rises { first ≤ end }
    requires within { end ≤ 64 }
    ensures { (n : ℕ) → has_detector result n ≡ (has_detector on n || (nat_le first n && nat_le n end)) }
{
    let mut all = on;
    let mut number = first;
    while number <= end {
        all = all.with(number, true);
        number += 1;
    }
    all
}

/// The bytes before the first byte `at`, and those after where there is one.
fn cut_at(bytes: &[u8], at: u8) -> (&[u8], Behind<'_>)
    ensures parts { MatchOption result.1 (parts at bytes.now ≡ result.0.now ∷ [])
        (λ rest. parts at bytes.now ≡ result.0.now ∷ parts at rest.now) }
    ensures shorter { IfSome result.1 (λ rest. length rest.now < length bytes.now) }
{
    let mut end = 0;
    while end < bytes.len() && bytes[end] != at {
        end += 1;
    }
    if end == bytes.len() {
        (bytes, None)
    } else {
        (&bytes[..end], Some(&bytes[end + 1..]))
    }
}
