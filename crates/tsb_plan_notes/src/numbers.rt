//! Numbers of JSON, and what values say that were meant in another form: in seconds with tenths, or as phases.
ghost use Rattle.std.specs.Prelude.{◌≡◌, nat_le, option_and_then, option_map, slice_index};
ghost use Rattle.json.specs.Find.{as_number, as_str};
ghost use Rattle.json.specs.Value.{value_view};
ghost use Rattle.std.specs.List.{list_any};
ghost use Rattle.tsb_plan_notes.specs.Notes.{fault_words, number_words, positive_words};
ghost use Rattle.tsb_plan_notes.specs.PhaseLists.{phases_of};
ghost use Rattle.tsb_plan_notes.specs.Parts.{is_exponent, is_index, is_negative, is_point, is_within, joined, meant, tenths_of, whole_of};

use crate::phase_list::phases_of;
use crate::units::Unit;
use json::Value;
use tsb_lines::number;

/// A value that is a whole number of 0 to 4,294,967,295, written without point and exponent.
pub(crate) fn whole_of(value: &Value<'_>) -> Option<u32>
    ensures { result ≡ whole_of (value_view value.now) }
{
    match value.as_number() {
        Some(text) => number(text.as_bytes()),
        None => None,
    }
}

/// What a value may have been meant as, in the unit of its object: 32 for 3.2, where that is tenths of a second, and 72
/// for "4,7", where that is a list of phases.
pub(crate) fn meant(unit: Unit, value: &Value<'_>) -> Option<u64>
    ensures { result ≡ meant unit (value_view value.now) }
{
    match unit {
        Unit::Tenths => tenths_in(value),
        Unit::Phases => phases_in(value),
        _ => None,
    }
}

/// The tenths of a second that a value says, where it is a number with one decimal.
fn tenths_in(value: &Value<'_>) -> Option<u64>
    ensures { result ≡ option_and_then tenths_of (as_number (value_view value.now)) }
{
    match value.as_number() {
        Some(text) => tenths_of(text.as_bytes()),
        None => None,
    }
}

/// The list of the phases that a value names, where it is a text.
fn phases_in(value: &Value<'_>) -> Option<u64>
    ensures { result ≡ option_and_then phases_of (as_str (value_view value.now)) }
{
    match value.as_str() {
        Some(text) => phases_of(text.as_bytes()),
        None => None,
    }
}

/// The tenths of a second that a number with one decimal says.
#[tactic(auto, unfolding(crate::specs::Parts::tenths_of))]
fn tenths_of(text: &[u8]) -> Option<u64>
    ensures { result ≡ tenths_of text.now }
{
    let length = text.len();
    if length < 3 || text[length - 2] != b'.' {
        return None;
    }
    joined(number(&text[..length - 2]), number(&text[length - 1..]))
}

/// Whole seconds and tenths of a second, as tenths.
fn joined(whole: Option<u32>, tenth: Option<u32>) -> Option<u64>
    ensures { result ≡ joined whole tenth }
{
    let whole = whole?;
    let tenth = tenth?;
    Some(whole as u64 * 10 + tenth as u64)
}

/// Whether a text is that of an index of at most so many: in digits, without a leading zero.
#[tactic(auto, unfolding(crate::specs::Parts::is_index))]
pub(crate) fn is_index(indices: u32, text: &str) -> bool
    ensures { result ≡ is_index indices text.now }
{
    begins_over_0(text.as_bytes()) && is_within(indices, number(text.as_bytes()))
}

/// Whether the first byte is the digit 1 or a greater one.
fn begins_over_0(text: &[u8]) -> bool
    ensures { result ≡ nat_le 49 (slice_index text.now 0) }
{
    !text.is_empty() && text[0] >= b'1'
}

/// Whether a number is at most so many.
fn is_within(most: u32, found: Option<u32>) -> bool
    ensures { result ≡ is_within most found }
{
    match found {
        Some(found) => found <= most,
        None => false,
    }
}

/// What is said of a value that is no whole number of 0 to 4,294,967,295: why it is none.
pub(crate) fn fault_words(value: &Value<'_>) -> &'static [u8]
    ensures { result.now ≡ fault_words (value_view value.now) }
{
    match value.as_number() {
        Some(text) => number_words(text.as_bytes()),
        None => b" is no whole number",
    }
}

/// What is said of such a number of JSON.
fn number_words(text: &[u8]) -> &'static [u8]
    ensures { result.now ≡ number_words text.now }
{
    if is_negative(text) {
        b" is negative"
    } else {
        positive_words(text)
    }
}

/// What is said of such a number that is not negative.
fn positive_words(text: &[u8]) -> &'static [u8]
    ensures { result.now ≡ positive_words text.now }
{
    if has_exponent(text) {
        b" has an exponent"
    } else if has_point(text) {
        b" is no whole number"
    } else {
        b" is too large"
    }
}

/// Whether a number has an exponent.
fn has_exponent(text: &[u8]) -> bool
    ensures { result ≡ list_any is_exponent text.now }
{
    text.iter().any(|byte| is_exponent(*byte))
}

/// Whether a number has a point.
fn has_point(text: &[u8]) -> bool
    ensures { result ≡ list_any is_point text.now }
{
    text.iter().any(|byte| is_point(*byte))
}

/// Whether a number begins with a minus.
fn is_negative(text: &[u8]) -> bool
    ensures { result ≡ is_negative text.now }
{
    let [first, ..] = text else {
        return false;
    };
    *first == b'-'
}

/// Whether a byte of a number is the letter before an exponent.
fn is_exponent(byte: u8) -> bool
    ensures { result ≡ is_exponent byte }
{
    byte == b'e' || byte == b'E'
}

/// Whether a byte of a number is a point.
fn is_point(byte: u8) -> bool
    ensures { result ≡ is_point byte }
{
    byte == b'.'
}
