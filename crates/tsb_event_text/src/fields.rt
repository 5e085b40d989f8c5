//! The fields of a line of CSV.
ghost use Rattle.std.specs.Prelude.{◌≡◌, ◌<◌, List, ℕ, IfSome, MatchOption, Some, None, length, option_map, slice_get};
ghost use Rattle.tsb_event_text.specs.Fields.{are_there, device_at, device_in, field_in, fields_from, fields_of, has_third, led_by};
ghost use Rattle.tsb_event_text.specs.Fields.{Plain, Quoted};

use memchr::memchr;

/// The first field of a line, and what follows its mark, if there is one. `None` where a quote is out of place: one
/// that nothing closes, or that closes a field and has anything but a mark or the end after it.
pub(crate) fn next_field(mark: u8, line: &[u8]) -> Option<(&[u8], Option<&[u8]>)>
    ensures first { MatchOption result (fields_of mark line.now ≡ None)
        (λ cut. fields_of mark line.now ≡ led_by cut.0.now (option_map (λ rest. fields_of mark rest.now) cut.1)) }
    ensures less { IfSome result (λ cut. IfSome cut.1 (λ rest. length rest.now < length line.now)) }
{
    if line.is_empty() || line[0] != b'"' {
        return Some(plain_field(mark, line));
    }
    quoted_field(mark, &line[1..])
}

/// The rest of a field that no quote began, and what follows its mark.
fn plain_field(mark: u8, line: &[u8]) -> (&[u8], Option<&[u8]>)
    ensures first { fields_from mark Plain line.now ≡ led_by result.0.now (option_map (λ rest. fields_of mark rest.now) result.1) }
    ensures less { IfSome result.1 (λ rest. length rest.now < length line.now) }
{
    match memchr(mark, line) {
        None => (line, None),
        Some(end) => (&line[..end], Some(&line[end + 1..])),
    }
}

/// The rest of a field that a quote began, and what follows its mark.
fn quoted_field(mark: u8, line: &[u8]) -> Option<(&[u8], Option<&[u8]>)>
    ensures first { MatchOption result (fields_from mark Quoted line.now ≡ None)
        (λ cut. fields_from mark Quoted line.now ≡ led_by cut.0.now (option_map (λ rest. fields_of mark rest.now) cut.1)) }
    ensures less { IfSome result (λ cut. IfSome cut.1 (λ rest. length rest.now < length line.now)) }
{
    let end = memchr(b'"', line)?;
    let behind = &line[end + 1..];
    if behind.is_empty() {
        return Some((&line[..end], None));
    }
    if behind[0] != mark {
        return None;
    }
    Some((&line[..end], Some(&behind[1..])))
}

/// Whether a line has fields: no quote is out of place.
pub(crate) fn has_fields(mark: u8, line: &[u8]) -> bool
    ensures { result ≡ are_there (fields_of mark line.now) }
{
    let mut rest = line;
    loop {
        let Some((_, behind)) = next_field(mark, rest) else {
            return false;
        };
        let Some(more) = behind else {
            return true;
        };
        rest = more;
    }
}

/// The field in this place, from 0, in a line that has fields.
pub(crate) fn field_at(mark: u8, line: &[u8], place: usize) -> Option<&[u8]>
    ensures { (fields : List (List ℕ)) → fields_of mark line.now ≡ Some fields
        → option_map (λ field. field.now) result ≡ slice_get fields place }
{
    let mut rest = line;
    let mut left = place;
    loop {
        let (field, behind) = next_field(mark, rest)?;
        if left == 0 {
            return Some(field);
        }
        rest = behind?;
        left -= 1;
    }
}

/// The device of a line that has fields: nothing, where no column has it.
pub(crate) fn device_at(mark: u8, line: &[u8], place: Option<usize>) -> Option<&[u8]>
    ensures { (fields : List (List ℕ)) → fields_of mark line.now ≡ Some fields
        → option_map (λ field. field.now) result ≡ device_at fields place }
{
    match place {
        None => Some(&line[..0]),
        Some(place) => field_at(mark, line, place),
    }
}

/// The field in this place, from 0, where the line has fields and so many.
pub(crate) fn field_in(mark: u8, line: &[u8], place: usize) -> Option<&[u8]>
    ensures { option_map (λ field. field.now) result ≡ field_in (fields_of mark line.now) place }
{
    if !has_fields(mark, line) {
        return None;
    }
    field_at(mark, line, place)
}

/// The device of a line: nothing, where no column has it.
pub(crate) fn device_in(mark: u8, line: &[u8], place: Option<usize>) -> Option<&[u8]>
    ensures { option_map (λ field. field.now) result ≡ device_in (fields_of mark line.now) place }
{
    match place {
        None => Some(&line[..0]),
        Some(place) => field_in(mark, line, place),
    }
}

/// Whether a line has a third field.
pub(crate) fn has_third(mark: u8, line: &[u8]) -> bool
    ensures { result ≡ has_third mark line.now }
{
    match field_in(mark, line, 2) {
        Some(_) => true,
        None => false,
    }
}
