//! What a byte does in a text of JSON.
ghost use Rattle.std.specs.Prelude.{◌≡◌};
ghost use Rattle.tsb_plan_notes.specs.Steps.{after, after_minus, begin, closed, digit_of, digit_to, escape, exponent, finished, first_byte, fraction, hex, is_blank, is_digit, is_escape, is_hex, is_mark, lead, letter, name, power_mark, quoted, rest_of, step, structure, tail, tail_of, value, whole, word, zero};

use crate::next::{Bracket, JsonNext, Move, Rest, Role};

/// What a byte does where this may come, within the bracket that was opened last and is not closed.
pub(crate) fn step(next: JsonNext, top: Option<Bracket>, byte: u8) -> Move
    ensures { result ≡ step next top byte }
{
    match next {
        JsonNext::Text(role) => quoted(role, byte),
        JsonNext::Escape(role) => escape(role, byte),
        JsonNext::Hex(role, left) => hex(role, left, byte),
        JsonNext::Tail {
            role,
            low,
            high,
            left,
        } => tail(role, low, high, left, byte),
        JsonNext::Word(rest) => letter(rest, byte),
        JsonNext::Minus => after_minus(byte),
        JsonNext::Point => digit_to(JsonNext::Fraction, byte),
        JsonNext::Exponent => exponent(byte),
        JsonNext::Sign => digit_to(JsonNext::Power, byte),
        JsonNext::Zero => finished(zero(byte), top, byte),
        JsonNext::Whole => finished(whole(byte), top, byte),
        JsonNext::Fraction => finished(fraction(byte), top, byte),
        JsonNext::Power => finished(digit_of(byte), top, byte),
        _ => structure(next, byte),
    }
}

/// What may follow a value within this bracket.
pub(crate) fn after(top: Option<Bracket>) -> JsonNext
    ensures { result ≡ after top }
{
    match top {
        None => JsonNext::End,
        Some(Bracket::Array) => JsonNext::ItemEnd,
        Some(Bracket::Object) => JsonNext::MemberEnd,
    }
}

/// A byte between values, names, colons and commas.
fn structure(next: JsonNext, byte: u8) -> Move
    ensures { result ≡ structure next byte }
{
    if is_blank(byte) {
        return Move::To(next);
    }
    begin(next, byte)
}

/// The same of a byte that is no blank.
fn begin(next: JsonNext, byte: u8) -> Move
    ensures { result ≡ begin next byte }
{
    match next {
        JsonNext::Value => value(byte),
        JsonNext::FirstItem => {
            if byte == b']' {
                Move::Close
            } else {
                value(byte)
            }
        }
        JsonNext::FirstName => {
            if byte == b'}' {
                Move::Close
            } else {
                name(byte)
            }
        }
        JsonNext::Name => name(byte),
        JsonNext::Colon => is_mark(b':', JsonNext::Value, byte),
        JsonNext::ItemEnd => {
            if byte == b']' {
                Move::Close
            } else {
                is_mark(b',', JsonNext::Value, byte)
            }
        }
        JsonNext::MemberEnd => {
            if byte == b'}' {
                Move::Close
            } else {
                is_mark(b',', JsonNext::Name, byte)
            }
        }
        _ => Move::Wrong,
    }
}

/// A byte that has to be this mark, which that follows.
fn is_mark(mark: u8, next: JsonNext, byte: u8) -> Move
    ensures { result ≡ is_mark mark next byte }
{
    if byte == mark {
        Move::To(next)
    } else {
        Move::Wrong
    }
}

/// The first byte of a name.
fn name(byte: u8) -> Move
    ensures { result ≡ name byte }
{
    is_mark(b'"', JsonNext::Text(Role::Name), byte)
}

/// The first byte of a value.
fn value(byte: u8) -> Move
    ensures { result ≡ value byte }
{
    if byte == b'{' {
        return Move::Open(Bracket::Object);
    }
    if byte == b'[' {
        return Move::Open(Bracket::Array);
    }
    if byte == b'"' {
        return Move::To(JsonNext::Text(Role::Value));
    }
    if byte == b'-' {
        return Move::To(JsonNext::Minus);
    }
    if is_digit(byte) {
        return after_minus(byte);
    }
    word(byte)
}

/// The first letter of a word.
fn word(byte: u8) -> Move
    ensures { result ≡ word byte }
{
    if byte == b't' {
        return Move::To(JsonNext::Word(Rest::Rue));
    }
    if byte == b'f' {
        return Move::To(JsonNext::Word(Rest::Alse));
    }
    if byte == b'n' {
        return Move::To(JsonNext::Word(Rest::Ull));
    }
    Move::Wrong
}

/// A further letter of a word.
fn letter(rest: Rest, byte: u8) -> Move
    ensures { result ≡ letter rest byte }
{
    if byte != first_byte(rest) {
        return Move::Wrong;
    }
    match rest_of(rest) {
        Some(rest) => Move::To(JsonNext::Word(rest)),
        None => Move::Ended,
    }
}

/// The letter that the rest of a word begins with.
fn first_byte(rest: Rest) -> u8
    ensures { result ≡ first_byte rest }
{
    match rest {
        Rest::Rue => b'r',
        Rest::Ue => b'u',
        Rest::E => b'e',
        Rest::Alse => b'a',
        Rest::Lse => b'l',
        Rest::Se => b's',
        Rest::Ull => b'u',
        Rest::Ll => b'l',
        Rest::L => b'l',
    }
}

/// What is left behind that letter.
fn rest_of(rest: Rest) -> Option<Rest>
    ensures { result ≡ rest_of rest }
{
    match rest {
        Rest::Rue => Some(Rest::Ue),
        Rest::Ue => Some(Rest::E),
        Rest::E => None,
        Rest::Alse => Some(Rest::Lse),
        Rest::Lse => Some(Rest::Se),
        Rest::Se => Some(Rest::E),
        Rest::Ull => Some(Rest::Ll),
        Rest::Ll => Some(Rest::L),
        Rest::L => None,
    }
}

/// A byte of a text between double quotes.
fn quoted(role: Role, byte: u8) -> Move
    ensures { result ≡ quoted role byte }
{
    if byte == b'"' {
        return closed(role);
    }
    if byte == b'\\' {
        return Move::To(JsonNext::Escape(role));
    }
    if byte < b' ' {
        return Move::Wrong;
    }
    if byte < 128 {
        return Move::To(JsonNext::Text(role));
    }
    lead(role, byte)
}

/// The double quote that ends a text.
fn closed(role: Role) -> Move
    ensures { result ≡ closed role }
{
    match role {
        Role::Name => Move::To(JsonNext::Colon),
        Role::Value => Move::Ended,
    }
}

/// The first byte of a character of UTF-8 that has several.
fn lead(role: Role, byte: u8) -> Move
    ensures { result ≡ lead role byte }
{
    if byte < 194 {
        return Move::Wrong;
    }
    if byte < 224 {
        return tail_of(role, 128, 191, 1);
    }
    if byte == 224 {
        return tail_of(role, 160, 191, 2);
    }
    if byte == 237 {
        return tail_of(role, 128, 159, 2);
    }
    if byte < 240 {
        return tail_of(role, 128, 191, 2);
    }
    if byte == 240 {
        return tail_of(role, 144, 191, 3);
    }
    if byte < 244 {
        return tail_of(role, 128, 191, 3);
    }
    if byte == 244 {
        return tail_of(role, 128, 143, 3);
    }
    Move::Wrong
}

/// So many more bytes of a character may follow, the first of them between these two.
fn tail_of(role: Role, low: u8, high: u8, left: u8) -> Move
    ensures { result ≡ tail_of role low high left }
{
    Move::To(JsonNext::Tail {
        role,
        low,
        high,
        left,
    })
}

/// A further byte of a character of UTF-8.
fn tail(role: Role, low: u8, high: u8, left: u8, byte: u8) -> Move
    ensures { result ≡ tail role low high left byte }
{
    if byte < low || high < byte {
        return Move::Wrong;
    }
    if left <= 1 {
        return Move::To(JsonNext::Text(role));
    }
    tail_of(role, 128, 191, left - 1)
}

/// What follows a backslash.
fn escape(role: Role, byte: u8) -> Move
    ensures { result ≡ escape role byte }
{
    if byte == b'u' {
        return Move::To(JsonNext::Hex(role, 4));
    }
    if is_escape(byte) {
        return Move::To(JsonNext::Text(role));
    }
    Move::Wrong
}

/// A hexadecimal digit of an escape.
fn hex(role: Role, left: u8, byte: u8) -> Move
    ensures { result ≡ hex role left byte }
{
    if !is_hex(byte) {
        return Move::Wrong;
    }
    if left <= 1 {
        return Move::To(JsonNext::Text(role));
    }
    Move::To(JsonNext::Hex(role, left - 1))
}

/// The first digit of a number.
fn after_minus(byte: u8) -> Move
    ensures { result ≡ after_minus byte }
{
    if byte == b'0' {
        return Move::To(JsonNext::Zero);
    }
    digit_to(JsonNext::Whole, byte)
}

/// A sign or the first digit of an exponent.
fn exponent(byte: u8) -> Move
    ensures { result ≡ exponent byte }
{
    if byte == b'+' {
        return Move::To(JsonNext::Sign);
    }
    if byte == b'-' {
        return Move::To(JsonNext::Sign);
    }
    digit_to(JsonNext::Power, byte)
}

/// A byte that has to be a digit, which this follows.
fn digit_to(next: JsonNext, byte: u8) -> Move
    ensures { result ≡ digit_to next byte }
{
    if is_digit(byte) {
        Move::To(next)
    } else {
        Move::Wrong
    }
}

/// A byte behind a number that may be whole: one with which it goes on, or the first behind it.
fn finished(more: Option<JsonNext>, top: Option<Bracket>, byte: u8) -> Move
    ensures { result ≡ finished more top byte }
{
    match more {
        Some(next) => Move::To(next),
        None => structure(after(top), byte),
    }
}

/// With what a number goes on behind a zero.
fn zero(byte: u8) -> Option<JsonNext>
    ensures { result ≡ zero byte }
{
    if byte == b'.' {
        return Some(JsonNext::Point);
    }
    power_mark(byte)
}

/// With what a number goes on behind a digit before the point.
fn whole(byte: u8) -> Option<JsonNext>
    ensures { result ≡ whole byte }
{
    if is_digit(byte) {
        return Some(JsonNext::Whole);
    }
    zero(byte)
}

/// With what a number goes on behind a digit behind the point.
fn fraction(byte: u8) -> Option<JsonNext>
    ensures { result ≡ fraction byte }
{
    if is_digit(byte) {
        return Some(JsonNext::Fraction);
    }
    power_mark(byte)
}

/// With what a number goes on behind a digit of its exponent.
fn digit_of(byte: u8) -> Option<JsonNext>
    ensures { result ≡ digit_of byte }
{
    if is_digit(byte) {
        return Some(JsonNext::Power);
    }
    None
}

/// The letter before an exponent.
fn power_mark(byte: u8) -> Option<JsonNext>
    ensures { result ≡ power_mark byte }
{
    if byte == b'e' {
        return Some(JsonNext::Exponent);
    }
    if byte == b'E' {
        return Some(JsonNext::Exponent);
    }
    None
}

/// A space, a tab, a line feed or a carriage return.
fn is_blank(byte: u8) -> bool
    ensures { result ≡ is_blank byte }
{
    matches!(byte, b' ' | b'\t' | b'\n' | b'\r')
}

/// A decimal digit.
fn is_digit(byte: u8) -> bool
    ensures { result ≡ is_digit byte }
{
    byte >= b'0' && byte <= b'9'
}

/// A hexadecimal digit.
fn is_hex(byte: u8) -> bool
    ensures { result ≡ is_hex byte }
{
    matches!(byte, b'0'..=b'9' | b'A'..=b'F' | b'a'..=b'f')
}

/// What follows a backslash alone.
fn is_escape(byte: u8) -> bool
    ensures { result ≡ is_escape byte }
{
    matches!(byte, b'"' | b'\\' | b'/' | b'b' | b'f' | b'n' | b'r' | b't')
}
