//! Zones of clocks.
ghost use Rattle.std.specs.Prelude.{◌≡◌, ◌<◌, ◌^◌};
ghost use Rattle.tsb_event_text.specs.TimeForms.{hours_and, minutes_at, moved, offset_of, own_zone, shown_clock, utc, zone_by, zone_named, zone_or, zone_sign};

use crate::events::has_byte;
use crate::time_forms::{clock_of, split};
use tsb_lines::number;

/// How a clock stands to that of UTC. At most one of both is not 0.
#[derive(Clone, Copy, PartialEq, Eq)]
pub struct Zone {
    /// How many minutes it is ahead.
    pub east: u16,
    /// How many minutes it is behind.
    pub west: u16,
}

/// UTC itself.
pub(crate) const UTC: Zone = Zone { east: 0, west: 0 };

/// The nanoseconds of a minute.
const MINUTE: u128 = 60_000_000_000;

/// The zone that a word names: `Z` or `UTC`, in any case, or an offset with its sign, as `-07:00`, `+0530` or `+01`, of less
/// than a day.
pub fn zone_named(word: &[u8]) -> Option<Zone>
    ensures { result ≡ zone_named word.now }
{
    let [sign, rest @ ..] = word else {
        return None;
    };
    if *sign == b'+' || *sign == b'-' {
        return zone_by(*sign, rest);
    }
    if word.eq_ignore_ascii_case(b"z") || word.eq_ignore_ascii_case(b"utc") {
        return Some(UTC);
    }
    None
}

/// The zone that this sign begins, a plus, a minus or Z, with this behind it.
fn zone_by(sign: u8, rest: &[u8]) -> Option<Zone>
    ensures { result ≡ zone_by sign rest.now }
{
    if sign == b'+' {
        let east = offset_of(rest)?;
        return Some(Zone { east, west: 0 });
    }
    if sign == b'-' {
        let west = offset_of(rest)?;
        return Some(Zone { east: 0, west });
    }
    if rest.is_empty() { Some(UTC) } else { None }
}

/// The minutes of an offset without its sign: `07:00`, `0700` or `07`.
fn offset_of(text: &[u8]) -> Option<u16>
    ensures { result ≡ offset_of text.now }
{
    if has_byte(b':', text) {
        let (hours, minutes) = split(b':', text);
        return hours_and(hours, minutes);
    }
    if text.len() <= 2 {
        return hours_and(text, b"00");
    }
    let (hours, minutes) = text.split_at(text.len() - 2);
    hours_and(hours, minutes)
}

/// Hours in two digits at most and minutes in two, in minutes.
fn hours_and(hours: &[u8], minutes: &[u8]) -> Option<u16>
    ensures { result ≡ hours_and hours.now minutes.now }
{
    if hours.len() > 2 || minutes.len() != 2 {
        return None;
    }
    minutes_at(number(hours)?, number(minutes)?)
}

/// Hours and minutes in minutes, less than a day.
fn minutes_at(hours: u32, minutes: u32) -> Option<u16>
    ensures { result ≡ minutes_at (Some hours) (Some minutes) }
{
    if hours < 24 && minutes < 60 {
        Some((hours * 60 + minutes) as u16)
    } else {
        None
    }
}

/// The byte with which a zone begins behind a clock: Z, a plus, or else a minus.
fn zone_sign(clock: &[u8]) -> u8
    ensures { result ≡ zone_sign clock.now }
{
    if has_byte(b'Z', clock) {
        return b'Z';
    }
    if has_byte(b'+', clock) { b'+' } else { b'-' }
}

/// The zone of a clock: that which it says, or else the one that is asked for. `None` where what it says is no zone.
pub(crate) fn own_zone(asked: Zone, clock: &[u8]) -> Option<Zone>
    ensures { result ≡ own_zone asked clock.now }
{
    let sign = zone_sign(clock);
    if has_byte(sign, clock) {
        let (_, rest) = split(sign, clock);
        return zone_by(sign, rest);
    }
    let (_, mark) = split(b' ', clock);
    if mark.eq_ignore_ascii_case(b"utc") {
        return Some(UTC);
    }
    Some(asked)
}

/// The nanoseconds of a day that a clock shows, whatever its zone.
pub(crate) fn shown_clock(clock: &[u8]) -> Option<u64>
    ensures { result ≡ shown_clock clock.now }
{
    let (clock, _) = split(zone_sign(clock), clock);
    clock_of(clock)
}

/// The zone that is asked for; without one any will do.
pub(crate) fn zone_or(zone: Option<Zone>) -> Zone
    ensures { result ≡ zone_or zone }
{
    match zone {
        Some(zone) => zone,
        None => UTC,
    }
}

/// What the clock of the zone that is asked for shows when a clock of this zone shows so many nanoseconds: as many, where
/// none is asked for.
pub(crate) fn moved(zone: Option<Zone>, own: Zone, nanos: u128) -> u128
    requires { nanos < 2 ^ 100 }
    ensures { result ≡ moved zone own nanos }
{
    let Some(zone) = zone else {
        return nanos;
    };
    let later = (zone.east as u128 + own.west as u128) * MINUTE;
    let earlier = (zone.west as u128 + own.east as u128) * MINUTE;
    (nanos + later).saturating_sub(earlier)
}
