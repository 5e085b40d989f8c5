//! Zones of times as exports have them. Expected values are worked by hand from the rules.

use crate::export_rows::MIDNIGHT;
use tsb_event_text::{Moment, TimeForm, Zone, moment_in, zone_named};

/// Words of zones, each with the minutes that its clock is ahead of that of UTC, and behind it.
const ZONES: [(&[u8], u16, u16); 12] = [
    (b"Z", 0, 0),
    (b"z", 0, 0),
    (b"UTC", 0, 0),
    (b"utc", 0, 0),
    (b"+01", 60, 0),
    (b"+1", 60, 0),
    (b"-07:00", 0, 420),
    (b"-0700", 0, 420),
    (b"+0530", 330, 0),
    (b"+5:30", 330, 0),
    (b"+530", 330, 0),
    (b"-23:59", 0, 1439),
];

/// Whether the words name their zones.
fn are_zones() -> bool {
    for (word, east, west) in &ZONES {
        if zone_named(word)
            != Some(Zone {
                east: *east,
                west: *west,
            })
        {
            return false;
        }
    }
    true
}

/// Words that name no zone.
const NO_ZONES: [&[u8]; 14] = [
    b"",
    b"+",
    b"-",
    b"07:00",
    b"+24",
    b"+24:00",
    b"+07:60",
    b"+07:0",
    b"+007:00",
    b"+07000",
    b"-0x",
    b"MST",
    b"Z ",
    b"+07:00:00",
];

/// Whether none of the words names one.
fn are_no_zones() -> bool {
    for word in &NO_ZONES {
        if zone_named(word).is_some() {
            return false;
        }
    }
    true
}

#[test]
fn zones_are_named(rt: HostRuntime) {
    assert!(rt; are_zones() && are_no_zones());
}

/// Times, each with its form and the milliseconds after 2026-11-22 began by the clock of the zone -07:00.
const ZONED: [(TimeForm, &[u8], u32); 11] = [
    (TimeForm::YearFirst, b"2026-11-22 14:00:03.2Z", 25_203_200),
    (
        TimeForm::YearFirst,
        b"2026-11-22T14:00:03.2 UTC",
        25_203_200,
    ),
    (
        TimeForm::YearFirst,
        b"2026-11-22 08:00:03.2-06:00",
        25_203_200,
    ),
    (TimeForm::YearFirst, b"2026-11-22 07:00:03.2-07", 25_203_200),
    (
        TimeForm::YearFirst,
        b"2026-11-22 19:30:03.2 +0530",
        25_203_200,
    ),
    (TimeForm::YearFirst, b"2026-11-23 01:00:00+01", 61_200_000),
    (TimeForm::YearFirst, b"2026-11-22 07:00:03.2", 25_203_200),
    (
        TimeForm::MonthFirst,
        b"11/22/2026 2:00:03.2 PM-00:00",
        25_203_200,
    ),
    (TimeForm::DayFirst, b"22.11.2026 14:00:03,2 UTC", 25_203_200),
    (TimeForm::Seconds, b"1795330803.2", 3_200),
    (TimeForm::Milliseconds, b"1795330803200", 3_200),
];

/// Whether all of the times are moved to that clock.
fn times_are_moved() -> bool {
    let zone = zone_named(b"-07:00");
    for (form, text, milliseconds) in &ZONED {
        let wanted = Moment {
            nanos: MIDNIGHT + *milliseconds as u128 * 1_000_000,
        };
        if moment_in(*form, zone, text) != Some(wanted) {
            return false;
        }
    }
    zone.is_some()
}

/// Whether a time of the day before is found: 3:00 by UTC is 20:00 there.
fn days_before_are_found() -> bool {
    moment_in(
        TimeForm::YearFirst,
        zone_named(b"-0700"),
        b"2026-11-22 03:00:00Z",
    ) == Some(Moment {
        nanos: MIDNIGHT - 14_400_000_000_000,
    })
}

#[test]
fn times_are_those_of_a_zone(rt: HostRuntime) {
    assert!(rt; times_are_moved() && days_before_are_found());
}
