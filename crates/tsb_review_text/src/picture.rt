//! What a schedule runs in a week, as a picture.
#![tactic(auto, unfolding(tsb_plan::specs::PlanOf::plan_of))]

ghost use Rattle.std.specs.Prelude.{◌≡◌, ◌≤◌, ◌<◌, ◌++◌, IfOk, OnOk, length, map};
ghost use Rattle.tsb_types.specs.Lists.{run_from};
ghost use Rattle.tsb_plan.specs.PlanOf.{plan_of};
ghost use Rattle.tsb_field_diagram.specs.Week.{week_drawing};
ghost use Rattle.tsb_review_text.specs.WeekPicture.{band_at, band_of, bands_of, label_of, title_of, week_picture};

use crate::week::{DAY_MINUTES, Row, WEEK, begins, moment_of, push_day};
use std::alloc::{AllocError, Global};
use tsb_field_diagram::{WeekBand, draw_week};
use tsb_plan::Plan;
use tsb_types::ClockTime;

/// What the schedule of a plan runs in the seven days from that of a time on, as a picture in SVG: a row for each day, and
/// a band for each row of the table that `write_week` writes. The error is that memory ran out.
pub fn week_picture(alloc: Global, plan: &Plan, first: ClockTime) -> Result<Vec<u8>, AllocError>
    ensures { IfOk result (λ text. text.items ≡ week_picture (plan_of plan.now) first) }
{
    let bands = bands_of(alloc, plan, first)?;
    draw_bands(alloc, first, &bands)
}

/// The picture of these bands.
fn draw_bands(alloc: Global, first: ClockTime, bands: &[WeekBand]) -> Result<Vec<u8>, AllocError>
    ensures { IfOk result (λ text. text.items ≡ week_drawing (title_of first) (map (label_of first) (run_from 0 7)) bands.now) }
{
    let labels = [
        label_of(first, 0),
        label_of(first, 1),
        label_of(first, 2),
        label_of(first, 3),
        label_of(first, 4),
        label_of(first, 5),
        label_of(first, 6),
    ];
    let days = [
        labels[0].as_bytes(),
        labels[1].as_bytes(),
        labels[2].as_bytes(),
        labels[3].as_bytes(),
        labels[4].as_bytes(),
        labels[5].as_bytes(),
        labels[6].as_bytes(),
    ];
    let title = title_of(first);
    draw_week(alloc, title.as_bytes(), &days, bands)
}

/// The label of the day so many days after that of a time.
fn label_of(first: ClockTime, day: u32) -> Row
    requires { day < 7 }
    ensures { result ≡ label_of first day }
{
    let mut line = Row::new();
    push_day(&mut line, moment_of(first, DAY_MINUTES * day));
    line
}

/// The title of the picture.
fn title_of(first: ClockTime) -> Row
    ensures { result ≡ title_of first }
{
    let mut line = Row::new();
    line.push(b"Patterns of the schedule, week from ");
    push_day(&mut line, moment_of(first, 0));
    line
}

/// The bands of a week.
fn bands_of(alloc: Global, plan: &Plan, first: ClockTime) -> Result<Vec<WeekBand>, AllocError>
    ensures { IfOk result (λ bands. bands.items ≡ bands_of (plan_of plan.now) first) }
{
    let mut bands = Vec::new(alloc);
    for minute in 0..WEEK {
        add_band(&mut bands, plan, first, minute)?;
    }
    Ok(bands)
}

/// Adds the band that begins with a minute of the week, where one does.
fn add_band(
    bands: &mut Vec<WeekBand>,
    plan: &Plan,
    first: ClockTime,
    minute: u32,
) -> Result<(), AllocError>
    requires { minute < 10080 }
    ensures { OnOk result (bands.new.items ≡ bands.old.items ++ band_of (plan_of plan.now) first minute) }
{
    let moment = moment_of(first, minute);
    if begins(plan, moment, minute) {
        bands.push(band_at(plan, moment, minute))?;
    }
    Ok(())
}

/// The band of a moment, which begins with this minute of the week.
fn band_at(plan: &Plan, moment: u64, minute: u32) -> WeekBand
    requires { moment ≤ 31580000000 }
    ensures { result ≡ band_at (plan_of plan.now) moment minute }
{
    let action = plan.in_force(moment);
    WeekBand {
        minute,
        action,
        pattern: plan.selected_by(action),
    }
}
