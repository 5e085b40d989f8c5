//! The bands of a diagram, and what each shows.
ghost use Rattle.std.specs.Prelude.{◌≡◌};
ghost use Rattle.tsb_types.specs.Lists.{is};
ghost use Rattle.tsb_field_display.specs.Events.{is_in_flash};
ghost use Rattle.tsb_field_diagram.specs.Bands.{flash_mark, mark_in_change, mark_in_row, on_mark, pedestrian_mark, served_mark, shows, shows_detector, vehicle_mark};

use tsb_field_display::{PedestrianHeads, Shown, Signals, VehicleHeads};
use tsb_log_text::LogRow;
use tsb_types::limits::VEHICLE_DETECTORS;
use tsb_types::{DetectorSet, NumberSet};

/// How high a band is.
pub(crate) const BAND: u128 = 16;

/// What a band is about.
#[derive(Clone, Copy)]
pub enum BandKind {
    /// A preempt in service.
    Preempt,
    /// Flash.
    Flash,
    /// The vehicle head of a phase.
    Vehicle,
    /// The pedestrian head of a phase.
    Pedestrian,
    /// The head of an overlap.
    Overlap,
    /// A vehicle detector.
    VehicleInput,
    /// A pedestrian detector.
    PedestrianInput,
    /// A preempt input.
    PreemptInput,
}

/// A band of a diagram.
#[derive(Clone, Copy)]
pub struct Band {
    /// What it is about.
    pub kind: BandKind,
    /// Which one, from 1. That of flash is 1.
    pub number: u8,
}

/// What a band shows at a tick.
#[derive(Clone, Copy)]
pub enum BandMark {
    /// Nothing: the head is dark, the input is off, no such preempt is in service.
    Dark,
    /// Green.
    Green,
    /// Yellow.
    Yellow,
    /// Steady red.
    Red,
    /// Flashing red, or flash.
    Flashing,
    /// A flashing yellow arrow.
    Arrow,
    /// Walk.
    Walk,
    /// Clearance.
    Clearance,
    /// Don't walk.
    DontWalk,
    /// The preempt is in service.
    Served,
    /// The input is on.
    On,
}

/// What a band shows of a display line: nothing where it is the band of an input.
pub(crate) fn mark_in_change(band: Band, shown: &Shown) -> BandMark
    ensures { result ≡ mark_in_change band shown.now }
{
    let signals = &shown.signals;
    match band.kind {
        BandKind::Preempt => served_mark(band.number, signals.preempt),
        BandKind::Flash => flash_mark(signals),
        BandKind::Vehicle => vehicle_mark(band.number, &signals.vehicles),
        BandKind::Pedestrian => pedestrian_mark(band.number, &signals.pedestrians),
        BandKind::Overlap => vehicle_mark(band.number, &signals.overlaps),
        _ => BandMark::Dark,
    }
}

/// What a band shows of a row of inputs: nothing where it is not the band of an input.
pub(crate) fn mark_in_row(band: Band, row: &LogRow) -> BandMark
    ensures { result ≡ mark_in_row band row.now }
{
    match band.kind {
        BandKind::VehicleInput => on_mark(shows_detector(row.row.vehicles, band.number)),
        BandKind::PedestrianInput => on_mark(shows(row.row.pedestrians, band.number)),
        BandKind::PreemptInput => on_mark(shows(row.row.preempts, band.number)),
        _ => BandMark::Dark,
    }
}

/// What a vehicle head shows.
fn vehicle_mark(number: u8, heads: &VehicleHeads) -> BandMark
    ensures { result ≡ vehicle_mark number heads.now }
{
    if shows(heads.greens, number) {
        BandMark::Green
    } else if shows(heads.yellows, number) {
        BandMark::Yellow
    } else if shows(heads.reds, number) {
        BandMark::Red
    } else if shows(heads.flashing, number) {
        BandMark::Flashing
    } else if shows(heads.arrows, number) {
        BandMark::Arrow
    } else {
        BandMark::Dark
    }
}

/// What a pedestrian head shows.
fn pedestrian_mark(number: u8, heads: &PedestrianHeads) -> BandMark
    ensures { result ≡ pedestrian_mark number heads.now }
{
    if shows(heads.walks, number) {
        BandMark::Walk
    } else if shows(heads.clearances, number) {
        BandMark::Clearance
    } else if shows(heads.dont_walks, number) {
        BandMark::DontWalk
    } else {
        BandMark::Dark
    }
}

/// What the band of a preempt shows.
fn served_mark(number: u8, preempt: Option<u8>) -> BandMark
    ensures { result ≡ served_mark number preempt }
{
    match preempt {
        Some(served) => {
            if served == number {
                BandMark::Served
            } else {
                BandMark::Dark
            }
        }
        None => BandMark::Dark,
    }
}

/// What the band of flash shows.
fn flash_mark(signals: &Signals) -> BandMark
    ensures { result ≡ flash_mark (is_in_flash signals.now) }
{
    if signals.is_in_flash() {
        BandMark::Flashing
    } else {
        BandMark::Dark
    }
}

/// What the band of an input shows.
fn on_mark(on: bool) -> BandMark
    ensures { result ≡ on_mark on }
{
    if on { BandMark::On } else { BandMark::Dark }
}

/// Whether a number is in a set: only 1 to 16 can be.
fn shows(set: NumberSet, number: u8) -> bool
    ensures { result ≡ shows set number }
{
    1 <= number && number <= 16 && set.contains(number)
}

/// Whether a vehicle detector is in a set: only one that there is can be.
fn shows_detector(set: DetectorSet, number: u8) -> bool
    ensures { result ≡ shows_detector set number }
{
    1 <= number && number <= VEHICLE_DETECTORS && set.contains(number)
}
