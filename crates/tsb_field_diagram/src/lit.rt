//! Which bands a diagram has.
ghost use Rattle.std.specs.Prelude.{◌≡◌, ◌++◌, IfOk, OnOk};
ghost use Rattle.tsb_field_diagram.specs.Lit.{band_if, bands_of, bands_on, is_ever, is_ever_on, is_ever_shown, phases_on};

use crate::band::{Band, BandKind, BandMark, mark_in_change, mark_in_row};
use crate::bars::is_same;
use std::alloc::{AllocError, Global};
use tsb_field_display::Shown;
use tsb_log_text::LogRow;
use tsb_types::limits::{OVERLAPS, PEDESTRIAN_DETECTORS, PREEMPTS, VEHICLE_DETECTORS};

/// How many phases there are.
const PHASES: u8 = 16;

/// The bands of a diagram, from top to bottom: preempts, flash, the heads of phases, each with its pedestrian head
/// below it, overlaps and inputs. It has only those that ever show something.
pub(crate) fn bands(
    alloc: Global,
    changes: &[Shown],
    rows: &[LogRow],
) -> Result<Vec<Band>, AllocError>
    ensures { IfOk result (λ bands. bands.items ≡ bands_of changes.now rows.now) }
{
    let mut bands = Vec::new(alloc);
    add_all(&mut bands, BandKind::Preempt, PREEMPTS, changes, rows)?;
    add_all(&mut bands, BandKind::Flash, 1, changes, rows)?;
    add_phases(&mut bands, changes, rows)?;
    add_all(&mut bands, BandKind::Overlap, OVERLAPS, changes, rows)?;
    add_all(
        &mut bands,
        BandKind::VehicleInput,
        VEHICLE_DETECTORS,
        changes,
        rows,
    )?;
    add_all(
        &mut bands,
        BandKind::PedestrianInput,
        PEDESTRIAN_DETECTORS,
        changes,
        rows,
    )?;
    add_all(&mut bands, BandKind::PreemptInput, PREEMPTS, changes, rows)?;
    Ok(bands)
}

/// Adds the bands of a kind, from number 1 to this one.
fn add_all(
    bands: &mut Vec<Band>,
    kind: BandKind,
    count: u8,
    changes: &[Shown],
    rows: &[LogRow],
) -> Result<(), AllocError>
    ensures { OnOk result (bands.new.items ≡ bands.old.items ++ bands_on changes.now rows.now kind 0 count) }
{
    for before in 0..count {
        add(bands, kind, before + 1, changes, rows)?;
    }
    Ok(())
}

/// Adds the bands of the heads of phases.
fn add_phases(bands: &mut Vec<Band>, changes: &[Shown], rows: &[LogRow]) -> Result<(), AllocError>
    ensures { OnOk result (bands.new.items ≡ bands.old.items ++ phases_on changes.now rows.now 0 16) }
{
    for before in 0..PHASES {
        add(bands, BandKind::Vehicle, before + 1, changes, rows)?;
        add(bands, BandKind::Pedestrian, before + 1, changes, rows)?;
    }
    Ok(())
}

/// Adds a band, where it ever shows something.
#[tactic(auto, unfolding(crate::specs::Lit::band_if))]
fn add(
    bands: &mut Vec<Band>,
    kind: BandKind,
    number: u8,
    changes: &[Shown],
    rows: &[LogRow],
) -> Result<(), AllocError>
    ensures { OnOk result (bands.new.items ≡ bands.old.items ++ band_if changes.now rows.now kind number) }
{
    let band = Band { kind, number };
    if is_ever(band, changes, rows) {
        bands.push(band)?;
    }
    Ok(())
}

/// Whether a band ever shows something.
fn is_ever(band: Band, changes: &[Shown], rows: &[LogRow]) -> bool
    ensures { result ≡ is_ever changes.now rows.now band }
{
    is_ever_shown(band, changes) || is_ever_on(band, rows)
}

/// Whether changes ever show something in a band.
fn is_ever_shown(band: Band, changes: &[Shown]) -> bool
    ensures { result ≡ is_ever_shown changes.now band }
{
    changes.iter().any(|change| !is_same(mark_in_change(band, change), BandMark::Dark))
}

/// Whether rows ever show something in a band.
fn is_ever_on(band: Band, rows: &[LogRow]) -> bool
    ensures { result ≡ is_ever_on rows.now band }
{
    rows.iter()
        .any(|row| !is_same(mark_in_row(band, row), BandMark::Dark))
}
