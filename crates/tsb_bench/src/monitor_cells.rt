//! The monitor's cells: why the controller has tripped, and the lamp that a fault has lit.
ghost use Rattle.std.specs.Prelude.{◌≡◌, ℕ, ◌+◌, ◌≤◌, ◌++◌, false, length, slice_index, replicate, is_some, option_map, Option, IfSome};
ghost use Rattle.arrayvec.specs.ArrayVec.{array_vec_len};
ghost use Rattle.tsb_cells.specs.Bank.{cells_of, is_open};
ghost use Rattle.tsb_cells.specs.Diff.{diff, shifted};
ghost use Rattle.tsb_cells.specs.Row.{row_at};
ghost use Rattle.tsb_types.specs.declared.lamp.Lamp.{Lamp as LampValue};
ghost use Rattle.tsb_step.specs.MonitorCells.{lamp_in, trip_in, trip_cells, lamp_cells, signal_cell, signal_of, pedestrian_cell, pedestrian_of};
ghost use Rattle.tsb_step.specs.MonitorLaws.{IsMonitorBy, IsCause, IsLamp};
ghost use Rattle.tsb_step.specs.State.{Tripped};
ghost use Rattle.tsb_bench.specs.Cabinet.{tripped_by};
ghost use Rattle.tsb_step.specs.declared.TheConstants.{MONITOR_CELLS};
ghost use Rattle.tsb_step.specs.declared.first_cell.TheConstants.{MONITOR};

use arrayvec::ArrayVec;
use tsb_cells::{Bank, Reversible};
use tsb_heads::Trip;
use tsb_step::MONITOR_CELLS;
use tsb_step::first_cell::MONITOR;
use tsb_types::{Lamp, Overlap, PedestrianColor, Phase, SignalColor};

/// The cell that says why the controller has tripped; 0 where it has not.
const CAUSE: usize = 0;

/// The first cell of the lamp: its kind of head, or 0 where no lamp is lit.
const LAMP: usize = 4;

/// The cells of the monitor and of the injected lamp, four of the trip and three of the lamp, and those at the last change.
#[derive(Clone, Copy)]
pub(crate) struct MonitorCells {
    pub(crate) bank: Bank<MONITOR_CELLS>,
}

/// The cell of a color of a vehicle head.
fn signal_cell(color: SignalColor) -> u32
    ensures { result ≡ signal_cell color }
{
    match color {
        SignalColor::Red => 0,
        SignalColor::Yellow => 1,
        SignalColor::Green => 2,
    }
}

/// The color of a vehicle head in a cell.
fn signal_of(cell: u32) -> SignalColor
    ensures { result ≡ signal_of cell }
{
    match cell {
        0 => SignalColor::Red,
        1 => SignalColor::Yellow,
        _ => SignalColor::Green,
    }
}

/// The cell of a color of a pedestrian head.
fn pedestrian_cell(color: PedestrianColor) -> u32
    ensures { result ≡ pedestrian_cell color }
{
    match color {
        PedestrianColor::DontWalk => 0,
        PedestrianColor::Clearance => 1,
        PedestrianColor::Walk => 2,
    }
}

/// The color of a pedestrian head in a cell.
fn pedestrian_of(cell: u32) -> PedestrianColor
    ensures { result ≡ pedestrian_of cell }
{
    match cell {
        0 => PedestrianColor::DontWalk,
        1 => PedestrianColor::Clearance,
        _ => PedestrianColor::Walk,
    }
}

/// The cells of a lamp.
fn lamp_row(lamp: &Option<Lamp>) -> [u32; 3]
    ensures cells { result ≡ lamp_cells lamp.now }
    ensures lit { IsLamp lamp.now }
{
    match lamp {
        None => [0, 0, 0],
        Some(Lamp::Phase(phase, color)) => [1, u32::from(phase.number()), signal_cell(*color)],
        Some(Lamp::Pedestrian(phase, color)) => {
            [2, u32::from(phase.number()), pedestrian_cell(*color)]
        }
        Some(Lamp::Overlap(overlap, color)) => {
            [3, u32::from(overlap.number()), signal_cell(*color)]
        }
        Some(Lamp::Arrow(overlap)) => [4, u32::from(overlap.number()), 0],
    }
}

/// The cells of a trip at tick number `now`.
fn trip_row(cause: &Trip, now: u32) -> [u32; 4]
    ensures { result ≡ trip_cells (Some (record { cause = cause.now; tick = now })) }
{
    match cause {
        Trip::Conflict(p, q) => [1, u32::from(p.number()), u32::from(q.number()), now],
        Trip::GreenToRed(p) => [2, u32::from(p.number()), 0, now],
    }
}

impl MonitorCells {
    /// No trip and no lamp.
    pub(crate) fn new() -> MonitorCells
        ensures cells { cells_of result.bank ≡ replicate MONITOR_CELLS 0 }
        ensures shut { is_open result.bank ≡ false }
    {
        MonitorCells { bank: Bank::new() }
    }

    /// Whether the controller has tripped.
    pub(crate) fn is_tripped(&self) -> bool
        ensures { result ≡ is_some (trip_in (cells_of self.now.bank)) }
    {
        self.bank.get(CAUSE) != 0
    }

    /// Why the controller has tripped, and the tick number at which it did.
    pub(crate) fn trip(&self) -> Option<(Trip, u32)>
        requires by { (now : ℕ) × IsMonitorBy now (cells_of self.now.bank) }
        ensures { option_map (λ x. record { cause = x.0; tick = x.1 }) result ≡ trip_in (cells_of self.now.bank) }
    {
        let first = self.bank.get(CAUSE + 1);
        let tick = self.bank.get(CAUSE + 3);
        match self.bank.get(CAUSE) {
            0 => None,
            1 => {
                let second = self.bank.get(CAUSE + 2);
                Some((
                    Trip::Conflict(Phase::of(first as u8), Phase::of(second as u8)),
                    tick,
                ))
            }
            _ => Some((Trip::GreenToRed(Phase::of(first as u8)), tick)),
        }
    }

    /// The lamp that a fault has lit.
    pub(crate) fn lamp(&self) -> Option<Lamp>
        requires by { (now : ℕ) × IsMonitorBy now (cells_of self.now.bank) }
        ensures { result ≡ lamp_in (cells_of self.now.bank) }
    {
        let number = self.bank.get(LAMP + 1);
        let color = self.bank.get(LAMP + 2);
        match self.bank.get(LAMP) {
            0 => None,
            1 => Some(Lamp::Phase(Phase::of(number as u8), signal_of(color))),
            2 => Some(Lamp::Pedestrian(Phase::of(number as u8), pedestrian_of(color))),
            3 => Some(Lamp::Overlap(Overlap::of(number as u8), signal_of(color))),
            _ => Some(Lamp::Arrow(Overlap::of(number as u8))),
        }
    }

    /// Takes the lamp in place of the one before, and trips at tick number `now` if there is a cause. The cells that
    /// change go to `out`.
    pub(crate) fn set<const M: usize>(
        &mut self,
        lamp: &Option<Lamp>,
        found: &Option<Trip>,
        now: u32,
        out: &mut ArrayVec<(u16, u32), M>,
    )
        requires shut { is_open self.old.bank ≡ false }
        requires by { IsMonitorBy now (cells_of self.old.bank) }
        requires cause { IfSome found.now IsCause }
        requires room { array_vec_len out.old + MONITOR_CELLS ≤ M }
        ensures lamp { lamp_in (cells_of self.new.bank) ≡ lamp.now }
        ensures trip { trip_in (cells_of self.new.bank) ≡ tripped_by found.now now (trip_in (cells_of self.old.bank)) }
        ensures by { IsMonitorBy now (cells_of self.new.bank) }
        ensures changes { out.new.items ≡ out.old.items ++ shifted MONITOR (diff (cells_of self.old.bank) (cells_of self.new.bank)) }
        ensures len { array_vec_len out.new ≤ array_vec_len out.old + MONITOR_CELLS }
        ensures shut { is_open self.new.bank ≡ false }
    {
        let trip = match found {
            Some(cause) => trip_row(cause, now),
            None => self.bank.row(CAUSE),
        };
        self.store(&trip, &lamp_row(lamp), out);
    }

    /// Forgets the trip and the lamp. The cells that change go to `out`.
    pub(crate) fn clear<const M: usize>(&mut self, out: &mut ArrayVec<(u16, u32), M>)
        requires shut { is_open self.old.bank ≡ false }
        requires room { array_vec_len out.old + MONITOR_CELLS ≤ M }
        ensures cells { cells_of self.new.bank ≡ replicate MONITOR_CELLS 0 }
        ensures changes { out.new.items ≡ out.old.items ++ shifted MONITOR (diff (cells_of self.old.bank) (cells_of self.new.bank)) }
        ensures len { array_vec_len out.new ≤ array_vec_len out.old + MONITOR_CELLS }
        ensures shut { is_open self.new.bank ≡ false }
    {
        self.store(&[0; 4], &[0; 3], out);
    }

    /// Stores these cells. Those that change go to `out`.
    fn store<const M: usize>(
        &mut self,
        trip: &[u32; 4],
        lamp: &[u32; 3],
        out: &mut ArrayVec<(u16, u32), M>,
    )
        requires shut { is_open self.old.bank ≡ false }
        requires room { array_vec_len out.old + MONITOR_CELLS ≤ M }
        ensures cells { cells_of self.new.bank ≡ trip.now ++ lamp.now }
        ensures changes { out.new.items ≡ out.old.items ++ shifted MONITOR (diff (cells_of self.old.bank) (cells_of self.new.bank)) }
        ensures len { array_vec_len out.new ≤ array_vec_len out.old + MONITOR_CELLS }
        ensures shut { is_open self.new.bank ≡ false }
    {
        self.bank.open();
        self.bank.put_row(CAUSE, *trip);
        self.bank.put_row(LAMP, *lamp);
        self.bank.close_onto(out, MONITOR);
    }
}
