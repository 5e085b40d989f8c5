//! The numbers of first cells among all cells of the controller, and how many cells there are. The cells are those of
//! the plan, of the desk, of the seven layers, and of the monitor with the injected lamp.

use crate::MONITOR_CELLS;
use tsb_objects::PLAN_CELLS;

/// The desk's, after the plan's.
pub const DESK: u16 = PLAN_CELLS as u16;

/// The detectors'.
pub const DETECTORS: u16 = DESK + tsb_transact::CELLS as u16;

/// The calls'.
pub const CALLS: u16 = DETECTORS + tsb_detect::CELLS as u16;

/// The phases'.
pub const PHASES: u16 = CALLS + tsb_calls::CELLS as u16;

/// The rings'.
pub const RINGS: u16 = PHASES + tsb_phase::CELLS as u16;

/// Coordination's.
pub const COORD: u16 = RINGS + tsb_ring::CELLS as u16;

/// The preempts'.
pub const PREEMPTS: u16 = COORD + tsb_coord::CELLS as u16;

/// The overlaps'.
pub const OVERLAPS: u16 = PREEMPTS + tsb_preempt::CELLS as u16;

/// The monitor's and the injected lamp's.
pub const MONITOR: u16 = OVERLAPS + tsb_overlap::CELLS as u16;

/// How many cells the seven layers have.
pub const LAYER_CELLS: usize = (MONITOR - DETECTORS) as usize;

/// How many cells there are.
pub const ALL_CELLS: usize = MONITOR as usize + MONITOR_CELLS;
