//! Which heads of a display show a colour, as sets of phases and of overlaps.
ghost use Rattle.std.specs.Prelude.{◌≡◌};
ghost use Rattle.tsb_heads.specs.Monitoring.{is_red, is_green};
ghost use Rattle.tsb_heads.specs.Colours.{is_yellow, is_flashing, is_flashing_yellow, shows_dont_walk, shows_clearance, shows_walk};
ghost use Rattle.tsb_heads.specs.Promises.{Flashes, TellsVehicles, TellsPedestrians, TellsOverlaps};

use crate::display::Display;
use tsb_objects::{NumberSet, PhaseSet};

impl Display {
    /// Whether the display is that of a controller that has tripped: each vehicle head, a phase's or an overlap's, that
    /// is not dark flashes red (profile).
    pub fn is_flashing(&self) -> bool
        ensures { Flashes result self.now }
    {
        self.flashing
    }

    /// The phases whose vehicle head is red.
    pub fn vehicle_reds(&self) -> PhaseSet
        ensures { TellsVehicles is_red self.now result }
    {
        if self.flashing {
            PhaseSet::empty()
        } else {
            self.red.difference(self.green).difference(self.yellow)
        }
    }

    /// The phases whose vehicle head is yellow.
    pub fn vehicle_yellows(&self) -> PhaseSet
        ensures { TellsVehicles is_yellow self.now result }
    {
        if self.flashing {
            PhaseSet::empty()
        } else {
            self.yellow.difference(self.green)
        }
    }

    /// The phases whose vehicle head is green.
    pub fn vehicle_greens(&self) -> PhaseSet
        ensures { TellsVehicles is_green self.now result }
    {
        if self.flashing {
            PhaseSet::empty()
        } else {
            self.green
        }
    }

    /// The phases whose vehicle head flashes red.
    pub fn vehicles_flashing(&self) -> PhaseSet
        ensures { TellsVehicles is_flashing self.now result }
    {
        if self.flashing {
            self.red.union(self.yellow).union(self.green)
        } else {
            PhaseSet::empty()
        }
    }

    /// The phases whose pedestrian head has pedestrians wait.
    pub fn dont_walks(&self) -> PhaseSet
        ensures { TellsPedestrians shows_dont_walk self.now result }
    {
        self.dont_walk
            .difference(self.walk)
            .difference(self.clearance)
    }

    /// The phases whose pedestrian head has pedestrians finish crossing.
    pub fn clearances(&self) -> PhaseSet
        ensures { TellsPedestrians shows_clearance self.now result }
    {
        self.clearance.difference(self.walk)
    }

    /// The phases whose pedestrian head has pedestrians start to walk.
    pub fn walks(&self) -> PhaseSet
        ensures { TellsPedestrians shows_walk self.now result }
    {
        self.walk
    }

    /// The overlaps whose head is red.
    pub fn overlap_reds(&self) -> NumberSet
        ensures { TellsOverlaps is_red self.now result }
    {
        if self.flashing {
            NumberSet::empty()
        } else {
            self.overlap_red
                .difference(self.overlap_green)
                .difference(self.overlap_yellow)
                .difference(self.overlap_arrow)
        }
    }

    /// The overlaps whose head is yellow.
    pub fn overlap_yellows(&self) -> NumberSet
        ensures { TellsOverlaps is_yellow self.now result }
    {
        if self.flashing {
            NumberSet::empty()
        } else {
            self.overlap_yellow
                .difference(self.overlap_green)
                .difference(self.overlap_arrow)
        }
    }

    /// The overlaps whose head is green.
    pub fn overlap_greens(&self) -> NumberSet
        ensures { TellsOverlaps is_green self.now result }
    {
        if self.flashing {
            NumberSet::empty()
        } else {
            self.overlap_green.difference(self.overlap_arrow)
        }
    }

    /// The overlaps whose head flashes red.
    pub fn overlaps_flashing(&self) -> NumberSet
        ensures { TellsOverlaps is_flashing self.now result }
    {
        if self.flashing {
            self.overlap_red
                .union(self.overlap_yellow)
                .union(self.overlap_green)
                .union(self.overlap_arrow)
        } else {
            NumberSet::empty()
        }
    }

    /// The overlaps whose head flashes yellow: arrows that let their turn go by gaps.
    pub fn overlap_arrows(&self) -> NumberSet
        ensures { TellsOverlaps is_flashing_yellow self.now result }
    {
        if self.flashing {
            NumberSet::empty()
        } else {
            self.overlap_arrow
        }
    }
}
