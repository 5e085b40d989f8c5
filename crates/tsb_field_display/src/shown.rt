//! What a display line shows.
ghost use Rattle.std.specs.Prelude.{◌≡◌};
ghost use Rattle.tsb_field_display.specs.Events.{is_in_flash};
ghost use Rattle.tsb_field_display.specs.Shows.{is_same, nothing_lit};

use tsb_types::NumberSet;

/// The vehicle heads, of phases or of overlaps, that show each colour. A head in no set is dark.
#[derive(Clone, Copy, PartialEq, Eq)]
pub struct VehicleHeads {
    /// The heads that are green.
    pub greens: NumberSet,
    /// The heads that are yellow.
    pub yellows: NumberSet,
    /// The heads that are steady red.
    pub reds: NumberSet,
    /// The heads that flash red.
    pub flashing: NumberSet,
    /// The heads that flash yellow, as arrows do.
    pub arrows: NumberSet,
}

/// The pedestrian heads that show each aspect. A head in no set is dark.
#[derive(Clone, Copy, PartialEq, Eq)]
pub struct PedestrianHeads {
    /// The heads that show walk.
    pub walks: NumberSet,
    /// The heads that show clearance.
    pub clearances: NumberSet,
    /// The heads that show don't walk.
    pub dont_walks: NumberSet,
}

/// What a display line shows besides its tick and the local counter. Two are equal where they show the same.
#[derive(Clone, Copy, PartialEq, Eq)]
pub struct Signals {
    /// The vehicle heads of phases 1 to 16.
    pub vehicles: VehicleHeads,
    /// The pedestrian heads of phases 1 to 16.
    pub pedestrians: PedestrianHeads,
    /// The heads of overlaps 1 to 4, or of a wide line 1 to 16.
    pub overlaps: VehicleHeads,
    /// The preempt in service, 1 to 8, or `None`.
    pub preempt: Option<u8>,
}

/// A display line: its tick, and what it shows.
#[derive(Clone, Copy, PartialEq, Eq)]
pub struct Shown {
    /// The number of the tick, 0 to 9,999,999.
    pub tick: u32,
    /// What the heads show, and the preempt in service.
    pub signals: Signals,
}

impl Signals {
    /// What is shown before the first line: no head is lit, and no preempt is in service.
    pub fn nothing_lit() -> Signals
        ensures { result ≡ nothing_lit }
    {
        let none = NumberSet::empty();
        let dark = VehicleHeads {
            greens: none,
            yellows: none,
            reds: none,
            flashing: none,
            arrows: none,
        };
        Signals {
            vehicles: dark,
            pedestrians: PedestrianHeads {
                walks: none,
                clearances: none,
                dont_walks: none,
            },
            overlaps: dark,
            preempt: None,
        }
    }

    /// Whether some vehicle head of a phase flashes.
    pub fn is_in_flash(&self) -> bool
        ensures { result ≡ is_in_flash self.now }
    {
        self.vehicles.flashing.first().is_some()
    }
}

/// Whether two show the same.
#[inline(always)]
pub(crate) fn same(one: &Signals, other: &Signals) -> bool
    ensures { result ≡ is_same one.now other.now }
{
    *one == *other
}
