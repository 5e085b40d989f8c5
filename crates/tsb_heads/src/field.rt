//! The field: what the lamps of the heads show, with an injected lamp laid over the display.
ghost use Rattle.tsb_objects.specs.tsb_types.declared.limits.TheConstants.{OVERLAPS};
ghost use Rattle.std.specs.Prelude.{◌≡◌, ◌≢◌, ◌≤◌, ℕ, false, Some};
ghost use Rattle.tsb_objects.specs.tsb_types.declared.lamp.Lamp.TheVariants as lamps;
ghost use Rattle.tsb_objects.specs.tsb_types.Sets.{has_number};
ghost use Rattle.tsb_heads.specs.Displays.{laid_over};
ghost use Rattle.tsb_heads.specs.Reading.{heads_of, display_of};
ghost use Rattle.tsb_heads.specs.Promises.{IsSame, Flashes, AreApart, NamesOverlaps, IsLaidOver};

use crate::display::Display;
use tsb_objects::{Lamp, NumberSet, Overlap, PedestrianColor, Phase, SignalColor};

/// What the lamps of the heads show: what the controller orders, and on one head an injected lamp instead.
#[derive(Clone, Copy)]
pub struct Field {
    /// The heads. None of them flashes, as a controller that has tripped is no longer monitored.
    pub(crate) heads: Display,
}

/// The set with the number if `on`, and otherwise without it.
#[inline(always)]
fn put(set: NumberSet, o: Overlap, on: bool) -> NumberSet
    ensures set { has_number result o ≡ on }
    ensures others { (n : ℕ) → n ≢ o → has_number result n ≡ has_number set n }
    ensures within { o ≤ OVERLAPS }
{
    set.with(o.number(), on)
}

impl Display {
    /// The display with a lamp on the vehicle head of a phase.
    fn with_vehicle(self, p: Phase, color: SignalColor) -> Display
        requires steady { Flashes false self }
        requires apart { AreApart self }
        ensures heads { IsSame (heads_of result) (laid_over (Some (lamps.Phase p color)) (heads_of self)) }
        ensures steady { Flashes false result }
        ensures apart { AreApart result }
        ensures few { NamesOverlaps self → NamesOverlaps result }
    {
        Display {
            red: self.red.with(p, matches!(color, SignalColor::Red)),
            yellow: self.yellow.with(p, matches!(color, SignalColor::Yellow)),
            green: self.green.with(p, matches!(color, SignalColor::Green)),
            ..self
        }
    }

    /// The display with a lamp on the pedestrian head of a phase.
    fn with_pedestrian(self, p: Phase, color: PedestrianColor) -> Display
        requires steady { Flashes false self }
        requires apart { AreApart self }
        ensures heads { IsSame (heads_of result) (laid_over (Some (lamps.Pedestrian p color)) (heads_of self)) }
        ensures steady { Flashes false result }
        ensures apart { AreApart result }
        ensures few { NamesOverlaps self → NamesOverlaps result }
    {
        Display {
            dont_walk: self
                .dont_walk
                .with(p, matches!(color, PedestrianColor::DontWalk)),
            clearance: self
                .clearance
                .with(p, matches!(color, PedestrianColor::Clearance)),
            walk: self.walk.with(p, matches!(color, PedestrianColor::Walk)),
            ..self
        }
    }

    /// The display with a lamp on the head of an overlap.
    fn with_overlap(self, o: Overlap, color: SignalColor) -> Display
        requires steady { Flashes false self }
        requires apart { AreApart self }
        ensures heads { IsSame (heads_of result) (laid_over (Some (lamps.Overlap o color)) (heads_of self)) }
        ensures steady { Flashes false result }
        ensures apart { AreApart result }
        ensures few { NamesOverlaps self → NamesOverlaps result }
    {
        Display {
            overlap_red: put(self.overlap_red, o, matches!(color, SignalColor::Red)),
            overlap_yellow: put(self.overlap_yellow, o, matches!(color, SignalColor::Yellow)),
            overlap_green: put(self.overlap_green, o, matches!(color, SignalColor::Green)),
            overlap_arrow: put(self.overlap_arrow, o, false),
            ..self
        }
    }

    /// The display with the flashing yellow on the head of an overlap.
    fn with_arrow(self, o: Overlap) -> Display
        requires steady { Flashes false self }
        requires apart { AreApart self }
        ensures heads { IsSame (heads_of result) (laid_over (Some (lamps.Arrow o)) (heads_of self)) }
        ensures steady { Flashes false result }
        ensures apart { AreApart result }
        ensures few { NamesOverlaps self → NamesOverlaps result }
    {
        Display {
            overlap_red: put(self.overlap_red, o, false),
            overlap_yellow: put(self.overlap_yellow, o, false),
            overlap_green: put(self.overlap_green, o, false),
            overlap_arrow: put(self.overlap_arrow, o, true),
            ..self
        }
    }

    /// The display with a lamp laid over its head. Lamps are seldom injected, and it stays out of line.
    #[inline(never)]
    fn with_lamp(self, lamp: &Lamp) -> Display
        requires steady { Flashes false self }
        requires apart { AreApart self }
        ensures heads { IsSame (heads_of result) (laid_over (Some lamp.now) (heads_of self)) }
        ensures steady { Flashes false result }
        ensures apart { AreApart result }
        ensures few { NamesOverlaps self → NamesOverlaps result }
    {
        match lamp {
            Lamp::Phase(p, color) => self.with_vehicle(*p, *color),
            Lamp::Pedestrian(p, color) => self.with_pedestrian(*p, *color),
            Lamp::Overlap(o, color) => self.with_overlap(*o, *color),
            Lamp::Arrow(o) => self.with_arrow(*o),
        }
    }
}

impl Field {
    /// The lamps of a display that does not flash, with an injected lamp, if there is one, laid over its head, even
    /// over one that is dark (profile).
    #[inline(always)]
    pub fn new(display: Display, lamp: Option<Lamp>) -> Field
        requires steady { Flashes false display }
        requires apart { AreApart display }
        ensures heads { IsLaidOver display lamp result }
        ensures steady { Flashes false (display_of result) }
        ensures apart { AreApart (display_of result) }
        ensures few { NamesOverlaps display → NamesOverlaps (display_of result) }
    {
        let heads = match lamp {
            None => display,
            Some(lamp) => display.with_lamp(&lamp),
        };
        Field { heads }
    }

    /// What the heads show.
    pub fn heads(&self) -> &Display
        ensures { result.now ≡ display_of self.now }
    {
        &self.heads
    }
}
