//! What the heads of all phases show, as sets of phases.
ghost use Rattle.std.specs.Prelude.{◌≡◌, ℕ, if◌then◌else◌, ◌&&◌, ◌||◌, not};
ghost use Rattle.tsb_objects.specs.tsb_types.declared.lamp.Aspect.TheVariants.{Dark};
ghost use Rattle.tsb_objects.specs.tsb_types.declared.lamp.PedestrianAspect.TheVariants as pedestrian_aspects;
ghost use Rattle.tsb_objects.specs.tsb_types.Flow.{interval_of, pedestrian_of};
ghost use Rattle.tsb_objects.specs.tsb_types.Intervals.{is_dont_walk};
ghost use Rattle.tsb_objects.specs.tsb_types.Sets.{has};
ghost use Rattle.tsb_heads.specs.Heads.{aspect_of, pedestrian_aspect_of};
ghost use Rattle.tsb_heads.specs.PhaseHeads.{vehicle_aspect, pedestrian_aspect, VehiclesAreApart, WalkersAreApart};

use tsb_objects::{Intervals, Pedestrians, PhaseSet};

/// The phases whose vehicle heads show each colour.
#[derive(Clone, Copy)]
pub(crate) struct Vehicles {
    pub(crate) red: PhaseSet,
    pub(crate) yellow: PhaseSet,
    pub(crate) green: PhaseSet,
}

/// The phases whose pedestrian heads have pedestrians wait, finish crossing, and start to walk.
#[derive(Clone, Copy)]
pub(crate) struct Walkers {
    pub(crate) dont_walk: PhaseSet,
    pub(crate) clearance: PhaseSet,
    pub(crate) walk: PhaseSet,
}

/// What the vehicle heads of these phases show, by their intervals; those of others are dark.
#[inline(always)]
pub(crate) fn vehicles_of(on: PhaseSet, intervals: &Intervals) -> Vehicles
    ensures heads { (p : ℕ) → vehicle_aspect result p ≡ (if has on p then aspect_of (interval_of intervals.now p) else Dark) }
    ensures apart { VehiclesAreApart result }
{
    Vehicles {
        red: on.difference(intervals.green).difference(intervals.yellow),
        yellow: on
            .intersection(intervals.yellow)
            .difference(intervals.green),
        green: on.intersection(intervals.green),
    }
}

/// What the pedestrian heads of these phases show, by their pedestrian parts; those of others are dark, and so are
/// those of phases without a walk while their pedestrians wait.
#[inline(always)]
pub(crate) fn walkers_of(on: PhaseSet, with_walk: PhaseSet, pedestrians: &Pedestrians) -> Walkers
    ensures heads { (p : ℕ) → pedestrian_aspect result p
        ≡ (if has on p && (has with_walk p || not (is_dont_walk (pedestrian_of pedestrians.now p)))
        then pedestrian_aspect_of (pedestrian_of pedestrians.now p) else pedestrian_aspects.Dark) }
    ensures apart { WalkersAreApart result }
{
    Walkers {
        dont_walk: on
            .intersection(with_walk)
            .difference(pedestrians.walk)
            .difference(pedestrians.clearance),
        clearance: on
            .intersection(pedestrians.clearance)
            .difference(pedestrians.walk),
        walk: on.intersection(pedestrians.walk),
    }
}
