//! What the heads of all overlaps show, as sets of overlaps.
ghost use Rattle.tsb_objects.specs.tsb_types.declared.limits.TheConstants.{OVERLAPS};
ghost use Rattle.std.specs.Prelude.{◌≡◌, ◌≢◌, ◌<◌, ◌≤◌, ℕ, false};
ghost use Rattle.tsb_objects.specs.tsb_types.declared.lamp.Aspect.TheVariants.{FlashingRed};
ghost use Rattle.tsb_objects.specs.tsb_types.Flow.{light_of};
ghost use Rattle.tsb_objects.specs.tsb_types.Sets.{has_number};
ghost use Rattle.tsb_objects.specs.Checked.{checked_plan};
ghost use Rattle.tsb_heads.specs.Heads.{Shown};
ghost use Rattle.tsb_heads.specs.Overlaps.{overlap_head};
ghost use Rattle.tsb_heads.specs.Served.{IsServed};
ghost use Rattle.tsb_heads.specs.OverlapSets.{HasNone, IsInOne, IsSameAt, aspect_of_overlap};

use crate::overlaps::{ServedPhases, head_by_phases};
use tsb_objects::{Aspect, Checked, NumberSet, Overlap, OverlapLights};

/// The sets of overlaps whose heads show each colour.
#[derive(Clone, Copy)]
pub(crate) struct OverlapColours {
    pub(crate) red: NumberSet,
    pub(crate) yellow: NumberSet,
    pub(crate) green: NumberSet,
    pub(crate) flashing: NumberSet,
}

/// No overlap has a head.
#[inline(always)]
fn no_overlaps() -> OverlapColours
    ensures { (n : ℕ) → HasNone result n }
{
    OverlapColours {
        red: NumberSet::empty(),
        yellow: NumberSet::empty(),
        green: NumberSet::empty(),
        flashing: NumberSet::empty(),
    }
}

/// The set with the number if `on`, for a set that does not have it yet.
#[inline(always)]
fn joined(set: NumberSet, o: Overlap, on: bool) -> NumberSet
    requires { has_number set o ≡ false }
    ensures set { has_number result o ≡ on }
    ensures others { (n : ℕ) → n ≢ o → has_number result n ≡ has_number set n }
{
    if on { set.with(o.number(), true) } else { set }
}

/// The sets with one more overlap, which is in none of them yet.
#[inline(always)]
fn with_overlap(heads: OverlapColours, o: Overlap, aspect: Aspect) -> OverlapColours
    requires fresh { HasNone heads o }
    requires steady { aspect ≢ FlashingRed }
    ensures here { aspect_of_overlap result o ≡ aspect }
    ensures one { IsInOne result o }
    ensures others { (n : ℕ) → n ≢ o → IsSameAt heads result n }
{
    OverlapColours {
        red: joined(heads.red, o, matches!(aspect, Aspect::Red)),
        yellow: joined(heads.yellow, o, matches!(aspect, Aspect::Yellow)),
        green: joined(heads.green, o, matches!(aspect, Aspect::Green)),
        flashing: joined(heads.flashing, o, matches!(aspect, Aspect::FlashingYellow)),
    }
}

/// What the head of an overlap shows that has intervals of its own.
#[inline(always)]
fn light_of(lights: &OverlapLights, o: Overlap) -> Aspect
    ensures light { result ≡ light_of lights.now o }
    ensures steady { result ≢ FlashingRed }
{
    let number = o.number();
    if lights.green.contains(number) {
        Aspect::Green
    } else if lights.flashing.contains(number) {
        Aspect::FlashingYellow
    } else if lights.yellow.contains(number) {
        Aspect::Yellow
    } else {
        Aspect::Red
    }
}

/// What the head of an overlap shows: by its own interval where it has one, and otherwise by the phases.
#[inline(always)]
fn head_of(plan: &Checked, o: Overlap, served: &ServedPhases, lights: &OverlapLights) -> Aspect
    ensures head { (s : Shown) → IsServed (checked_plan plan.now) s served.now → ((n : ℕ) → s.light n ≡ light_of lights.now n) →
        result ≡ overlap_head (checked_plan plan.now) s o }
    ensures steady { result ≢ FlashingRed }
{
    if plan.timed_overlaps().contains(o.number()) {
        light_of(lights, o)
    } else {
        head_by_phases(plan, o, served)
    }
}

/// What the heads of overlaps show. Only those that include a phase are looked at: the others are dark.
#[inline(always)]
pub(crate) fn overlaps_of(
    plan: &Checked,
    served: &ServedPhases,
    lights: &OverlapLights,
) -> OverlapColours
    ensures heads { (s : Shown) → IsServed (checked_plan plan.now) s served.now → ((n : ℕ) → s.light n ≡ light_of lights.now n) →
        (o : ℕ) → 1 ≤ o → o ≤ OVERLAPS → aspect_of_overlap result o ≡ overlap_head (checked_plan plan.now) s o }
    ensures apart { (n : ℕ) → IsInOne result n }
    ensures few { (o : ℕ) → OVERLAPS < o → HasNone result o }
{
    let mut heads = no_overlaps();
    let mut rest = plan.used_overlaps();
    while let Some(number) = rest.first() {
        rest = rest.with(number, false);
        let o = Overlap::of(number);
        heads = with_overlap(heads, o, head_of(plan, o, served, lights));
    }
    heads
}
