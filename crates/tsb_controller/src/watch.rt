//! What the heads show, and the inputs that the monitor judges: a tick and a fault.
ghost use Rattle.std.specs.Prelude.{◌≡◌, ◌-◌, ◌≤◌, false, None, IfSome};
ghost use Rattle.tsb_objects.specs.Checked.{checked_plan};
ghost use Rattle.tsb_ring.specs.Cells as rings;
ghost use Rattle.tsb_heads.specs.Promises.{Flashes, AreApart, NamesOverlaps};
ghost use Rattle.tsb_step.specs.MonitorLaws.{IsCause};
ghost use Rattle.tsb_transact.specs.Desk.{Desk};
ghost use Rattle.tsb_step.specs.Backed.{IsGoodInAll};
ghost use Rattle.tsb_step.specs.Step.{last_tick};
ghost use Rattle.tsb_controller.specs.Rows.{AreBy, state_of, untripped};
ghost use Rattle.tsb_controller.specs.Shown.{IsShown};
ghost use Rattle.tsb_controller.specs.Promises.{ShowsDisplay, ShowsField, IsWatchedTick, IsLit};

use crate::controller::Controller;
use tsb_heads::{Commitments, Display, Field, Monitor, Trip};
use tsb_objects::{Checked, Lamp, Ring, Row};

impl Controller {
    ghost use Rattle.tsb_controller.specs.Layer.{rows_of, kept_of, IsOpen};

    /// A display by the intervals, the pedestrian parts and the commitments as they are.
    pub(crate) fn heads(&self, tripped: bool, plan: &Checked) -> Display
        requires rings_by { rings.IsBy (rows_of self.now).rings }
        ensures shown { IsShown (checked_plan plan.now) tripped (rows_of self.now) result }
        ensures flashing { Flashes tripped result }
        ensures apart { AreApart result }
        ensures few { NamesOverlaps result }
    {
        Display::new(
            &self.phases.intervals(),
            &self.phases.pedestrians(),
            Commitments {
                ring_1: self.rings.commitment(Ring::of(1)),
                ring_2: self.rings.commitment(Ring::of(2)),
            },
            &self.overlaps.lights(),
            tripped,
            plan,
        )
    }

    /// What the heads show, for a controller that has tripped or has not.
    pub fn display(&self, tripped: bool, plan: &Checked) -> Display
        requires rings_by { rings.IsBy (rows_of self.now).rings }
        ensures { ShowsDisplay (checked_plan plan.now) tripped (rows_of self.now) result }
    {
        self.heads(tripped, plan)
    }

    /// What the lamps show while the controller has not tripped, with the lamp that a fault has lit.
    pub fn field(&self, lamp: &Option<Lamp>, plan: &Checked) -> Field
        requires rings_by { rings.IsBy (rows_of self.now).rings }
        ensures { ShowsField (checked_plan plan.now) lamp.now (rows_of self.now) result }
    {
        Field::new(self.heads(false, plan), *lamp)
    }

    /// What the lamps show, where a fault has lit one.
    #[inline(always)]
    fn lit_field(&self, lamp: Option<Lamp>, plan: &Checked) -> Option<Field>
        requires rings_by { rings.IsBy (rows_of self.now).rings }
        ensures none { result ≡ None → lamp ≡ None }
        ensures shown { IfSome result (λ field. ShowsField (checked_plan plan.now) lamp (rows_of self.now) field) }
    {
        if lamp.is_none() {
            None
        } else {
            Some(self.field(&lamp, plan))
        }
    }

    /// Tick `now` of a controller that has not tripped, with what the monitor finds when it compares what the lamps
    /// showed before with what they show then: why the controller trips, if it does. While no lamp is lit it finds
    /// nothing, so that the heads need not be compared.
    #[inline(always)]
    pub fn watched_tick(
        &mut self,
        now: u32,
        row: &Row,
        lamp: Option<Lamp>,
        plan: &Checked,
    ) -> Option<Trip>
        requires opened { IsOpen self.old }
        requires begun { 1 ≤ now }
        requires in_time { now ≤ last_tick }
        requires by { AreBy (now - 1) (rows_of self.old) }
        requires good { (desk : Desk) × IsGoodInAll (state_of (now - 1) (untripped (checked_plan plan.now) desk lamp) (rows_of self.old)) }
        ensures state { IsWatchedTick now row.now lamp (checked_plan plan.now) (rows_of self.old) (rows_of self.new) result }
        ensures cause { IfSome result IsCause }
        ensures by { AreBy now (rows_of self.new) }
        ensures kept { kept_of self.new ≡ kept_of self.old }
        ensures opened { IsOpen self.new }
    {
        let before = self.lit_field(lamp, plan);
        self.tick(now, row, plan);
        match before {
            None => None,
            Some(before) => Monitor::judge(&before, &self.field(&lamp, plan), plan),
        }
    }

    /// What the monitor finds when a fault lights `lamp` in place of the one before, or takes that one out: why the
    /// controller, which has not tripped, trips, if it does.
    pub fn light(&self, was: &Option<Lamp>, lamp: &Option<Lamp>, plan: &Checked) -> Option<Trip>
        requires rings_by { rings.IsBy (rows_of self.now).rings }
        ensures state { IsLit was.now lamp.now (checked_plan plan.now) (rows_of self.now) result }
        ensures cause { IfSome result IsCause }
    {
        Monitor::judge(&self.field(was, plan), &self.field(lamp, plan), plan)
    }
}
