//! What a ring does in a tick by its want and its commitment: which phase it starts, ends and clears, and what it
//! commits to.
ghost use Rattle.std.specs.Prelude.{◌≡◌, ◌&&◌, ◌||◌, Some, None, is_some, if◌then◌else◌};
ghost use Rattle.tsb_objects.specs.tsb_plan.Plan.{Plan};
ghost use Rattle.tsb_objects.specs.Checked.{checked_plan};
ghost use Rattle.tsb_types.specs.Intervals.{is_green};
ghost use Rattle.tsb_types.specs.Flow.{interval_of};
ghost use Rattle.tsb_types.specs.Sets.{has};
ghost use Rattle.tsb_ring.specs.Cells.{IsBy};
ghost use Rattle.tsb_ring.specs.Layer.{cells_of, state_of, IsTurn, IsFound, IsOutcome};
ghost use Rattle.tsb_ring.specs.Promises.{given_of};
ghost use Rattle.tsb_ring.specs.Rings.{ring_numbered, serving};
ghost use Rattle.tsb_ring.specs.Crossings.{own_commitment, committed};
ghost use Rattle.tsb_ring.specs.Next.{is_none_or_over, makes_way, may_start, idle_pick, starting, leaves, ends, clears};
ghost use Rattle.tsb_ring.specs.Moves.{if_passes, ring_moves};

use crate::conditions::RingConditions;
use crate::found::{CrossingOutcome, RingChoice, Turn};
use crate::rings::Rings;
use crate::want::Want;
use tsb_objects::{Checked, Phase, RingMoves};

/// Whether the want ends the green of its ring.
#[inline(always)]
fn is_leave(want: Want) -> bool
    ensures { result ≡ leaves (Some want) }
{
    match want {
        Want::Go(_) => true,
        Want::Cross => false,
        Want::Rest => false,
        Want::Stop => true,
    }
}

/// Whether a ring with this want leaves its phase.
#[inline(always)]
fn leaves(want: Option<Want>) -> bool
    ensures { result ≡ leaves want }
{
    match want {
        None => false,
        Some(want) => is_leave(want),
    }
}

/// Whether the ring with this phase in service is idle or over.
#[inline(always)]
fn is_none_or_over(conditions: &RingConditions, own: Option<Phase>) -> bool
    ensures { (plan : Plan) → result ≡ is_none_or_over (given_of plan conditions.now) own }
{
    match own {
        None => true,
        Some(q) => conditions.timing.over.contains(q),
    }
}

/// Whether the other ring's phase in service makes way for `c`.
#[inline(always)]
fn makes_way(plan: &Checked, conditions: &RingConditions, c: Phase, across: Option<Phase>) -> bool
    ensures { result ≡ makes_way (checked_plan plan.now) (given_of (checked_plan plan.now) conditions.now) c across }
{
    match across {
        None => true,
        Some(q) => plan.concurrent_to(q).contains(c) || conditions.timing.over.contains(q),
    }
}

/// What a ring commits to by its own want.
#[inline(always)]
fn own_commitment(
    commitment: Option<Phase>,
    own: Option<Phase>,
    picked: Option<Phase>,
) -> Option<Phase>
    ensures { result ≡ own_commitment commitment own picked }
{
    match commitment {
        Some(c) => Some(c),
        None => {
            match own {
                None => None,
                Some(_) => picked,
            }
        }
    }
}

/// What an idle ring starts.
#[inline(always)]
fn idle_pick(own: Option<Phase>, picked: Option<Phase>) -> Option<Phase>
    ensures { result ≡ idle_pick own picked }
{
    match own {
        None => picked,
        Some(_) => None,
    }
}

/// The phase, where `on`.
#[inline(always)]
fn filtered(p: Phase, on: bool) -> Option<Phase>
    ensures { result ≡ (if on then Some p else None) }
{
    if on { Some(p) } else { None }
}

/// Whether the phase was Green.
#[inline(always)]
pub(crate) fn is_green(conditions: &RingConditions, p: Phase) -> bool
    ensures { result ≡ is_green (interval_of conditions.now.intervals p) }
{
    conditions.intervals.green.contains(p)
}

/// Whether a phase of a ring goes Yellow: it is Green, and a crossing begins, or it is ready and its ring leaves it.
#[inline(always)]
fn does_end(
    conditions: &RingConditions,
    p: Phase,
    found: &RingChoice,
    outcome: &CrossingOutcome,
) -> bool
    ensures { result ≡ (is_green (interval_of conditions.now.intervals p) && (outcome.now.begun || (has conditions.now.timing.ready p && leaves found.now.want))) }
{
    let leaves = conditions.timing.ready.contains(p) && leaves(found.want);
    is_green(conditions, p) && (outcome.begun || leaves)
}

impl Rings {
    /// Whether the commitment that the ring had may start, or, where it had none, whether the ring is idle or over.
    #[inline(always)]
    pub(crate) fn may_start(&self, plan: &Checked, conditions: &RingConditions, turn: &Turn) -> bool
        requires by { IsBy (cells_of self.now) }
        requires turn { IsTurn (checked_plan plan.now) (state_of self.now) (given_of (checked_plan plan.now) conditions.now) turn.now }
        ensures { result ≡ may_start (checked_plan plan.now) (given_of (checked_plan plan.now) conditions.now) (ring_numbered turn.now.ring) ((state_of self.now).commitment (ring_numbered turn.now.ring)) }
    {
        let free = is_none_or_over(conditions, turn.own);
        match self.commitment(turn.ring) {
            None => free,
            Some(c) => free
                && conditions.timing.red_revert_passed.contains(c)
                && makes_way(plan, conditions, c, turn.across),
        }
    }

    /// The ring's commitment in this tick.
    #[inline(always)]
    #[tactic(auto, unfolding(crate::specs::Crossings::committed))]
    fn committed(
        &self,
        plan: &Checked,
        conditions: &RingConditions,
        found: &RingChoice,
        outcome: &CrossingOutcome,
    ) -> Option<Phase>
        requires by { IsBy (cells_of self.now) }
        requires found { IsFound (checked_plan plan.now) (state_of self.now) (given_of (checked_plan plan.now) conditions.now) (ring_numbered found.now.ring) found.now }
        requires outcome { IsOutcome (checked_plan plan.now) (state_of self.now) (given_of (checked_plan plan.now) conditions.now) (ring_numbered found.now.ring) outcome.now }
        ensures { result ≡ committed (checked_plan plan.now) (state_of self.now) (given_of (checked_plan plan.now) conditions.now) (ring_numbered found.now.ring) }
    {
        if outcome.begun {
            outcome.entered
        } else {
            own_commitment(self.commitment(found.ring), found.own, found.picked)
        }
    }

    /// The phase that the ring starts in this tick.
    #[inline(always)]
    #[tactic(auto, unfolding(crate::specs::Next::starting))]
    fn starting(
        &self,
        plan: &Checked,
        conditions: &RingConditions,
        found: &RingChoice,
        outcome: &CrossingOutcome,
    ) -> Option<Phase>
        requires by { IsBy (cells_of self.now) }
        requires found { IsFound (checked_plan plan.now) (state_of self.now) (given_of (checked_plan plan.now) conditions.now) (ring_numbered found.now.ring) found.now }
        requires outcome { IsOutcome (checked_plan plan.now) (state_of self.now) (given_of (checked_plan plan.now) conditions.now) (ring_numbered found.now.ring) outcome.now }
        ensures { result ≡ starting (checked_plan plan.now) (state_of self.now) (given_of (checked_plan plan.now) conditions.now) (ring_numbered found.now.ring) }
    {
        match self.commitment(found.ring) {
            None => idle_pick(found.own, found.picked),
            Some(c) => {
                let now = if self.crossing().is_some() {
                    outcome.completed
                } else {
                    found.startable
                };
                if now { Some(c) } else { None }
            }
        }
    }

    /// The phase that goes Yellow in the ring.
    #[inline(always)]
    fn ending(
        &self,
        plan: &Checked,
        conditions: &RingConditions,
        found: &RingChoice,
        outcome: &CrossingOutcome,
    ) -> Option<Phase>
        requires found { IsFound (checked_plan plan.now) (state_of self.now) (given_of (checked_plan plan.now) conditions.now) (ring_numbered found.now.ring) found.now }
        requires outcome { IsOutcome (checked_plan plan.now) (state_of self.now) (given_of (checked_plan plan.now) conditions.now) (ring_numbered found.now.ring) outcome.now }
        ensures { result ≡ if_passes (λ p. is_green (interval_of conditions.now.intervals p) && ends (checked_plan plan.now) (state_of self.now) (given_of (checked_plan plan.now) conditions.now) p) (serving (checked_plan plan.now) (given_of (checked_plan plan.now) conditions.now) (ring_numbered found.now.ring)) }
    {
        match found.own {
            None => None,
            Some(p) => filtered(p, does_end(conditions, p, found, outcome)),
        }
    }

    /// The phase that goes Red in the ring, by what it commits to and starts.
    #[inline(always)]
    #[tactic(auto, unfolding(crate::specs::Next::clears), using(crate::proofs::OwnLemmas::own_serving))]
    fn clearing(
        &self,
        plan: &Checked,
        conditions: &RingConditions,
        found: &RingChoice,
        is_bound: bool,
        is_starting: bool,
    ) -> Option<Phase>
        requires found { IsFound (checked_plan plan.now) (state_of self.now) (given_of (checked_plan plan.now) conditions.now) (ring_numbered found.now.ring) found.now }
        requires bound { is_bound ≡ is_some (committed (checked_plan plan.now) (state_of self.now) (given_of (checked_plan plan.now) conditions.now) (ring_numbered found.now.ring)) }
        requires starts { is_starting ≡ is_some (starting (checked_plan plan.now) (state_of self.now) (given_of (checked_plan plan.now) conditions.now) (ring_numbered found.now.ring)) }
        ensures { result ≡ if_passes (clears (checked_plan plan.now) (state_of self.now) (given_of (checked_plan plan.now) conditions.now)) (serving (checked_plan plan.now) (given_of (checked_plan plan.now) conditions.now) (ring_numbered found.now.ring)) }
    {
        match found.own {
            None => None,
            Some(p) => filtered(
                p,
                conditions.timing.over.contains(p) && (!is_bound || is_starting),
            ),
        }
    }

    /// What the ring does.
    #[inline(always)]
    pub(crate) fn ring_moves(
        &self,
        plan: &Checked,
        conditions: &RingConditions,
        found: &RingChoice,
        outcome: &CrossingOutcome,
    ) -> RingMoves
        requires by { IsBy (cells_of self.now) }
        requires found { IsFound (checked_plan plan.now) (state_of self.now) (given_of (checked_plan plan.now) conditions.now) (ring_numbered found.now.ring) found.now }
        requires outcome { IsOutcome (checked_plan plan.now) (state_of self.now) (given_of (checked_plan plan.now) conditions.now) (ring_numbered found.now.ring) outcome.now }
        ensures { result ≡ ring_moves (checked_plan plan.now) (state_of self.now) (given_of (checked_plan plan.now) conditions.now) (ring_numbered found.now.ring) }
    {
        let commits = self.committed(plan, conditions, found, outcome);
        let starts = self.starting(plan, conditions, found, outcome);
        let clears = self.clearing(plan, conditions, found, commits.is_some(), starts.is_some());
        RingMoves {
            ends: self.ending(plan, conditions, found, outcome),
            clears,
            starts,
            commits: if self.commitment(found.ring).is_some() {
                None
            } else {
                commits
            },
        }
    }
}
