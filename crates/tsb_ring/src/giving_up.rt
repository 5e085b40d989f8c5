//! What the rings give up under a preempt that chooses anew.
ghost use Rattle.std.specs.Prelude.{◌≡◌, true, is_some};
ghost use Rattle.tsb_objects.specs.Checked.{checked_plan};
ghost use Rattle.tsb_types.specs.Sets.{has};
ghost use Rattle.tsb_ring.specs.Cells.{IsBy};
ghost use Rattle.tsb_ring.specs.GivenUp.{strays, some_strays, kept_commitment, without_strays};
ghost use Rattle.tsb_ring.specs.Layer.{cells_of, kept_of, is_open, state_of};
ghost use Rattle.tsb_ring.specs.Promises.{IsGivenUp};
ghost use Rattle.tsb_ring.specs.Rings.{ring_numbered};

use crate::crossing::{ring_1, ring_2};
use crate::ring_state::RingState;
use crate::rings::Rings;
use crate::serving::targeted;
use tsb_objects::{Checked, Phase, PhaseSet, Ring};

/// Whether a commitment is to a phase outside the set.
#[inline(always)]
fn strays(set: PhaseSet, commitment: Option<Phase>) -> bool
    ensures { result ≡ strays (has set) commitment }
{
    match commitment {
        None => false,
        Some(c) => !set.contains(c),
    }
}

/// What is left of a commitment where a ring's strays: one that does not, unless a crossing is under way.
#[inline(always)]
fn kept_commitment(set: PhaseSet, crosses: bool, commitment: Option<Phase>) -> Option<Phase>
    ensures { result ≡ kept_commitment (has set) crosses commitment }
{
    match commitment {
        None => None,
        Some(c) => {
            if crosses || !set.contains(c) {
                None
            } else {
                Some(c)
            }
        }
    }
}

impl Rings {
    /// Gives up what the rings are committed to outside the target of a preempt, in use or not, and with it a crossing
    /// that is under way (profile). A ring that clears goes on to do so, and is then asked what it wants.
    #[inline(never)]
    #[tactic(auto, unfolding(crate::specs::GivenUp::given_up))]
    pub fn give_up(&mut self, target: PhaseSet, plan: &Checked)
        requires opened { is_open self.old ≡ true }
        requires by { IsBy (cells_of self.old) }
        ensures state { IsGivenUp (checked_plan plan.now) (has target) (cells_of self.old) (cells_of self.new) }
        ensures by { IsBy (cells_of self.new) }
        ensures kept { kept_of self.new ≡ kept_of self.old }
        ensures opened { is_open self.new ≡ true }
    {
        let set = targeted(plan, target);
        if self.some_strays(set) {
            self.drop_strays(set);
        }
    }

    /// Whether a ring is committed to a phase outside the set.
    #[inline(always)]
    fn some_strays(&self, set: PhaseSet) -> bool
        requires by { IsBy (cells_of self.now) }
        ensures { result ≡ some_strays (has set) (state_of self.now) }
    {
        strays(set, self.commitment(ring_1())) || strays(set, self.commitment(ring_2()))
    }

    /// What is left of a ring: its last phase, and of its commitment what does not stray.
    #[inline(always)]
    fn kept(&self, set: PhaseSet, r: Ring) -> RingState
        requires by { IsBy (cells_of self.now) }
        ensures last { result.last ≡ (state_of self.now).last (ring_numbered r) }
        ensures commitment { result.commitment ≡ kept_commitment (has set) (is_some (state_of self.now).crossing) ((state_of self.now).commitment (ring_numbered r)) }
    {
        RingState {
            last: self.last(r),
            commitment: kept_commitment(set, self.crossing().is_some(), self.commitment(r)),
        }
    }

    /// Takes away the commitments to phases outside the set, and the crossing with all that it committed the rings to.
    #[inline(never)]
    fn drop_strays(&mut self, set: PhaseSet)
        requires opened { is_open self.old ≡ true }
        requires by { IsBy (cells_of self.old) }
        ensures state { state_of self.new ≡ without_strays (has set) (state_of self.old) }
        ensures by { IsBy (cells_of self.new) }
        ensures kept { kept_of self.new ≡ kept_of self.old }
        ensures opened { is_open self.new ≡ true }
    {
        let first = self.kept(set, ring_1());
        let second = self.kept(set, ring_2());
        self.write(first, second, self.side(), None);
    }
}
