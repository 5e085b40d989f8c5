//! One ring, taken out of its cell to act.
ghost use Rattle.std.specs.Prelude.{◌≡◌, None};
ghost use Rattle.tsb_ring.specs.Layer.{ring_after};
ghost use Rattle.tsb_ring.specs.Moves.{commitment_after, last_after, moves_of};
ghost use Rattle.tsb_ring.specs.Rings.{ring_numbered};

use crate::crossing::or_else;
use tsb_objects::{Moves, Phase, Ring, RingMoves};

/// What one ring keeps from tick to tick.
#[derive(Clone, Copy)]
pub(crate) struct RingState {
    /// The phase that it started last.
    pub last: Option<Phase>,
    /// The phase that it starts next.
    pub commitment: Option<Phase>,
}

/// What one ring does in the tick.
#[inline(always)]
fn moves_of(moves: &Moves, r: Ring) -> &RingMoves
    ensures { result.now ≡ moves_of moves.now (ring_numbered r) }
{
    if r.number() == 1 {
        &moves.first
    } else {
        &moves.second
    }
}

impl RingState {
    /// A ring that started no phase, and that is committed to none.
    #[inline(always)]
    pub(crate) fn new() -> RingState
        ensures last { result.last ≡ None }
        ensures commitment { result.commitment ≡ None }
    {
        RingState {
            last: None,
            commitment: None,
        }
    }

    /// The ring acts on the moves of a tick. It has them, which the other ring reads as well, and its own state alone.
    #[inline(always)]
    pub(crate) fn act(&mut self, moves: &Moves, r: Ring)
        ensures { self.new ≡ ring_after (moves_of moves.now (ring_numbered r)) moves.now.completes self.old }
    {
        let own = moves_of(moves, r);
        let last = self.last_after(own, moves.completes);
        let commitment = self.commitment_after(own);
        self.last = last;
        self.commitment = commitment;
    }

    /// Its last phase after its moves.
    #[inline(always)]
    fn last_after(&self, own: &RingMoves, completed: bool) -> Option<Phase>
        ensures { result ≡ last_after own.now completed self.now.commitment self.now.last }
    {
        let before = if completed && self.commitment.is_none() {
            None
        } else {
            self.last
        };
        or_else(own.starts, before)
    }

    /// Its commitment after its moves.
    #[inline(always)]
    fn commitment_after(&self, own: &RingMoves) -> Option<Phase>
        ensures { result ≡ commitment_after own.now self.now.commitment }
    {
        if own.starts.is_some() {
            None
        } else {
            or_else(own.commits, self.commitment)
        }
    }
}
