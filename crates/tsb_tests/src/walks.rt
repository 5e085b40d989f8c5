//! Walks within a green, by phase timing alone, worked by hand. Phase 2 of the built-in plan of eight phases starts
//! with a pedestrian call in tick 1: its walk of 4 s ends in tick 41, and its pedestrian clearance of 6 s in tick 101.
ghost use Rattle.std.specs.Prelude.{◌≡◌, ◌<◌, ◌^◌, false};
ghost use Rattle.tsb_phase.specs.Cells.{IsBy};
ghost use Rattle.tsb_phase.specs.Layer.{cells_of, is_open};

use tsb_cells::Reversible;
use tsb_objects::{
    Called, Checked, Orders, Pattern, PedestrianInterval, Phase, PhaseSet, Plan, Preempt, Timing,
};
use tsb_phase::{Conditions, Phases};
use tsb_types::limits;

/// What ticks give phase 2 from a tick on: whether it may walk again within its green, whether it has a pedestrian
/// call, whether a phase waits for it, whether it is forced off, and whether preempt 1 is in service.
#[derive(Clone, Copy)]
struct Given {
    from: u32,
    recycle: bool,
    called: bool,
    conflict: bool,
    forced: bool,
    served: bool,
}

/// A pedestrian call alone, from power-up on.
const CALLED: Given = Given {
    from: 0,
    recycle: false,
    called: true,
    conflict: false,
    forced: false,
    served: false,
};

/// With it phase 2 may walk again.
const RECYCLED: Given = Given {
    recycle: true,
    ..CALLED
};

/// Phase 2, if the test holds.
fn two_if(on: bool) -> PhaseSet {
    if on {
        PhaseSet::from_list(2)
    } else {
        PhaseSet::empty()
    }
}

impl Given {
    /// What the calls say.
    fn called(&self) -> Called {
        Called {
            callable: PhaseSet::empty(),
            conflict: two_if(self.conflict),
            pedestrian: two_if(self.called),
            output: PhaseSet::empty(),
        }
    }

    /// What is asked of phases.
    fn orders(&self) -> Orders {
        Orders {
            hold: two_if(true),
            must_end: PhaseSet::empty(),
            forced: two_if(self.forced),
            recycle: two_if(self.recycle),
            omit: PhaseSet::empty(),
            target: None,
        }
    }

    /// The preempt in service.
    fn service(&self) -> Option<Preempt> {
        if self.served {
            Some(Preempt::of(1))
        } else {
            None
        }
    }
}

/// Phases at a tick, phase 2 Green from tick 1 on.
#[derive(Drop)]
struct Green {
    layer: Phases,
    now: u32,
    ghost by: { IsBy now (cells_of layer) },
    ghost counted: { now < 2 ^ 31 },
    ghost closed: { is_open layer ≡ false },
}

/// Phases as at power-up.
fn at_power_up() -> Phases
    ensures by { IsBy 0 (cells_of result) }
    ensures closed { is_open result ≡ false }
{
    Phases::new()
}

impl Green {
    /// One tick, and what it finds, up to the last tick that there is.
    fn tick(&mut self, given: &Given, plan: &Checked) -> Option<Timing> {
        if self.now >= limits::TICKS {
            return None;
        }
        let now = self.now + 1;
        let conditions = Conditions {
            called: given.called(),
            counts: &[0; 16],
            runs: Some(Pattern::of(1)),
            service: given.service(),
            orders: given.orders(),
        };
        self.layer.open();
        let timing = self.layer.tick(now, &conditions, plan);
        if now == 1 {
            self.layer.start(Phase::of(2), now, &conditions, plan);
        }
        let _changes = self.layer.close();
        self.now = now;
        Some(timing)
    }

    /// The pedestrian part of phase 2.
    fn part(&self) -> PedestrianInterval {
        self.layer.ped(Phase::of(2))
    }
}

/// What tick `now` is given: the last of these that is from it or before.
fn given_at(now: u32, given: &[Given]) -> Given {
    let mut last = CALLED;
    for one in given {
        if one.from <= now {
            last = *one;
        }
    }
    last
}

/// The first two ticks of 250 in which a walk begins within the green, 0 for none; `None` where the tick does not
/// report such a walk, or reports another.
fn walks(given: &[Given]) -> Option<(u32, u32)> {
    let plan = Checked::new(Plan::quad()).ok()?;
    let mut green = Green {
        layer: at_power_up(),
        now: 0,
    };
    let mut found = (0, 0);
    for now in 1..251u32 {
        let was = green.part();
        let timing = green.tick(&given_at(now, given), &plan)?;
        let begins = now > 1 && !is_walk(was) && is_walk(green.part());
        if begins != timing.walks.contains(Phase::of(2)) {
            return None;
        }
        if begins {
            found = with(found, now);
        }
    }
    Some(found)
}

/// Whether it is Walk.
fn is_walk(part: PedestrianInterval) -> bool {
    matches!(part, PedestrianInterval::Walk)
}

/// The two ticks with another, where there is room.
fn with(found: (u32, u32), now: u32) -> (u32, u32) {
    match found {
        (0, _) => (now, 0),
        (first, 0) => (first, now),
        both => both,
    }
}

/// With the order and a call a walk begins a tick after each clearance, and lasts as the first did.
#[test]
fn walks_begin_within_a_green(rt: HostRuntime) {
    assert!(rt; walks(&[RECYCLED]) == Some((102, 203)));
    assert!(rt; walks(&[CALLED]) == Some((0, 0)));
}

/// A call begins it in its own tick, as the order does.
#[test]
fn walks_begin_in_the_tick_of_the_call(rt: HostRuntime) {
    let uncalled = Given {
        from: 2,
        called: false,
        ..RECYCLED
    };
    let called = Given {
        from: 150,
        ..RECYCLED
    };
    assert!(rt; walks(&[CALLED, uncalled]) == Some((0, 0)));
    assert!(rt; walks(&[CALLED, uncalled, called]) == Some((150, 0)));
    assert!(rt; walks(&[CALLED, called]) == Some((150, 0)));
}

/// None begins while a preempt is in service, which may want the phase served.
#[test]
fn no_walk_begins_under_a_preempt(rt: HostRuntime) {
    let served = Given {
        from: 50,
        served: true,
        ..RECYCLED
    };
    let free = Given {
        from: 170,
        ..RECYCLED
    };
    assert!(rt; walks(&[CALLED, served]) == Some((0, 0)));
    assert!(rt; walks(&[CALLED, served, free]) == Some((170, 0)));
}

/// None begins once the phase was forced off for a phase that waits, until that waits no more. A phase that waits and
/// for which it was not forced off holds none back.
#[test]
fn no_walk_begins_where_a_force_off_stands(rt: HostRuntime) {
    let waiting = Given {
        from: 50,
        conflict: true,
        ..RECYCLED
    };
    let forced = Given {
        from: 60,
        recycle: false,
        forced: true,
        ..waiting
    };
    let behind = Given {
        from: 61,
        ..waiting
    };
    let alone = Given {
        from: 180,
        ..RECYCLED
    };
    assert!(rt; walks(&[CALLED, waiting]) == Some((102, 203)));
    assert!(rt; walks(&[CALLED, waiting, forced, behind]) == Some((0, 0)));
    assert!(rt; walks(&[CALLED, waiting, forced, behind, alone]) == Some((180, 0)));
}
