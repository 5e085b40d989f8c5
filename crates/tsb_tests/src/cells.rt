//! Cells: what changed in them, values and timers that are kept in them.
ghost use Rattle.std.specs.Prelude.{ℕ, List, [], ◌∷◌, slice_index};
ghost use Rattle.tsb_cells.specs.Timer.{IsWithin, timer_cell, timer_at};

use arrayvec::ArrayVec;
use tsb_cells::{Bank, Layout, Reversible, Timer, abandon};

/// Two cells: a count, and since when there is a presence.
#[derive(Clone, Copy, PartialEq, Eq)]
struct Reading {
    count: u32,
    presence: Timer,
}

impl Layout<2> for Reading {
    ghost use Rattle.std.specs.Prelude.{refl};
    ghost use Rattle.std.proofs.Common.{ap};
    ghost use Rattle.tsb_cells.specs.TimerLaws.{timer_at-timer_cell};
    ghost use Rattle.tsb_tests.specs.declared.cells.Reading.{Reading};
    ghost use Rattle.tsb_cells.specs.declared.timer.Timer.{Timer as TimerValue};

    ghost cells = { λ now value. value.count ∷ timer_cell now value.presence ∷ [] };

    ghost of = { λ now row. record { count = slice_index row 0; presence = timer_at now (slice_index row 1) } };

    ghost IsBy = { λ now value. IsWithin now value.presence };

    ghost of_its_cells = { λ now value within. ap
        (λ (x : TimerValue). let read : Reading = record { count = value.count; presence = x } in read)
        (timer_at-timer_cell now value.presence within) };

    ghost length_cells = { λ now value. refl };

    fn of_cells(now: u32, row: &[u32; 2]) -> Reading {
        let [count, presence] = *row;
        Reading {
            count,
            presence: Timer::at(now, presence),
        }
    }

    fn cells(self, now: u32) -> [u32; 2] {
        [self.count, self.presence.cell(now)]
    }
}

/// Whether the bank holds these values.
fn holds(bank: &Bank<4>, values: [u32; 4]) -> bool {
    bank.row::<4>(0) == values
}

#[test]
#[tactic(auto, using(tsb_cells::proofs::DiffLemmas::lengths))]
fn changes_are_given_and_taken_back(rt: HostRuntime) {
    let mut bank = Bank::<4>::new();
    bank.open();
    bank.put_row(1, [5, 6]);
    let _ = bank.close();

    bank.open();
    bank.put(3, 9);
    bank.put(1, 7);
    bank.put(2, 8);
    bank.put(2, 6);
    let changes = bank.close();
    let changed = holds(&bank, [0, 7, 6, 9]);

    bank.undo(changes.as_slice());
    let undone = holds(&bank, [0, 5, 6, 0]) && bank.get(1) == 5;

    bank.open();
    bank.put(0, 1);
    abandon(&mut bank);
    assert!(rt; changed && undone && holds(&bank, [0, 5, 6, 0]));
    assert!(rt; changes.as_slice() == [(1, 5), (3, 0)].as_slice());
}

#[test]
fn values_are_kept_in_cells(rt: HostRuntime) {
    let mut bank = Bank::<6>::new();
    let reading = Reading {
        count: 3,
        presence: Timer::Off.started(),
    };
    bank.open();
    bank.store(100, 2, reading);
    assert!(rt; bank.row::<6>(0) == [0, 0, 3, 101, 0, 0]);
    let later = Reading {
        count: 3,
        presence: Timer::On(20),
    };
    assert!(rt; bank.load::<2, Reading>(120, 2) == later);
    assert!(rt; bank.load::<2, Reading>(120, 4).presence == Timer::Off);
}

/// Whether a timer that is on returns for how long.
fn tells_how_long(timer: Timer) -> bool {
    timer == Timer::On(20)
        && timer.started() == Timer::On(20)
        && timer.is_on()
        && timer.has_reached(20)
        && !timer.has_reached(21)
        && timer.is_below(21)
        && !timer.is_below(20)
}

/// Whether a timer that is off returns nothing.
fn tells_nothing(timer: Timer) -> bool {
    !timer.is_on() && !timer.has_reached(0) && !timer.is_below(1)
}

#[test]
fn timers_are_read(rt: HostRuntime) {
    assert!(rt; tells_how_long(Timer::On(19).advanced()) && tells_nothing(Timer::Off));
}

#[test]
fn layers_share_one_numbering(rt: HostRuntime) {
    let mut first = Bank::<2>::new();
    let mut second = Bank::<3>::new();
    first.open();
    second.open();
    first.put(1, 4);
    second.put(0, 5);
    second.put(2, 6);
    let mut all = ArrayVec::<(u16, u32), 5>::new();
    first.close_onto(&mut all, 0);
    second.close_onto(&mut all, 2);
    assert!(rt; all.as_slice() == [(1, 0), (2, 0), (4, 0)].as_slice());
}
