//! Lists in the cells of a bank, as sets.
ghost use Rattle.std.specs.Prelude.{◌≡◌, ◌≢◌, ℕ, ◌+◌, ◌<◌, true, slice_index};
ghost use Rattle.tsb_cells.specs.Bank.{cells_of, kept_of, is_open};
ghost use Rattle.tsb_types.specs.Sets.{has, has_detector, has_number, names, list_in, wide_list_in};
ghost use Rattle.tsb_cells.specs.Lists.{Elsewhere, ElsewhereThan};

use crate::bank::Bank;
use tsb_types::{DetectorSet, NumberSet, PhaseSet};

/// How many lists there are of 16 numbers.
const LISTS: u32 = 65_536;

/// The numbers in the list of the cell `k`.
#[inline(always)]
pub fn list<const N: usize>(bank: &Bank<N>, k: usize) -> NumberSet
    requires { k < N }
    ensures { (n : ℕ) → has_number result n ≡ names (list_in (cells_of bank.now) k) n }
{
    NumberSet::from_list((bank.get(k) % LISTS) as u16)
}

/// The phases in the list of the cell `k`.
#[inline(always)]
pub fn phases<const N: usize>(bank: &Bank<N>, k: usize) -> PhaseSet
    requires { k < N }
    ensures { (p : ℕ) → has result p ≡ names (list_in (cells_of bank.now) k) p }
{
    PhaseSet::from_list((bank.get(k) % LISTS) as u16)
}

/// Puts the list of a set into the cell `k`. The bank has to be open.
#[inline(always)]
pub fn put_list<const N: usize>(bank: &mut Bank<N>, k: usize, set: NumberSet)
    requires in_range { k < N }
    requires opened { is_open bank.old ≡ true }
    ensures told { (n : ℕ) → names (list_in (cells_of bank.new) k) n ≡ has_number set n }
    ensures small { slice_index (cells_of bank.new) k < 65536 }
    ensures others { Elsewhere k (cells_of bank.old) (cells_of bank.new) }
    ensures kept { kept_of bank.new ≡ kept_of bank.old }
    ensures opened { is_open bank.new ≡ true }
{
    bank.put(k, u32::from(set.list()));
}

/// Puts the list of a set of phases into the cell `k`. The bank has to be open.
#[inline(always)]
pub fn put_phases<const N: usize>(bank: &mut Bank<N>, k: usize, set: PhaseSet)
    requires in_range { k < N }
    requires opened { is_open bank.old ≡ true }
    ensures told { (p : ℕ) → names (list_in (cells_of bank.new) k) p ≡ has set p }
    ensures small { slice_index (cells_of bank.new) k < 65536 }
    ensures others { Elsewhere k (cells_of bank.old) (cells_of bank.new) }
    ensures kept { kept_of bank.new ≡ kept_of bank.old }
    ensures opened { is_open bank.new ≡ true }
{
    put_list(bank, k, NumberSet::from_list(set.list()));
}

/// How many lists there are of 32 numbers.
const HALF: u64 = 4_294_967_296;

/// The detectors in the list of the cells `k` and `k + 1`. The first has its lower 32 bits.
#[inline(always)]
pub fn detectors<const N: usize>(bank: &Bank<N>, k: usize) -> DetectorSet
    requires { k + 1 < N }
    ensures { (d : ℕ) → has_detector result d ≡ names (wide_list_in (cells_of bank.now) k) d }
{
    let low = u64::from(bank.get(k));
    let high = u64::from(bank.get(k + 1));
    DetectorSet::from_list(low + HALF * high)
}

/// Puts the list of a set of detectors into the cells `k` and `k + 1`. The bank has to be open.
#[inline(always)]
pub fn put_detectors<const N: usize>(bank: &mut Bank<N>, k: usize, set: DetectorSet)
    requires in_range { k + 1 < N }
    requires opened { is_open bank.old ≡ true }
    ensures told { (d : ℕ) → names (wide_list_in (cells_of bank.new) k) d ≡ has_detector set d }
    ensures low { slice_index (cells_of bank.new) k < 4294967296 }
    ensures high { slice_index (cells_of bank.new) (k + 1) < 4294967296 }
    ensures others { ElsewhereThan k (cells_of bank.old) (cells_of bank.new) }
    ensures kept { kept_of bank.new ≡ kept_of bank.old }
    ensures opened { is_open bank.new ≡ true }
{
    let list = set.list();
    bank.put(k, (list % HALF) as u32);
    bank.put(k + 1, (list / HALF) as u32);
}
