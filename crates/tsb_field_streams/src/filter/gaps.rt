//! When rows count, and times in which none does.
ghost use Rattle.std.specs.Prelude.{◌≡◌, ◌==◌, if◌then◌else◌};
ghost use Rattle.tsb_field_streams.specs.Filtering.{gaps_before, with_gap};

/// Times of a minute or more in which no row counts. A count stays at 4,294,967,295 once it has come to it.
#[derive(Clone, Copy, PartialEq, Eq)]
pub struct Gaps {
    /// How many there are between rows that count.
    pub count: u32,
    /// The moment of the row before the longest, in nanoseconds as a `Moment` counts them; of several as long, the first
    /// is the longest. 0 where there is none.
    pub begin: u128,
    /// The moment of the row after it, in nanoseconds as well.
    pub end: u128,
}

/// How long a gap is at least, in nanoseconds: a minute.
const GAP: u128 = 60_000_000_000;

/// No gap.
pub(super) const NO_GAPS: Gaps = Gaps {
    count: 0,
    begin: 0,
    end: 0,
};

/// The moment of the first row that counts, where so many counted before one of this moment, and this was the first.
pub(super) fn first_moment(counted: u32, first: u128, moment: u128) -> u128
    ensures { result ≡ (if counted == 0 then moment else first) }
{
    if counted == 0 { moment } else { first }
}

/// Gaps up to a row of this moment, where so many counted, with these gaps, and the last of them was of that moment.
pub(super) fn gaps_before(counted: u32, gaps: Gaps, last: u128, moment: u128) -> Gaps
    ensures { result ≡ gaps_before counted gaps last moment }
{
    if counted == 0 {
        gaps
    } else {
        with_gap(gaps, last, moment)
    }
}

/// Gaps, and a time without a row that counts, between these moments.
fn with_gap(gaps: Gaps, begin: u128, end: u128) -> Gaps
    ensures { result ≡ with_gap gaps begin end }
{
    let length = end.saturating_sub(begin);
    if length < GAP {
        return gaps;
    }
    let count = gaps.count.saturating_add(1);
    if gaps.end.saturating_sub(gaps.begin) < length {
        Gaps { count, begin, end }
    } else {
        Gaps { count, ..gaps }
    }
}
