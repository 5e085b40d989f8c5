//! The fields of a display line that are numbers.
ghost use Rattle.std.specs.Prelude.{◌≡◌, ◌≤◌, IfSome};
ghost use Rattle.tsb_display_text.specs.Line.{preempt_digit, local_field};

use tsb_lines::digit;
use tsb_types::Preempt;

/// The number of the preempt in service, or 0.
#[inline(always)]
pub(crate) fn preempt_digit(preempt: Option<Preempt>) -> u8
    ensures digit { result ≡ preempt_digit preempt }
    ensures known { IfSome preempt (λ n. n ≤ 8) }
{
    match preempt {
        Some(n) => b'0' + n.number(),
        None => b'0',
    }
}

/// The local counter in 4 digits, or dashes.
#[inline(always)]
pub(crate) fn local_digits(local: Option<u32>) -> [u8; 4]
    ensures { result ≡ local_field local }
{
    match local {
        Some(n) => [digit(n, 1_000), digit(n, 100), digit(n, 10), digit(n, 1)],
        None => *b"----",
    }
}
