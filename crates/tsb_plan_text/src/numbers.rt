//! Numbers in plan texts.
ghost use Rattle.std.specs.Prelude.{◌≡◌, ◌^◌, ℕ, ◌≤◌, ◌<◌, ◌≢◌, ◌↔◌, slice_index, IsTrue, MatchOption};
ghost use Rattle.std.specs.Fmt.{decimal};
ghost use Rattle.serde_json.specs.View.{view};
ghost use Rattle.tsb_plan.specs.declared.version.Version.{Version};
ghost use Rattle.tsb_plan_text.specs.PlanText.{whole_number, version_numbered};

use serde_json::Value;
use tsb_objects::Version;

/// The number over 0 whose decimal text this is, without leading zeros.
pub(crate) fn read_index(text: &str) -> Option<u32>
    ensures { MatchOption result
        ((i : ℕ) → 1 ≤ i → i < 2 ^ 32 → decimal i ≢ text.now)
        (λ i. (1 ≤ i) × (i < 2 ^ 32) × (decimal i ≡ text.now)) }
{
    if !starts_with_digit_over_0(text) {
        return None;
    }
    text.parse().ok()
}

/// Whether the text starts with one of the digits 1 to 9.
fn starts_with_digit_over_0(text: &str) -> bool
    ensures { IsTrue result ↔ ((49 ≤ slice_index text.now 0) × (slice_index text.now 0 ≤ 57)) }
{
    matches!(text.as_bytes().first(), Some(b'1'..=b'9'))
}

/// The value as a whole number of 32 bits.
pub(crate) fn read_number(value: &Value) -> Option<u32>
    ensures { result ≡ whole_number (view value.now) }
{
    let number = value.as_u64()?;
    u32::try_from(number).ok()
}

/// The version of this number.
pub(crate) fn version_of(number: u64) -> Option<Version>
    ensures { result ≡ version_numbered number }
{
    match number {
        1 => Some(Version::One),
        2 => Some(Version::Two),
        3 => Some(Version::Three),
        _ => None,
    }
}
