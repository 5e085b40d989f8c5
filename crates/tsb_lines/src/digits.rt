//! Numbers as decimal digits.
ghost use Rattle.std.specs.Prelude.{◌≡◌, ◌<◌};
ghost use Rattle.tsb_lines.specs.Digits.{digit, seven_digits};

/// The digit of a number at this power of ten, as a byte.
#[inline(always)]
pub fn digit(number: u32, unit: u32) -> u8
    requires { 0 < unit }
    ensures { result ≡ digit number unit }
{
    b'0' + (number / unit % 10) as u8
}

/// The last 7 digits of a number, with zeros before one that has fewer: lines write the number of a tick so.
#[inline(always)]
pub fn seven_digits(number: u32) -> [u8; 7]
    ensures { result ≡ seven_digits number }
{
    [
        digit(number, 1_000_000),
        digit(number, 100_000),
        digit(number, 10_000),
        digit(number, 1_000),
        digit(number, 100),
        digit(number, 10),
        digit(number, 1),
    ]
}
