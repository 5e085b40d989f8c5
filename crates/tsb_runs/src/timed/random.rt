//! Random numbers that are the same in each run.
ghost use Rattle.std.specs.Prelude.{◌<◌};

/// A source of numbers: xorshift64*.
#[derive(Clone, Copy)]
pub struct Random {
    state: u64,
}

impl Random {
    /// The source of this number.
    pub fn new(number: u32) -> Random {
        Random {
            state: 0x9e37_79b9_7f4a_7c15 ^ u64::from(number),
        }
    }

    fn next(&mut self) -> u64 {
        self.state ^= self.state << 13;
        self.state ^= self.state >> 7;
        self.state ^= self.state << 17;
        self.state.wrapping_mul(0x2545_f491_4f6c_dd1d) >> 11
    }

    /// The next number, which is below `most`.
    pub fn below(&mut self, most: u32) -> u32
        requires { 0 < most }
        ensures { result < most }
    {
        (self.next() % u64::from(most)) as u32
    }
}
