//! Lines that are counted as they are written, and not kept.

use std::io::{self, Write};

/// How many lines and bytes were written, and the sum of the bytes.
#[derive(Clone, Copy)]
pub struct Counted {
    /// How many line feeds there were.
    pub lines: u32,
    /// How many bytes there were.
    pub bytes: u64,
    /// The sum of the bytes.
    pub sum: u32,
}

impl Counted {
    /// The counts before anything is written.
    pub fn none() -> Counted {
        Counted {
            lines: 0,
            bytes: 0,
            sum: 0,
        }
    }
}

impl Write for Counted {
    fn write(&mut self, bytes: &[u8]) -> io::Result<usize> {
        let mut lines = 0u32;
        let mut sum = 0u32;
        for byte in bytes {
            lines = lines.wrapping_add(u32::from(*byte == b'\n'));
            sum = sum.wrapping_add(u32::from(*byte));
        }
        self.lines = self.lines.wrapping_add(lines);
        self.sum = self.sum.wrapping_add(sum);
        self.bytes = self.bytes.wrapping_add(bytes.len() as u64);
        Ok(bytes.len())
    }

    fn flush(&mut self) -> io::Result<()> {
        Ok(())
    }
}
