//! The devices of a program.
use std::io::{Read, Write};
use std::marker::Model;
use tsb_lines::Watched;

/// The devices of a program. A clause sees of each what its calls show (`Seen`).
#[derive(Drop)]
pub struct Streams<R: Read, W: Write, E: Write> {
    /// The device that the program reads.
    pub input: Watched<R>,
    /// The device that its answers go to.
    pub output: Watched<W>,
    /// The device that faults go to.
    pub errors: Watched<E>,
}

impl<R: Read, W: Write, E: Write> Model for Streams<R, W, E> {
    ghost use Rattle.tsb_lines.specs.Seen.{seen};
    ghost use Rattle.tsb_program.specs.Devices.{Devices};

    ghost Value = { Devices };

    ghost view = { λ streams. record {
      input = seen R.remaining streams.input;
      output = seen W.contents streams.output;
      errors = seen E.contents streams.errors;
    } };
}
