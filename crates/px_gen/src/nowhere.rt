//! A sink that drops what is written.
ghost use Rattle.std.specs.Prelude.{None};

use px_outside::{Sink, SinkError};

/// A sink that drops what is written. It never fails, and tells nothing.
#[derive(Clone, Copy, Debug)]
pub struct Nowhere;

impl Sink for Nowhere {
    ghost written = { λ _. None };

    ghost faults = { λ _. 0 };

    fn write(&mut self, _bytes: &[u8]) -> Result<(), SinkError> {
        Ok(())
    }
}
