//! A sink.
ghost use Rattle.std.specs.Prelude.{◌≡◌, ◌≤◌, ◌<◌, ℕ, List, Option, OnOk, length};
ghost use Rattle.px_outside.specs.Count.{Rose};
ghost use Rattle.px_outside.specs.Sink.{Writes, WritesPart};

/// Why a piece was not written.
#[derive(Clone, Copy, Debug, PartialEq, Eq)]
pub enum SinkError {
    /// The sink failed; a prefix of the piece may be written.
    Failed,
    /// Memory ran out; nothing of the piece is written.
    NoMemory,
}

/// Where lines are printed.
pub trait Sink {
    /// The bytes written, where the sink tells them.
    ghost written: { Self → Option (List ℕ) };

    /// How often a write failed.
    ghost faults: { Self → ℕ };

    /// Writes the whole piece. A write of no bytes never fails.
    fn write(&mut self, bytes: &[u8]) -> Result<(), SinkError>
        ensures ok { OnOk result (Writes bytes.now (written self.old) (written self.new)) }
        ensures part { result ≡ Err SinkError.Failed → WritesPart bytes.now (written self.old) (written self.new) }
        ensures no_memory { result ≡ Err SinkError.NoMemory → written self.new ≡ written self.old }
        ensures later { faults self.old ≤ faults self.new }
        ensures failed { result ≡ Err SinkError.Failed → Rose (faults self.old) (faults self.new) }
        ensures not_empty { result ≡ Err SinkError.Failed → 0 < length bytes.now };
}
