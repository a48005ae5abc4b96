//! A sink in memory.
//!
//! Writes of at least one byte are counted from 0. The write whose number is listed fails and adds nothing; every other
//! write adds its whole piece. A write for which memory runs out is not counted and changes nothing.
ghost use Rattle.std.specs.Prelude.{◌≡◌, ◌≤◌, ◌<◌, ◌↔◌, [], Some, OnOk, length};
ghost use Rattle.px_outside.specs.Count.{Rose};
ghost use Rattle.px_outside.specs.Sink.{Writes, WritesPart};
ghost use Rattle.px_outside.specs.VecSink.{WriteFails, after_write, after_fault};

use crate::plan::FaultPlan;
use crate::{Sink, SinkError};
use std::alloc::Global;
use std::marker::Model;

/// A sink that keeps what is written, and fails at the writes that it is told to.
#[derive(Debug, Drop)]
pub struct VecSink {
    written: Vec<u8>,
    writes: FaultPlan,
    faults: u64,
}

impl Model for VecSink {
    ghost use Rattle.px_outside.specs.VecSink.{SinkState};

    ghost Value = { SinkState };

    ghost view = { λ s. record { written = s.written.items; writes = s.writes; faults = s.faults } };
}

impl VecSink {
    /// A sink in which nothing is written. The writes of these numbers fail.
    pub fn new(alloc: Global, fails: Vec<u64>) -> VecSink
        ensures { result ≡ record { written = []; writes = record { count = 0; fails = fails.items }; faults = 0 } }
    {
        VecSink {
            written: Vec::new(alloc),
            writes: FaultPlan::new(fails),
            faults: 0,
        }
    }

    /// All that is written.
    pub fn written(&self) -> &[u8]
        ensures { result.now ≡ self.now.written }
    {
        self.written.as_slice()
    }
}

impl Sink for VecSink {
    ghost written = { λ s. Some s.written };

    ghost faults = { λ s. s.faults };

    fn write(&mut self, bytes: &[u8]) -> Result<(), SinkError>
        ensures ok { OnOk result (Writes bytes.now (Some self.old.written) (Some self.new.written)) }
        ensures part { result ≡ Err SinkError.Failed → WritesPart bytes.now (Some self.old.written) (Some self.new.written) }
        ensures no_memory { result ≡ Err SinkError.NoMemory → Some self.new.written ≡ Some self.old.written }
        ensures later { self.old.faults ≤ self.new.faults }
        ensures failed { result ≡ Err SinkError.Failed → Rose self.old.faults self.new.faults }
        ensures not_empty { result ≡ Err SinkError.Failed → 0 < length bytes.now }

        // Which writes fail, and what each answer leaves.
        ensures listed { (result ≡ Err SinkError.Failed) ↔ WriteFails self.old bytes.now }
        ensures after_ok { OnOk result (self.new ≡ after_write self.old bytes.now) }
        ensures after_failed { result ≡ Err SinkError.Failed → self.new ≡ after_fault self.old }
        ensures after_no_memory { result ≡ Err SinkError.NoMemory → self.new ≡ self.old }
    {
        if bytes.is_empty() {
            return Ok(());
        }
        if self.writes.fails_next() {
            self.writes.count_call();
            self.faults = self.faults.saturating_add(1);
            return Err(SinkError::Failed);
        }
        if self.written.extend_from_slice(bytes).is_err() {
            return Err(SinkError::NoMemory);
        }
        self.writes.count_call();
        Ok(())
    }
}
