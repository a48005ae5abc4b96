//! Standard output and standard error as sinks.
ghost use Rattle.std.specs.Prelude.{◌≤◌, IfOk, length};

use crate::telling::tell_end;
use px_outside::{Sink, SinkError};
use std::io::{self, ErrorKind};
use std::thread;
use std::time::{Clock, Duration};

// So many milliseconds a stream that takes nothing at present is left alone.
const WAIT: u64 = 5;

// So often a stream is asked again beside once for each byte, where it was interrupted or took nothing.
const AGAIN: usize = 1 << 40;

/// Writes to a stream of the system: standard output for a runtime, standard error for its `stderr()`. One that takes nothing at present is
/// waited for. It tells nothing of what was written.
#[derive(Drop)]
pub struct StdSink<R: Print + Drop, H: Clock + Eprint + Drop> {
    stream: R,
    host: H,
    // What people are told at the first failure.
    name: Option<&'static str>,
    faults: u64,
}

impl<R: Print + Drop, H: Clock + Eprint + Drop> StdSink<R, H> {
    /// A sink over this stream. Where it has a name, standard error is told of its first failure by that.
    pub fn new(stream: R, host: H, name: Option<&'static str>) -> StdSink<R, H> {
        StdSink {
            stream,
            host,
            name,
            faults: 0,
        }
    }

    // Writes all bytes, and waits where the stream takes none at present.
    fn put(&self, bytes: &[u8]) -> io::Result<()> {
        let mut done = 0;
        let tries = 0..bytes.len().saturating_add(AGAIN);
        for _ in tries {
            if done >= bytes.len() {
                return Ok(());
            }
            done += self.put_some(&bytes[done..])?;
        }
        Err(io::Error::from(ErrorKind::WriteZero))
    }

    // Writes some of the bytes; none where the stream takes none at present, which waits a moment.
    fn put_some(&self, bytes: &[u8]) -> io::Result<usize>
        ensures within { IfOk result (λ count. count ≤ length bytes.now) }
    {
        match self.stream.write_some(bytes) {
            Ok(0) => Err(io::Error::from(ErrorKind::WriteZero)),
            Ok(count) => Ok(count),
            Err(error) => match error.kind() {
                ErrorKind::Interrupted => Ok(0),
                ErrorKind::WouldBlock => {
                    thread::sleep(&self.host, Duration::from_millis(WAIT));
                    Ok(0)
                }
                _ => Err(error),
            },
        }
    }
}

impl<R: Print + Drop, H: Clock + Eprint + Drop> Sink for StdSink<R, H> {
    ghost use Rattle.std.specs.Prelude.{None};

    ghost written = { λ _. None };

    ghost faults = { λ s. s.faults };

    fn write(&mut self, bytes: &[u8]) -> Result<(), SinkError> {
        if bytes.is_empty() {
            return Ok(());
        }
        match self.put(bytes) {
            Ok(()) => Ok(()),
            Err(error) => {
                self.faults = self.faults.saturating_add(1);
                if let Some(name) = self.name.take() {
                    tell_end(&self.host, name, &error);
                }
                Err(SinkError::Failed)
            }
        }
    }
}
