//! The files of a run.
use crate::named::Named;
use crate::system_files::SystemFiles;
use px_outside::{FileError, Files};
use std::rt::Files as HostFiles;

/// Reads and appends to files of the system. It tells neither their contents nor its calls.
#[derive(Drop)]
pub struct RealFiles<R: HostFiles + AllocGlobal + Eprint + Drop> {
    system: SystemFiles<R>,
    misses: u64,
    faults: u64,
    losses: u64,
}

impl<R: HostFiles + AllocGlobal + Eprint + Drop> RealFiles<R> {
    /// The files that this runtime reaches, and the one that the words name.
    pub fn new(rt: R, named: Named) -> RealFiles<R> {
        RealFiles {
            system: SystemFiles::new(rt, named),
            misses: 0,
            faults: 0,
            losses: 0,
        }
    }

    /// The files of the system, for what people are told of them.
    pub fn system(&self) -> &SystemFiles<R> {
        &self.system
    }
}

impl<R: HostFiles + AllocGlobal + Eprint + Drop> Files for RealFiles<R> {
    ghost use Rattle.std.specs.Prelude.{None};

    ghost contents = { λ _. None };

    ghost calls = { λ _. None };

    ghost misses = { λ f. f.misses };

    ghost faults = { λ f. f.faults };

    ghost losses = { λ f. f.losses };

    fn read(&mut self, path: &str) -> Result<Vec<u8>, FileError> {
        match self.system.read(path) {
            Ok(bytes) => Ok(bytes),
            Err(FileError::NoMemory) => Err(FileError::NoMemory),
            Err(FileError::Absent) => {
                self.misses = self.misses.saturating_add(1);
                Err(FileError::Absent)
            }
            Err(FileError::Failed) => {
                self.faults = self.faults.saturating_add(1);
                Err(FileError::Failed)
            }
        }
    }

    fn append(&mut self, path: &str, bytes: &[u8]) -> Result<(), FileError> {
        if bytes.is_empty() {
            return Ok(());
        }
        match self.system.append(path, bytes) {
            Ok(()) => Ok(()),
            Err(FileError::NoMemory) => Err(FileError::NoMemory),
            Err(FileError::Absent | FileError::Failed) => {
                self.losses = self.losses.saturating_add(1);
                Err(FileError::Failed)
            }
        }
    }
}
