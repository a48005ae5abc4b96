//! Why a file was not read, for people.
use crate::standing::is_absent;
use std::io::{self, ErrorKind};

/// Why a file was not read.
#[derive(Drop)]
pub enum Refusal {
    /// A directory stands there.
    Directory,
    /// A pipe, a socket or a device stands there, whose bytes may have to be waited for.
    NoRegularFile,
    /// It has more bytes than are read.
    TooLarge,
    /// The system refused it.
    System(io::Error),
}

impl Refusal {
    /// Whether nothing that could be a file stands there.
    pub fn is_absence(&self) -> bool {
        match self {
            Refusal::Directory => true,
            Refusal::NoRegularFile | Refusal::TooLarge => false,
            Refusal::System(error) => is_absent(error.kind()),
        }
    }

    /// Whether memory ran out.
    pub fn is_memory(&self) -> bool {
        match self {
            Refusal::System(error) => error.kind() == ErrorKind::OutOfMemory,
            Refusal::Directory | Refusal::NoRegularFile | Refusal::TooLarge => false,
        }
    }

    /// Tells the cause on standard error.
    pub fn tell<H: Eprint>(&self, host: &H) {
        let _ = match self {
            Refusal::Directory => host.eprintln("it is a directory"),
            Refusal::NoRegularFile => host.eprintln("it is no regular file"),
            Refusal::TooLarge => host.eprintln("it is larger than 1 GB"),
            Refusal::System(error) => host.eprintln(error),
        };
    }
}

impl From<io::Error> for Refusal {
    fn from(error: io::Error) -> Refusal {
        Refusal::System(error)
    }
}
