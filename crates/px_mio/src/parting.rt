//! Sockets that were shut, and are kept until their peers end, or for a while.
use crate::connection::{Drained, drain};
use mio::net::TcpStream;
use std::time::Instant;

// So many seconds one is kept whose peer sends nothing, and so many one whose peer goes on to send.
const QUIET: u64 = 5;

const LONGEST: u64 = 30;

/// A socket that was shut.
#[derive(Drop)]
pub(crate) struct Parted {
    stream: TcpStream,
    // Its peer sent something since that was asked last.
    is_heard: bool,
}

impl Parted {
    /// This socket, of which nothing was heard.
    pub(crate) fn new(stream: TcpStream) -> Parted {
        Parted {
            stream,
            is_heard: false,
        }
    }

    /// Reads what its peer sends, which nobody wants.
    pub(crate) fn drain(&mut self) -> Drained {
        let (left, is_heard) = drain(&self.stream);
        self.is_heard = self.is_heard || is_heard;
        left
    }

    /// Whether its peer sent something since this was asked last.
    pub(crate) fn take_heard(&mut self) -> bool {
        let was_heard = self.is_heard;
        self.is_heard = false;
        was_heard
    }

    /// Closes it at once, behind what stands there to be read.
    pub(crate) fn part(self) {
        let _ = drain(&self.stream);
    }
}

/// Where a socket is kept, when it was shut, and when its peer was heard last.
#[derive(Clone, Copy)]
pub(crate) struct Kept {
    pub(crate) slot: u32,
    pub(crate) stamp: u64,
    pub(crate) shut: Instant,
    pub(crate) heard: Instant,
}

impl Kept {
    /// Whether it was kept long enough.
    pub(crate) fn is_late(&self, now: Instant) -> bool {
        now.duration_since(self.heard).as_secs() >= QUIET
            || now.duration_since(self.shut).as_secs() >= LONGEST
    }
}
