//! The sockets of slots.
ghost use Rattle.std.specs.Prelude.{◌≡◌, length};
ghost use Rattle.px_wire.specs.Calls.{GotWithin, PutWithin};

use crate::connection::{Begun, Connection, Finished};
use crate::notice::Way;
use crate::parting::Parted;
use mio::net::TcpStream;
use mio::{Interest, Registry, Token};
use px_wire::{Got, Put};
use std::collections::VecDeque;
use std::io::{self, ErrorKind};
use std::net::{Net, SocketAddr};

/// What a slot has.
#[derive(Drop)]
pub(crate) enum Socket {
    /// It carries bytes.
    Connected(Connection),
    /// It connects to an address of its name; where that fails those that are left are tried.
    Connecting(Attempt),
    /// No address could be connected to.
    Failed,
    /// It was shut. What its peer still sends is read and dropped until the peer ends, or for a while.
    Parting(Parted),
}

/// A connection that begins, and the further addresses of its name.
#[derive(Drop)]
pub(crate) struct Attempt {
    stream: TcpStream,
    left: VecDeque<SocketAddr>,
    // A put waits to be told that it may go on.
    is_awaited: bool,
}

/// What became of an attempt.
#[derive(Drop)]
pub(crate) enum Attempted {
    /// It is connected.
    Connected(Connection),
    /// It still connects.
    Connecting(Attempt),
    /// It failed; these addresses are left. Whether a put waits.
    Failed(VecDeque<SocketAddr>, bool),
}

// How far a socket that connects is.
#[derive(Clone, Copy, Debug, PartialEq, Eq)]
enum Stage {
    Connected,
    Connecting,
    Failed,
}

/// Registers a socket under its slot, for reading and writing. Urgent bytes are told, since a read ends in front of them.
pub(crate) fn register(registry: &Registry, stream: &mut TcpStream, slot: u32) -> io::Result<()> {
    registry.register(
        stream,
        Token(slot as usize),
        Interest::READABLE | Interest::WRITABLE | Interest::PRIORITY,
    )
}

/// Begins to connect to the first of these addresses to which that can be begun. Whether a put waits for that.
pub(crate) fn connect<R: Net>(
    rt: &R,
    registry: &Registry,
    slot: u32,
    mut left: VecDeque<SocketAddr>,
    is_awaited: bool,
) -> Socket {
    while let Some(address) = left.pop_front() {
        if let Ok(mut stream) = TcpStream::connect(rt, address) {
            let _ = stream.set_nodelay(true);
            if register(registry, &mut stream, slot).is_ok() {
                return Socket::Connecting(Attempt {
                    stream,
                    left,
                    is_awaited,
                });
            }
        }
    }
    Socket::Failed
}

/// Looks what became of an attempt whose socket may go on in this way.
pub(crate) fn look_at(attempt: Attempt, way: Way) -> Attempted {
    let stage = match way {
        Way::Write => Stage::Connected,
        _ => stage_of(&attempt.stream),
    };
    match stage {
        Stage::Connected => Attempted::Connected(Connection::new(
            attempt.stream,
            Begun::Here,
            attempt.is_awaited,
        )),
        Stage::Connecting => Attempted::Connecting(attempt),
        Stage::Failed => Attempted::Failed(attempt.left, attempt.is_awaited),
    }
}

// How far a socket that connects is. One that its peer has reset was connected: what the peer sent before may be read.
fn stage_of(stream: &TcpStream) -> Stage {
    match stream.take_error() {
        Ok(None) => stage_by_peer(stream),
        Ok(Some(error)) => match error.kind() {
            ErrorKind::ConnectionReset | ErrorKind::BrokenPipe => Stage::Connected,
            _ => Stage::Failed,
        },
        Err(_) => Stage::Failed,
    }
}

// The same of one that has no error.
fn stage_by_peer(stream: &TcpStream) -> Stage {
    match stream.peer_addr() {
        Ok(_) => Stage::Connected,
        Err(error) if error.kind() == ErrorKind::NotConnected => Stage::Connecting,
        Err(_) => Stage::Failed,
    }
}

impl Socket {
    /// Whether no address could be connected to.
    pub(crate) fn is_failed(&self) -> bool {
        matches!(self, Socket::Failed)
    }

    /// Where it was shut, whether its peer sent something since this was asked last.
    pub(crate) fn take_heard(&mut self) -> Option<bool> {
        match self {
            Socket::Parting(parted) => Some(parted.take_heard()),
            Socket::Connected(_) | Socket::Connecting(_) | Socket::Failed => None,
        }
    }

    /// Hands bytes to the socket. One whose dial has not ended, as far as was told, takes none yet.
    pub(crate) fn put(&mut self, bytes: &[u8]) -> Put
        ensures within { PutWithin (length bytes.now) result }
    {
        match self {
            Socket::Connected(connection) => connection.put(bytes),
            Socket::Connecting(attempt) => {
                attempt.is_awaited = true;
                Put::Blocked
            }
            Socket::Failed => Put::Blocked,
            Socket::Parting(_) => Put::Broken,
        }
    }

    /// Takes bytes of the socket.
    pub(crate) fn get(&mut self, room: &mut [u8]) -> Got
        ensures within { GotWithin (length room.old) result }
        ensures room { length room.new ≡ length room.old }
    {
        match self {
            Socket::Connected(connection) => connection.get(room),
            Socket::Connecting(_) | Socket::Failed => Got::Blocked,
            Socket::Parting(_) => Got::Broken,
        }
    }

    /// Whether it has used up what it may give in this turn. Asking counts as a read.
    pub(crate) fn is_spent(&mut self, turn: u64) -> bool {
        match self {
            Socket::Connected(connection) => !connection.may_get(turn),
            Socket::Connecting(_) | Socket::Failed | Socket::Parting(_) => false,
        }
    }

    /// A connection gives nothing until it is told again that it may be read.
    pub(crate) fn hold(&mut self) {
        match self {
            Socket::Connected(connection) => connection.hold(),
            Socket::Connecting(_) | Socket::Failed | Socket::Parting(_) => {}
        }
    }

    /// Ends what is sent to a connection's peer. Nothing else is waited for before it is closed.
    pub(crate) fn finish(self) -> Finished {
        match self {
            Socket::Connected(connection) => connection.finish(),
            Socket::Connecting(_) => Finished::Closed,
            Socket::Failed => Finished::Closed,
            Socket::Parting(_) => Finished::Closed,
        }
    }

    /// Closes the socket at once, behind what was put, and behind what stands there to be read.
    pub(crate) fn part(self) {
        match self {
            Socket::Connected(connection) => connection.part(),
            Socket::Connecting(_) | Socket::Failed => {}
            Socket::Parting(parted) => parted.part(),
        }
    }
}
