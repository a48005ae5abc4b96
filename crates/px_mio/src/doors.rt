//! The doors at which connections come.
use crate::own_door::leads_to;
use crate::share::Share;
use mio::net::{TcpListener, TcpStream};
use px_event::Door;
use std::io::ErrorKind;
use std::net::{Net, SocketAddr};

// How many connections are accepted at a door between two polls.
const ACCEPTS: u32 = 64;

/// The sockets that listen.
#[derive(Drop)]
pub(crate) struct Doors {
    proxy: Option<Entrance>,
    control: Option<Entrance>,
}

// A socket that listens, where it does, and how many were accepted there.
#[derive(Drop)]
struct Entrance {
    listener: TcpListener,
    address: SocketAddr,
    share: Share,
}

/// Who came to a door.
#[derive(Drop)]
pub(crate) enum Came {
    /// A connection, and where its peer is. More may wait.
    Peer(TcpStream, SocketAddr),
    /// One that its peer gave up. More may wait.
    Aborted,
    /// Nobody.
    Nobody,
    /// As many were accepted as may be before the next poll. More may wait.
    Enough,
    /// None can be accepted, as where no descriptor is left. One may wait.
    Refused,
}

impl Doors {
    /// No door listens.
    pub(crate) fn new() -> Doors {
        Doors {
            proxy: None,
            control: None,
        }
    }

    /// Has the door listen by this socket, which is bound there.
    pub(crate) fn set(&mut self, door: Door, listener: TcpListener, address: SocketAddr) {
        let share = Share::new();
        let entrance = Some(Entrance {
            listener,
            address,
            share,
        });
        match door {
            Door::Proxy => self.proxy = entrance,
            Door::Control => self.control = entrance,
        }
    }

    /// Whether a connection to the address comes to one of these doors.
    pub(crate) fn have<R: Net>(&self, rt: &R, to: SocketAddr) -> bool {
        is_entrance(rt, &self.proxy, to) || is_entrance(rt, &self.control, to)
    }

    /// Accepts a connection at the door.
    pub(crate) fn accept(&mut self, door: Door, turn: u64) -> Came {
        match door {
            Door::Proxy => accept_at(&mut self.proxy, turn),
            Door::Control => accept_at(&mut self.control, turn),
        }
    }
}

impl Entrance {
    fn accept(&mut self, turn: u64) -> Came {
        if !self.share.take(turn, ACCEPTS) {
            return Came::Enough;
        }
        match self.listener.accept() {
            Ok((stream, peer)) => Came::Peer(stream, peer),
            Err(error) => match error.kind() {
                ErrorKind::WouldBlock => Came::Nobody,
                ErrorKind::ConnectionAborted => Came::Aborted,
                _ => Came::Refused,
            },
        }
    }
}

// Whether a connection to the address comes to this door.
fn is_entrance<R: Net>(rt: &R, entrance: &Option<Entrance>, to: SocketAddr) -> bool {
    match entrance {
        Some(entrance) => leads_to(rt, to, entrance.address),
        None => false,
    }
}

// Accepts a connection where a door listens.
fn accept_at(entrance: &mut Option<Entrance>, turn: u64) -> Came {
    match entrance {
        Some(entrance) => entrance.accept(turn),
        None => Came::Nobody,
    }
}
