//! Bytes to and from a socket.
ghost use Rattle.std.specs.Prelude.{◌≡◌, ℕ, IfSome, length};
ghost use Rattle.px_wire.specs.Calls.{GotWithin, PutWithin};

use crate::notice::Way;
use crate::opening::{is_request, line_len, may_be_request};
use crate::share::Share;
use mio::net::TcpStream;
use px_event::Door;
use px_wire::{Got, Put, Ready};
use std::io::{ErrorKind, Read, Write};
use std::net::Shutdown;

// How often a socket is read between two polls, a room at a time, and that of an operator, a line at a time.
const READS: u32 = 4;

const LINES: u32 = 1;

// So many bytes of an operator are looked at for the end of a line.
const MOST_LINE: usize = 1024;

// What a socket that was shut is read by, and how often between two polls.
const SCRAP: usize = 4096;

const TURNS: usize = 16;

/// Who began a connection.
#[derive(Clone, Copy, Debug, PartialEq, Eq)]
pub(crate) enum Begun {
    /// The peer, which was accepted at this door.
    ByPeer(Door),
    /// This wire, which dialled.
    Here,
}

/// Whether a connection has bytes.
#[derive(Clone, Copy, Debug, PartialEq, Eq)]
enum Reading {
    /// It may have some.
    Open,
    /// It has none, until something else is told.
    Drained,
    /// It used up its share, which is told after the next poll.
    Held,
}

/// A socket that carries bytes.
#[derive(Drop)]
pub(crate) struct Connection {
    stream: TcpStream,
    begun: Begun,
    reading: Reading,
    share: Share,
    // A read that does not fill its room is no sign that nothing is left.
    reads_on: bool,
    // A put was not taken whole, and that it may go on was not told since.
    is_blocked: bool,
    // Bytes were put, and none of the peer's were read since.
    is_put_last: bool,
    // An operator's first bytes are none of HTTP.
    is_operators: bool,
    // Its bytes have ended, or it failed.
    is_over: bool,
}

/// What came of reading a socket whose bytes nobody wants.
#[derive(Clone, Copy, Debug, PartialEq, Eq)]
pub(crate) enum Drained {
    /// It has nothing at present.
    Blocked,
    /// It may have more.
    More,
    /// It has ended, or failed.
    Over,
}

/// What is left of a connection that is shut.
#[derive(Drop)]
pub(crate) enum Finished {
    /// It may be closed: its peer has ended, or has what was put, or it failed.
    Closed,
    /// The socket, after the last byte for its peer, with what its bytes are so far. To close it now would take what the
    /// peer has not got yet from it, if the peer sent what was not read, or sends more.
    Parting(TcpStream, Drained),
}

impl Connection {
    /// A socket that is connected. Whether a put waits to be told that it may go on.
    pub(crate) fn new(stream: TcpStream, begun: Begun, is_blocked: bool) -> Connection {
        Connection {
            stream,
            begun,
            reading: Reading::Open,
            share: Share::new(),
            reads_on: false,
            is_blocked,
            is_put_last: false,
            is_operators: false,
            is_over: false,
        }
    }

    /// Hands bytes to the socket, unless it has not told that it takes more since it took less than it was handed.
    pub(crate) fn put(&mut self, bytes: &[u8]) -> Put
        ensures within { PutWithin (length bytes.now) result }
    {
        if self.is_blocked {
            return Put::Blocked;
        }
        let put = put_to(&self.stream, self.begun, bytes);
        match put {
            Put::Took(count) => {
                self.is_put_last = true;
                self.is_blocked = count < bytes.len();
            }
            Put::Blocked => self.is_blocked = true,
            Put::Broken => {}
        }
        put
    }

    /// Takes bytes of the socket, unless it has none as far as was told, or is held. Those of an operator are at most a line.
    pub(crate) fn get(&mut self, room: &mut [u8]) -> Got
        ensures within { GotWithin (length room.old) result }
        ensures room { length room.new ≡ length room.old }
    {
        if self.reading != Reading::Open {
            return Got::Blocked;
        }
        match self.begun {
            Begun::ByPeer(Door::Control) => self.get_line(room),
            Begun::ByPeer(Door::Proxy) | Begun::Here => self.get_any(room),
        }
    }

    // Takes what the socket has.
    fn get_any(&mut self, room: &mut [u8]) -> Got
        ensures within { GotWithin (length room.old) result }
        ensures room { length room.new ≡ length room.old }
    {
        let got = get_from(&self.stream, room);
        self.after_get(got, room.len());
        got
    }

    // Takes what an operator sent, up to the end of its first line. A peer that begins with a request of HTTP is no operator: what it
    // sent is not taken, and it counts as ended.
    fn get_line(&mut self, room: &mut [u8]) -> Got
        ensures within { GotWithin (length room.old) result }
        ensures room { length room.new ≡ length room.old }
    {
        let mut front = [0; MOST_LINE];
        let there = match peek_at(&self.stream, &mut front) {
            Got::Gave(count) => count,
            none => {
                self.after_get(none, MOST_LINE);
                return none;
            }
        };
        if let Some(none) = self.refuse_request(&front[..there]) {
            self.after_get(none, MOST_LINE);
            return none;
        }
        let count = line_len(&front[..there]).min(room.len());
        let got = get_from(&self.stream, &mut room[..count]);
        // What stands behind the line is taken later.
        let filled = if count < there { 0 } else { MOST_LINE };
        self.after_get(got, filled);
        got
    }

    // Whether the first bytes at the door for operators are taken: not where a request begins with them, and not yet where one may and
    // more can come.
    fn refuse_request(&mut self, front: &[u8]) -> Option<Got>
        ensures none { (most : ℕ) → IfSome result (λ got. GotWithin most got) }
    {
        if self.is_operators {
            return None;
        }
        if is_request(front) {
            return Some(Got::Ended);
        }
        if may_be_request(front) && !self.reads_on {
            return Some(Got::Blocked);
        }
        self.is_operators = true;
        None
    }

    // What a read of a room of so many bytes gave says of the next.
    fn after_get(&mut self, got: Got, room: usize) {
        match got {
            Got::Gave(count) => {
                self.is_put_last = false;
                if count < room && !self.reads_on {
                    self.reading = Reading::Drained;
                }
            }
            Got::Blocked => {
                self.reads_on = false;
                self.reading = Reading::Drained;
            }
            Got::Ended | Got::Broken => self.is_over = true,
        }
    }

    /// Whether it may be read once more in this turn; this counts.
    pub(crate) fn may_get(&mut self, turn: u64) -> bool {
        let most = self.reads();
        self.reading != Reading::Open || self.share.take(turn, most)
    }

    // How often it may be read between two polls.
    fn reads(&self) -> u32 {
        match self.begun {
            Begun::ByPeer(Door::Control) => LINES,
            Begun::ByPeer(Door::Proxy) | Begun::Here => READS,
        }
    }

    /// It gives nothing until it is told again that it may be read.
    pub(crate) fn hold(&mut self) {
        self.reading = Reading::Held;
    }

    /// It may go on in this way: what the slot is ready for. That it may be written is told only where a put waits for it.
    pub(crate) fn go_on(&mut self, slot: u32, way: Way) -> Option<Ready> {
        match way {
            Way::Read => self.open_unless_held(slot),
            Way::ReadOn => {
                self.reads_on = true;
                self.open_unless_held(slot)
            }
            Way::ReadMore if self.reading == Reading::Held => self.open(slot),
            Way::ReadMore => None,
            Way::Write | Way::Settle => self.unblock(slot),
        }
    }

    // One that used up its share is told after the next poll, as was noted. Were it told now, it would be noted once more: so
    // a socket that never runs dry would be noted, and told, more and more often.
    fn open_unless_held(&mut self, slot: u32) -> Option<Ready> {
        if self.reading == Reading::Held {
            return None;
        }
        self.open(slot)
    }

    fn open(&mut self, slot: u32) -> Option<Ready> {
        self.reading = Reading::Open;
        Some(Ready::Readable(slot))
    }

    fn unblock(&mut self, slot: u32) -> Option<Ready> {
        let was_blocked = self.is_blocked;
        self.is_blocked = false;
        was_blocked.then_some(Ready::Writable(slot))
    }

    // Whether the peer has what was put, or needs it no more: it ended, or it is a server that sent what it was dialled for.
    fn is_settled(&self) -> bool {
        self.is_over || self.begun == Begun::Here && !self.is_put_last
    }

    /// Ends what is sent to the peer.
    pub(crate) fn finish(self) -> Finished {
        if self.is_settled() {
            return Finished::Closed;
        }
        let left = match self.reading {
            Reading::Drained => Drained::Blocked,
            Reading::Open | Reading::Held => Drained::More,
        };
        match self.stream.shutdown(Shutdown::Write) {
            Ok(()) => Finished::Parting(self.stream, left),
            Err(_) => Finished::Closed,
        }
    }

    /// Ends what is sent to the peer, and closes the socket at once. What stands there is read before: were bytes left that nobody read, the
    /// system would reset the connection, and so take from the peer what it has not got yet.
    pub(crate) fn part(self) {
        match self.finish() {
            Finished::Parting(stream, _) => {
                let _ = drain(&stream);
            }
            Finished::Closed => {}
        }
    }
}

// Hands bytes to a socket. Where a peer that is heard out takes no more, the socket's end is told by reading it.
fn put_to(mut stream: &TcpStream, begun: Begun, bytes: &[u8]) -> Put
    ensures within { PutWithin (length bytes.now) result }
{
    match stream.write(bytes) {
        Ok(0) => Put::Broken,
        Ok(count) => Put::Took(count),
        Err(error) => match error.kind() {
            ErrorKind::WouldBlock => Put::Blocked,
            ErrorKind::BrokenPipe | ErrorKind::ConnectionReset if is_heard_out(begun) => {
                Put::Blocked
            }
            _ => Put::Broken,
        },
    }
}

// Whether what the peer sent is still read where it takes no more. Not so at the control door: what waits for a connection there
// may hold it back, and were that never taken, its end would never be read.
fn is_heard_out(begun: Begun) -> bool {
    match begun {
        Begun::ByPeer(Door::Control) => false,
        Begun::ByPeer(Door::Proxy) | Begun::Here => true,
    }
}

// Takes bytes of a socket.
fn get_from(mut stream: &TcpStream, room: &mut [u8]) -> Got
    ensures within { GotWithin (length room.old) result }
    ensures room { length room.new ≡ length room.old }
{
    match stream.read(room) {
        Ok(0) => Got::Ended,
        Ok(count) => Got::Gave(count),
        Err(error) if error.kind() == ErrorKind::WouldBlock => Got::Blocked,
        Err(_) => Got::Broken,
    }
}

// Looks at bytes of a socket, which stay for the next read.
fn peek_at(stream: &TcpStream, room: &mut [u8]) -> Got
    ensures within { GotWithin (length room.old) result }
    ensures room { length room.new ≡ length room.old }
{
    match stream.peek(room) {
        Ok(count) if count > 0 => Got::Gave(count),
        Ok(_) => Got::Ended,
        Err(error) if error.kind() == ErrorKind::WouldBlock => Got::Blocked,
        Err(_) => Got::Broken,
    }
}

/// Reads a socket whose bytes nobody wants, and tells whether it had some.
pub(crate) fn drain(stream: &TcpStream) -> (Drained, bool) {
    let mut scrap = [0; SCRAP];
    let mut is_heard = false;
    for _ in 0..TURNS {
        match get_from(stream, &mut scrap) {
            Got::Gave(_) => is_heard = true,
            Got::Blocked => return (Drained::Blocked, is_heard),
            Got::Ended | Got::Broken => return (Drained::Over, is_heard),
        }
    }
    (Drained::More, is_heard)
}
