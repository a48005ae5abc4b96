//! What the system told and is not told on yet.
use mio::Token;
use mio::event::Event;
use px_event::Door;

/// The token of the door for clients. Those of slots are numbers below 2^32.
pub(crate) const PROXY: Token = Token(usize::MAX);

/// The token of the door for operators.
pub(crate) const CONTROL: Token = Token(usize::MAX - 1);

/// In which way a socket may go on.
#[derive(Clone, Copy, Debug, PartialEq, Eq)]
pub(crate) enum Way {
    /// It may have bytes.
    Read,
    /// It may have bytes, and behind them its end, its failure or urgent bytes: a read that does not fill its room is no
    /// sign that nothing is left.
    ReadOn,
    /// It had used up its share when the system was polled, and may have bytes.
    ReadMore,
    /// It may take bytes; it is connected.
    Write,
    /// It may take bytes, or has failed.
    Settle,
}

/// Something that may go on.
#[derive(Clone, Copy, Debug, PartialEq, Eq)]
pub(crate) enum Notice {
    /// A connection may wait at the door.
    Door(Door),
    /// The socket that has this stamp in the slot may go on.
    Slot { slot: u32, stamp: u64, way: Way },
}

/// The door that an event is of; none for a slot.
pub(crate) fn door_of(event: &Event) -> Option<Door> {
    let token = event.token();
    if token == PROXY {
        Some(Door::Proxy)
    } else if token == CONTROL {
        Some(Door::Control)
    } else {
        None
    }
}

/// The slot that an event is of; none for a door.
pub(crate) fn slot_of(event: &Event) -> Option<u32> {
    u32::try_from(event.token().0).ok()
}

/// How the event's socket may be read; none where it has nothing, nor its end, nor an error.
pub(crate) fn reading_of(event: &Event) -> Option<Way> {
    if event.is_read_closed() || event.is_error() || event.is_priority() {
        Some(Way::ReadOn)
    } else if event.is_readable() {
        Some(Way::Read)
    } else {
        None
    }
}

/// How the event's socket may be written; none where it takes nothing and has not failed. A socket that may be written and
/// has not failed is connected: while it connects the system does not tell that it may be written.
pub(crate) fn writing_of(event: &Event) -> Option<Way> {
    if event.is_write_closed() || event.is_error() {
        Some(Way::Settle)
    } else if event.is_writable() {
        Some(Way::Write)
    } else {
        None
    }
}
