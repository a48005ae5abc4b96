//! The lines of a diagram: what is heard and what is said.
use crate::RowError;
use crate::escapes::unescape;
use crate::text::read_u32;
use px_event::{Door, Heard, Side};
use px_message::{Address, Host};
use px_text::Bytes;
use std::alloc::Global;

/// One line of a diagram.
#[derive(Drop)]
pub enum Act {
    /// Something is heard.
    Heard(Heard),
    /// Bytes of a side of the conversation of this number are heard.
    Piece(u32, Side, Vec<u8>),
    /// The hook that waits is answered, with this reply.
    Answer(String),
    /// Something is said, asked or finished.
    Said,
}

/// What the line is.
pub fn read_act(alloc: Global, line: &str) -> Result<Act, RowError> {
    match conversation_of(line) {
        Some((conv, rest)) => read_heard(alloc, conv, rest),
        None => read_heard(alloc, 0, line),
    }
}

// A number and a colon in front of the line name the conversation.
fn conversation_of(line: &str) -> Option<(u32, &str)> {
    match line.split_once(':') {
        Some((number, rest)) => behind(number.parse::<u32>().ok(), rest),
        None => None,
    }
}

fn behind(number: Option<u32>, rest: &str) -> Option<(u32, &str)> {
    match number {
        Some(number) => Some((number, rest)),
        None => None,
    }
}

fn read_heard(alloc: Global, conv: u32, text: &str) -> Result<Act, RowError> {
    match text {
        "accept" => accepted(alloc, conv, Door::Proxy),
        "accept control" => accepted(alloc, conv, Door::Control),
        "end" => Ok(Act::Heard(Heard::End)),
        "C closes" => Ok(closed(conv, Side::Client)),
        "answer" => read_answer(alloc, "go"),
        _ => read_of_client(alloc, conv, text),
    }
}

fn closed(conv: u32, side: Side) -> Act {
    Act::Heard(Heard::Closed { conv, side })
}

fn read_answer(alloc: Global, reply: &str) -> Result<Act, RowError> {
    let reply = String::from_str(alloc, reply)?;
    Ok(Act::Answer(reply))
}

fn read_of_client(alloc: Global, conv: u32, text: &str) -> Result<Act, RowError> {
    if let Some(bytes) = text.strip_prefix("C< ") {
        return read_piece(alloc, conv, Side::Client, bytes);
    }
    if let Some(reply) = text.strip_prefix("answer ") {
        return read_answer(alloc, reply);
    }
    if is_said(text) {
        return Ok(Act::Said);
    }
    read_of_server(alloc, conv, text)
}

fn read_piece(alloc: Global, conv: u32, side: Side, text: &str) -> Result<Act, RowError> {
    let bytes = unescape(alloc, text)?;
    Ok(Act::Piece(conv, side, bytes))
}

fn read_of_server(alloc: Global, conv: u32, text: &str) -> Result<Act, RowError> {
    if let Some(dialled) = text.strip_prefix("D") {
        return read_dialled(conv, dialled);
    }
    match text.strip_prefix("S") {
        Some(server) => read_server(alloc, conv, server),
        None => Err(RowError::Bad),
    }
}

fn read_server(alloc: Global, conv: u32, text: &str) -> Result<Act, RowError> {
    if let Some((number, bytes)) = text.split_once("< ") {
        let number = read_u32(number)?;
        return read_piece(alloc, conv, Side::Server(number), bytes);
    }
    match text.strip_suffix(" closes") {
        Some(number) => {
            let number = read_u32(number)?;
            Ok(closed(conv, Side::Server(number)))
        }
        None => Err(RowError::Bad),
    }
}

fn read_dialled(conv: u32, text: &str) -> Result<Act, RowError> {
    match text.strip_suffix(" fails") {
        Some(number) => dialled(conv, number, false),
        None => dialled(conv, text, true),
    }
}

fn dialled(conv: u32, number: &str, ok: bool) -> Result<Act, RowError> {
    let server = read_u32(number)?;
    Ok(Act::Heard(Heard::Dialled { conv, server, ok }))
}

fn accepted(alloc: Global, conv: u32, door: Door) -> Result<Act, RowError> {
    let host = loopback(alloc)?;
    Ok(Act::Heard(Heard::Accepted {
        conv,
        door,
        peer: Address { host, port: 50000 },
    }))
}

fn loopback(alloc: Global) -> Result<Host, RowError> {
    let bytes = Vec::from_slice(alloc, b"127.0.0.1")?;
    match Host::try_new(alloc, bytes) {
        Ok(host) => Ok(host),
        Err(_) => Err(RowError::NoMemory),
    }
}

const SAID: [&str; 15] = [
    "C> ",
    "close ",
    "dial S",
    "ask ",
    "done ",
    "prints ",
    "notes ",
    "reads ",
    "misses ",
    "cannot read ",
    "status ",
    "steps ",
    "going",
    "over",
    "upgraded",
];

// Whether something is said by the line.
fn is_said(text: &str) -> bool {
    for front in &SAID {
        if text.starts_with(*front) {
            return true;
        }
    }
    is_sent_to_server(text)
}

fn is_sent_to_server(text: &str) -> bool {
    match text.strip_prefix("S") {
        Some(server) => is_number_before(server),
        None => false,
    }
}

fn is_number_before(text: &str) -> bool {
    match text.split_once("> ") {
        Some((number, _)) => number.parse::<u32>().is_ok(),
        None => false,
    }
}

/// A piece of a side.
pub fn piece(alloc: Global, conv: u32, side: Side, bytes: &[u8]) -> Result<Heard, RowError> {
    let bytes = Bytes::copied(alloc, bytes)?;
    Ok(Heard::Piece { conv, side, bytes })
}
