//! What the core costs, so that it can be taken from outside.
//!
//! `measure_by` does what words ask, and gives a line that tells it. With `whole` or `bytes`, the number of fields of 1,000 bytes
//! each, and how often, a head is read again and again, whole or one byte at a time. With `counted` or `chunked`, the size of a
//! piece and how many, a response is read whose body comes in such pieces, each a chunk where it is chunked. With `conversation`
//! before those, a request with such a body and a response with such a body go through a whole conversation, and with `pipelined`
//! and a number, so many requests without bodies that come in one piece. With `clients` and a number, so many clients come one
//! behind the other to the whole program, each with a GET that is answered. Nothing is timed here: take `time` or `perf stat`.
//!
//! Nothing is proved of what it does, beyond that it is safe and ends.
use crate::measure::clients::serve_clients;
use crate::measure::conversation::{Sent, gets, post};
use crate::measure::order::{Order, read_order};
use crate::measure::reading::{measure_body, measure_head};
use px_text::NoMemory;
use std::alloc::Global;

mod clients;
mod conversation;
mod framing;
mod order;
mod reading;

/// Does what the words ask, and gives the line that tells it; nothing where they have no form.
pub(crate) fn measure_by(alloc: Global, words: &[String]) -> Result<Option<String>, NoMemory> {
    match read_order(words) {
        Some(order) => Ok(Some(obey(alloc, order)?)),
        None => Ok(None),
    }
}

fn obey(alloc: Global, order: Order) -> Result<String, NoMemory> {
    match order {
        Order::Head {
            pieces,
            fields,
            times,
        } => measure_head(alloc, pieces, fields, times),
        Order::Body {
            framing,
            size,
            pieces,
        } => measure_body(alloc, framing, size, pieces),
        Order::Conversation {
            framing,
            size,
            pieces,
        } => tell(alloc, post(alloc, framing, size, pieces)?),
        Order::Pipelined { count } => tell(alloc, gets(alloc, count)?),
        Order::Clients { count } => tell_lines(alloc, serve_clients(alloc, count)?),
    }
}

// The line that tells what was given.
fn tell(alloc: Global, sent: Sent) -> Result<String, NoMemory> {
    let Sent { server, client } = sent;
    Ok(format!(in alloc; "{server} bytes to the server, {client} bytes to the client")?)
}

// The line that tells what was printed.
fn tell_lines(alloc: Global, bytes: u64) -> Result<String, NoMemory> {
    Ok(format!(in alloc; "{bytes} bytes of lines")?)
}
