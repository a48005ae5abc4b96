//! What the words ask.
use crate::measure::framing::{Framing, read_framing};
use px_text::read_decimal;

/// How the bytes come.
#[derive(Clone, Copy)]
pub(crate) enum Pieces {
    Whole,
    Bytes,
}

/// What is to be read.
#[derive(Clone, Copy)]
pub(crate) enum Order {
    /// A head of so many fields, so often.
    Head {
        pieces: Pieces,
        fields: u64,
        times: u64,
    },
    /// A body of so many pieces of this size.
    Body {
        framing: Framing,
        size: u64,
        pieces: u64,
    },
    /// A conversation whose request and whose response have a body of so many pieces of this size.
    Conversation {
        framing: Framing,
        size: u64,
        pieces: u64,
    },
    /// A conversation of so many requests without bodies, which come in one piece.
    Pipelined {
        count: u64,
    },
    /// So many clients one behind the other.
    Clients {
        count: u32,
    },
}

/// What the words ask, if they have a form.
pub(crate) fn read_order(words: &[String]) -> Option<Order> {
    match words {
        [kind, count] => read_count(kind.as_str(), read_number(count)?),
        [kind, first, second] => {
            read_reading(kind.as_str(), read_number(first)?, read_number(second)?)
        }
        [kind, framing, size, pieces] => {
            let framing = read_framing(framing.as_str())?;
            read_conversation(
                kind.as_str(),
                framing,
                read_number(size)?,
                read_number(pieces)?,
            )
        }
        _ => None,
    }
}

fn read_count(kind: &str, count: u64) -> Option<Order> {
    match kind {
        "pipelined" => Some(Order::Pipelined { count }),
        "clients" => match u32::try_from(count) {
            Ok(count) => Some(Order::Clients { count }),
            Err(_) => None,
        },
        _ => None,
    }
}

fn read_reading(kind: &str, first: u64, second: u64) -> Option<Order> {
    match kind {
        "whole" => Some(head(Pieces::Whole, first, second)),
        "bytes" => Some(head(Pieces::Bytes, first, second)),
        _ => body(read_framing(kind), first, second),
    }
}

fn head(pieces: Pieces, fields: u64, times: u64) -> Order {
    Order::Head {
        pieces,
        fields,
        times,
    }
}

fn body(framing: Option<Framing>, size: u64, pieces: u64) -> Option<Order> {
    match framing {
        Some(framing) => Some(Order::Body {
            framing,
            size,
            pieces,
        }),
        None => None,
    }
}

fn read_conversation(kind: &str, framing: Framing, size: u64, pieces: u64) -> Option<Order> {
    match kind {
        "conversation" => Some(Order::Conversation {
            framing,
            size,
            pieces,
        }),
        _ => None,
    }
}

fn read_number(word: &String) -> Option<u64> {
    read_decimal(word.as_str().as_bytes())
}
