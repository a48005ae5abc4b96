//! Calls that each network has: what is heard, and what is said.
use crate::parts::address;
use px_event::{Heard, Said, Side};
use px_outside::{Net, NetError};
use px_rows::{Peer, RowError, Shown, read_u32, show_conversation, show_peer, unescape};
use px_text::Bytes;
use std::alloc::Global;

/// Plays `next`, or a line of what is said.
pub(crate) fn play_call<N: Net>(
    alloc: Global,
    net: &mut N,
    call: &str,
    out: &mut Shown,
) -> Result<(), RowError> {
    if call == "next" {
        return next(net, out);
    }
    let (conv, line) = conversation_of(call);
    let said = read_said(alloc, line)?;
    net.say(conv, said)?;
    out.text("ok");
    Ok(())
}

fn next<N: Net>(net: &mut N, out: &mut Shown) -> Result<(), RowError> {
    match net.next() {
        Ok((moment, heard)) => {
            out.number(moment);
            out.text(" ");
            show_heard(out, &heard);
            drop(heard);
            Ok(())
        }
        Err(error) => show_fault(out, error),
    }
}

/// Answers that the network failed.
pub(crate) fn show_fault(out: &mut Shown, error: NetError) -> Result<(), RowError> {
    match error {
        NetError::Fault => {
            out.text("failed");
            Ok(())
        }
        NetError::NoMemory => Err(RowError::NoMemory),
    }
}

/// A number and a colon in front name the conversation, which else is 0.
pub(crate) fn conversation_of(text: &str) -> (u32, &str) {
    match text.split_once(':') {
        Some((number, rest)) => match number.parse::<u32>() {
            Ok(conv) => (conv, rest),
            Err(_) => (0, text),
        },
        None => (0, text),
    }
}

/// The side that `C`, `S0`, `S1` or so on is.
pub(crate) fn side_of(text: &str) -> Result<Side, RowError> {
    match text.strip_prefix("S") {
        Some(number) => Ok(Side::Server(read_u32(number)?)),
        None if text == "C" => Ok(Side::Client),
        None => Err(RowError::Bad),
    }
}

fn read_said(alloc: Global, line: &str) -> Result<Said, RowError> {
    if let Some(side) = line.strip_prefix("close ") {
        let side = side_of(side)?;
        return Ok(Said::Close { side });
    }
    if let Some(server) = line.strip_prefix("dial S") {
        let server = read_u32(server)?;
        let address = address(alloc)?;
        return Ok(Said::Dial { server, address });
    }
    match line.split_once("> ") {
        Some((side, text)) => send(alloc, side_of(side)?, text),
        None => Err(RowError::Bad),
    }
}

fn send(alloc: Global, side: Side, text: &str) -> Result<Said, RowError> {
    let bytes = unescape(alloc, text)?;
    let bytes = Bytes::copied(alloc, &bytes)?;
    Ok(Said::Send { side, bytes })
}

fn show_heard(out: &mut Shown, heard: &Heard) {
    match heard {
        Heard::Accepted { conv, .. } => {
            show_conversation(out, *conv);
            out.text("accept");
        }
        Heard::Piece { conv, side, bytes } => show_piece(out, *conv, *side, bytes.as_slice()),
        Heard::Closed { conv, side } => show_closed(out, *conv, *side),
        Heard::Dialled { conv, server, ok } => show_dialled(out, *conv, *server, *ok),
        Heard::End => out.text("end"),
    }
}

fn show_piece(out: &mut Shown, conv: u32, side: Side, bytes: &[u8]) {
    show_peer(out, Peer { conv, side });
    out.text("< ");
    out.bytes(bytes);
}

fn show_closed(out: &mut Shown, conv: u32, side: Side) {
    show_peer(out, Peer { conv, side });
    out.text(" closes");
}

fn show_dialled(out: &mut Shown, conv: u32, server: u32, ok: bool) {
    show_conversation(out, conv);
    out.text("D");
    out.number(u64::from(server));
    if !ok {
        out.text(" fails");
    }
}
