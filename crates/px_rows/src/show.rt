//! What was said, as lines.
use crate::Shown;
use px_event::{Said, Side};
use px_message::Address;

/// A side of a conversation.
#[derive(Clone, Copy, PartialEq, Eq)]
pub struct Peer {
    pub conv: u32,
    pub side: Side,
}

/// Shows one thing said. Sends to one side that follow each other are one line: the answer is the peer to which bytes are
/// being sent, whose line is not ended yet, and `sending` is what the answer was before.
pub fn show_said(out: &mut Shown, sending: Option<Peer>, conv: u32, said: &Said) -> Option<Peer> {
    match said {
        Said::Send { side, bytes } => {
            let peer = Peer { conv, side: *side };
            show_send(out, sending, peer, bytes.as_slice())
        }
        Said::Close { side } => {
            end_line(out, sending);
            show_close(out, Peer { conv, side: *side });
            None
        }
        Said::Dial { server, address } => {
            end_line(out, sending);
            show_dial(out, conv, *server, address);
            None
        }
    }
}

/// Shows bytes that are sent. The answer is as that of `show_said`.
pub fn show_send(out: &mut Shown, sending: Option<Peer>, peer: Peer, bytes: &[u8]) -> Option<Peer> {
    if sending != Some(peer) {
        end_line(out, sending);
        show_peer(out, peer);
        out.text("> ");
    }
    out.bytes(bytes);
    Some(peer)
}

/// Ends the line of a send.
pub fn end_line(out: &mut Shown, sending: Option<Peer>) {
    if sending.is_some() {
        out.text("\n");
    }
}

/// Shows a close.
pub fn show_close(out: &mut Shown, peer: Peer) {
    show_conversation(out, peer.conv);
    out.text("close ");
    show_side(out, peer.side);
    out.text("\n");
}

/// Shows a dial.
pub fn show_dial(out: &mut Shown, conv: u32, server: u32, address: &Address) {
    show_conversation(out, conv);
    out.text("dial S");
    out.number(u64::from(server));
    out.text(" ");
    show_address(out, address);
    out.text("\n");
}

/// Shows an address, as `h:80`.
pub fn show_address(out: &mut Shown, address: &Address) {
    out.bytes(address.host.bytes());
    out.text(":");
    out.number(u64::from(address.port));
}

/// Shows a side of a conversation, as `S0`, or as `2:C` where the conversation is not 0.
pub fn show_peer(out: &mut Shown, peer: Peer) {
    show_conversation(out, peer.conv);
    show_side(out, peer.side);
}

/// Shows a number and a colon, but for conversation 0.
pub fn show_conversation(out: &mut Shown, conv: u32) {
    if conv != 0 {
        out.number(u64::from(conv));
        out.text(":");
    }
}

fn show_side(out: &mut Shown, side: Side) {
    match side {
        Side::Client => out.text("C"),
        Side::Server(server) => {
            out.text("S");
            out.number(u64::from(server));
        }
    }
}
