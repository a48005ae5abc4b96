//! What is heard of generated flows.
ghost use Rattle.std.specs.Prelude.{◌≡◌, ℕ, ◌≤◌, ◌∷◌, [], ◌++◌, IfOk, OnOk, map, true};
ghost use Rattle.px_gen.specs.Peer.{peer};
ghost use Rattle.px_gen.specs.Script.{dialled_by, heard_from, heard_of, pieces_of, script};

use crate::answers::{PIECE, answer, piece_at, request};
use crate::places::peer;
use px_event::{Door, Heard, Side};
use px_text::{Bytes, NoMemory};
use std::alloc::Global;

/// What is heard of so many generated flows, each with its moment: a client at the proxy's door, as conversation 0; for each flow its
/// request and the pieces of the answer; and the client's close. The one server, 0, is connected behind the first request. The client
/// is 127.0.0.1 at port 1, and every moment is 0. After `NoMemory` nothing is left of it.
pub fn script(alloc: Global, count: u64) -> Result<Vec<(u64, Heard)>, NoMemory>
    requires count { count ≤ 10000 }
    ensures script { IfOk result (λ made. made.items ≡ script count) }
{
    let mut made = Vec::new(alloc);
    push_accepted(alloc, &mut made)?;
    for flow in 0..count as u32 {
        push_flow(alloc, flow, &mut made)?;
    }
    push_closed(&mut made)?;
    Ok(made)
}

fn push_accepted(alloc: Global, made: &mut Vec<(u64, Heard)>) -> Result<(), NoMemory>
    ensures { OnOk result (made.new.items ≡ made.old.items ++ (0, Heard.Accepted 0 Door.Proxy peer) ∷ []) }
{
    let peer = peer(alloc)?;
    let heard = Heard::Accepted {
        conv: 0,
        door: Door::Proxy,
        peer,
    };
    made.push((0, heard))?;
    Ok(())
}

fn push_closed(made: &mut Vec<(u64, Heard)>) -> Result<(), NoMemory>
    ensures { OnOk result (made.new.items ≡ made.old.items ++ (0, Heard.Closed 0 Side.Client) ∷ []) }
{
    let heard = Heard::Closed {
        conv: 0,
        side: Side::Client,
    };
    made.push((0, heard))?;
    Ok(())
}

fn push_flow(alloc: Global, flow: u32, made: &mut Vec<(u64, Heard)>) -> Result<(), NoMemory>
    requires { flow ≤ 10000 }
    ensures { OnOk result (made.new.items ≡ made.old.items ++ heard_of flow) }
{
    let request = request(alloc, flow)?;
    push_piece(alloc, Side::Client, &request, made)?;
    push_dialled_by(flow, made)?;
    let answer = answer(alloc, flow)?;
    push_pieces(alloc, Side::Server(0), &answer, made)
}

// The first flow has the server dialled, whose connection is kept for the others.
fn push_dialled_by(flow: u32, made: &mut Vec<(u64, Heard)>) -> Result<(), NoMemory>
    ensures { OnOk result (made.new.items ≡ made.old.items ++ dialled_by flow) }
{
    if flow != 0 {
        return Ok(());
    }
    push_dialled(made)
}

fn push_dialled(made: &mut Vec<(u64, Heard)>) -> Result<(), NoMemory>
    ensures { OnOk result (made.new.items ≡ made.old.items ++ (0, Heard.Dialled 0 0 true) ∷ []) }
{
    let heard = Heard::Dialled {
        conv: 0,
        server: 0,
        ok: true,
    };
    made.push((0, heard))?;
    Ok(())
}

fn push_pieces(
    alloc: Global,
    side: Side,
    text: &[u8],
    made: &mut Vec<(u64, Heard)>,
) -> Result<(), NoMemory>
    ensures { OnOk result (made.new.items ≡ made.old.items ++ map (heard_from side) (pieces_of text.now)) }
{
    for place in 0..text.len().div_ceil(PIECE) {
        push_piece(alloc, side, piece_at(text, place), made)?;
    }
    Ok(())
}

fn push_piece(
    alloc: Global,
    side: Side,
    bytes: &[u8],
    made: &mut Vec<(u64, Heard)>,
) -> Result<(), NoMemory>
    ensures { OnOk result (made.new.items ≡ made.old.items ++ heard_from side bytes.now ∷ []) }
{
    let bytes = Bytes::copied(alloc, bytes)?;
    let heard = Heard::Piece {
        conv: 0,
        side,
        bytes,
    };
    made.push((0, heard))?;
    Ok(())
}
