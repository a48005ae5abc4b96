//! How much the parts of a stream keep, and what waits in them.
ghost use Rattle.std.specs.Prelude.{◌≡◌, ◌-◌, ◌^◌, length, min};
ghost use Rattle.px_stream.specs.Tells.{SideHasRoom, content_at, going_text, held_at, held_text, held_up_text, side_keeps, uses_side};

use crate::coming::Held;
use crate::going::{Going, HeldRequest};
use crate::link::Link;
use crate::phase::{Asked, Phase, Wanted};

/// Whether the flow uses a server's side.
pub(crate) fn uses_side(phase: &Phase) -> bool
    ensures { result ≡ uses_side phase.now }
{
    match phase {
        Phase::Ready(Wanted::ResponseHead { .. }) => true,
        Phase::Ready(Wanted::ResponseBody { .. }) => true,
        Phase::Ready(Wanted::ComingDown { .. }) => true,
        Phase::Ready(Wanted::Upgraded { .. }) => true,
        Phase::Asked(Asked::ResponseHead { .. }) => true,
        Phase::Asked(Asked::ResponseBody { .. }) => true,
        Phase::Ready(_) => false,
        Phase::Asked(_) => false,
    }
}

/// How long the content of a body is, as far as it has come.
pub(crate) fn content_len(phase: &Phase) -> usize
    ensures { result ≡ length (content_at phase.now) }
{
    match phase {
        Phase::Ready(Wanted::RequestBody { body, .. }) => body.len(),
        Phase::Ready(Wanted::ResponseBody { body, .. }) => body.len(),
        Phase::Ready(_) => 0,
        Phase::Asked(_) => 0,
    }
}

/// How long what is held of a body is, beside its content, or what waits of a request whose server is dialled.
pub(crate) fn held_len(phase: &Phase) -> usize
    ensures { result ≡ length (held_at phase.now) }
{
    match phase {
        Phase::Ready(Wanted::RequestBody { held, .. }) => request_len(held),
        Phase::Ready(Wanted::Connection { up, .. }) => going_len(up),
        Phase::Ready(Wanted::ResponseBody { held, .. }) => response_len(held),
        Phase::Ready(_) => 0,
        Phase::Asked(Asked::Connection { up, .. }) => going_len(up),
        Phase::Asked(_) => 0,
    }
}

fn request_len(held: &Option<HeldRequest>) -> usize
    ensures { result ≡ length (held_up_text held.now) }
{
    match held {
        Some(held) => held.said.len(),
        None => 0,
    }
}

fn going_len(up: &Option<Going>) -> usize
    ensures { result ≡ length (going_text up.now) }
{
    match up {
        Some(going) => going.text.len(),
        None => 0,
    }
}

fn response_len(held: &Option<Held>) -> usize
    ensures { result ≡ length (held_text held.now) }
{
    match held {
        Some(held) => held.said.len(),
        None => 0,
    }
}

/// How much the reader of the open side keeps, where it counts.
pub(crate) fn side_size(counts: bool, side: &Option<Link>) -> usize
    ensures kept { result ≡ min (side_keeps counts side.now) (2 ^ 64 - 1) }
    ensures room { SideHasRoom counts side.now }
{
    if !counts {
        return 0;
    }
    match side {
        Some(link) => link.responses.kept(),
        None => 0,
    }
}
