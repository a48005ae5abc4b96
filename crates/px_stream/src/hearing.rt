//! An event of a side, heard by the reader of that side.
ghost use Rattle.std.specs.Prelude.{◌≡◌, false, IfOk, OnOk};
ghost use Rattle.px_stream.specs.Heard.{SideAgrees, closes_client, parked_stray, parked_takes, requests_take, side_takes, stray_in, used_takes};

use crate::link::{self, Link};
use px_event::{Event, Side};
use px_read::MessageReader;
use px_text::NoMemory;

/// The event goes to the reader of its side. Where no flow uses the open side, nothing is read of that: at its first byte, or at its close, it is let go of.
/// The number of one of which a byte came, which is to be closed.
pub(crate) fn hear(
    requests: &mut MessageReader,
    client_closed: &mut bool,
    uses: bool,
    side: &mut Option<Link>,
    event: &Event,
) -> Result<Option<u32>, NoMemory>
    requires open_still { requests.old.closed ≡ false }
    requires agrees { SideAgrees side.old }
    ensures requests { OnOk result (requests.new ≡ requests_take event.now requests.old) }
    ensures client { OnOk result (client_closed.new ≡ closes_client event.now client_closed.old) }
    ensures side { OnOk result (side.new ≡ side_takes uses event.now side.old) }
    ensures stray { IfOk result (λ stray. stray ≡ stray_in uses event.now side.old) }
{
    hear_client(requests, client_closed, event)?;
    if uses {
        hear_used(side, event)?;
        return Ok(None);
    }
    Ok(hear_parked(side, event))
}

fn hear_client(
    requests: &mut MessageReader,
    client_closed: &mut bool,
    event: &Event,
) -> Result<(), NoMemory>
    requires open_still { requests.old.closed ≡ false }
    ensures requests { OnOk result (requests.new ≡ requests_take event.now requests.old) }
    ensures client { OnOk result (client_closed.new ≡ closes_client event.now client_closed.old) }
{
    match event {
        Event::Piece {
            side: Side::Client,
            bytes,
        } => requests.feed(bytes),
        Event::Closed { side: Side::Client } => {
            *client_closed = true;
            Ok(())
        }
        _ => Ok(()),
    }
}

fn hear_used(side: &mut Option<Link>, event: &Event) -> Result<(), NoMemory>
    requires agrees { SideAgrees side.old }
    ensures { OnOk result (side.new ≡ used_takes event.now side.old) }
{
    match event {
        Event::Piece {
            side: Side::Server(server),
            bytes,
        } => link::hear(side, *server, bytes),
        Event::Closed {
            side: Side::Server(server),
        } => {
            link::close(side, *server);
            Ok(())
        }
        _ => Ok(()),
    }
}

fn hear_parked(side: &mut Option<Link>, event: &Event) -> Option<u32>
    ensures side { side.new ≡ parked_takes event.now side.old }
    ensures stray { result ≡ parked_stray event.now side.old }
{
    match event {
        Event::Piece {
            side: Side::Server(server),
            bytes,
        } => link::hear_stray(side, *server, bytes),
        Event::Closed {
            side: Side::Server(server),
        } => {
            link::close_stray(side, *server);
            None
        }
        _ => None,
    }
}
