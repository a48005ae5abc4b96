//! What something heard is to the conversation whose number it has.
ghost use Rattle.std.specs.Prelude.{◌≡◌};
ghost use Rattle.px_core.specs.Calls.{addressed};

use px_event::{Door, Event, Heard, Side};
use px_message::Address;

/// Numbers from here on are none of accepted connections.
pub(crate) const NUMBER_END: u32 = 0x8000_0000;

/// News of a conversation.
#[derive(Debug, Drop)]
pub enum News {
    /// It begins; its client is there.
    Begun { peer: Address },
    /// This event of a side.
    Event { side: Side, event: Event },
    /// The dial of this server ended: it is connected, or it is not.
    Dialled { server: u32, ok: bool },
}

/// The conversation's number and its news; none of what is no conversation's.
pub(crate) fn news_of(heard: Heard) -> Option<(u32, News)>
    ensures { result ≡ addressed heard }
{
    match heard {
        Heard::Accepted {
            conv,
            door: Door::Proxy,
            peer,
        } => {
            if conv < NUMBER_END {
                Some((conv, News::Begun { peer }))
            } else {
                None
            }
        }
        Heard::Piece { conv, side, bytes } => Some((
            conv,
            News::Event {
                side,
                event: Event::Piece { side, bytes },
            },
        )),
        Heard::Closed { conv, side } => Some((
            conv,
            News::Event {
                side,
                event: Event::Closed { side },
            },
        )),
        Heard::Dialled { conv, server, ok } => Some((conv, News::Dialled { server, ok })),
        Heard::Accepted { .. } | Heard::End => None,
    }
}
