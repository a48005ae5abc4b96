//! Conversations whose requests go where the mode says.
ghost use Rattle.std.specs.Prelude.{◌≡◌, [], None, Some, IfOk};
ghost use Rattle.px_exchange.specs.Places.{place_of, terms_of};
ghost use Rattle.px_http.specs.Stands.{HttpStands};
ghost use Rattle.px_stack.specs.Chain.{first_at};
ghost use Rattle.px_stack.specs.Kept.{awaited_by};
ghost use Rattle.px_stack.specs.Stands.{IsFirst};

use crate::child::Child;
use crate::stack::Stack;
use px_exchange::{Mode, Place};
use px_http::HttpConv;
use px_message::Address;
use px_resend::ClientMaker;
use px_socks::SocksLayer;
use px_text::NoMemory;
use std::alloc::Global;

/// Makes conversations whose requests go where this mode says, with this key for the masks of frames. The client of each is at the
/// other end of its connection.
#[derive(Debug, Drop)]
pub struct Placed {
    alloc: Global,
    mode: Mode,
    mask_key: [u8; 32],
}

impl Placed {
    /// A maker of conversations in this mode, with this key.
    pub fn new(alloc: Global, mode: Mode, mask_key: [u8; 32]) -> Placed
        ensures mode { result.mode ≡ mode }
        ensures mask_key { result.mask_key ≡ mask_key }
    {
        Placed {
            alloc,
            mode,
            mask_key,
        }
    }
}

impl ClientMaker<Stack> for Placed {
    ghost use Rattle.px_stack.specs.Modes.{mode_due};
    ghost use Rattle.rand_chacha.specs.ChaCha.{key_of};

    ghost due = { λ maker. mode_due maker.mode (key_of maker.mask_key) };

    fn make(&mut self, conv: u32, peer: &Address) -> Result<Stack, NoMemory> {
        Stack::new(self.alloc, &self.mode, conv, peer, self.mask_key)
    }
}

/// Where the conversation of a client there begins in this mode: HTTP at the mode's place, or what the client says by SOCKS.
pub(crate) fn first_child(
    alloc: Global,
    mode: &Mode,
    conv: u32,
    peer: &Address,
) -> Result<Child, NoMemory>
    ensures first { IfOk result (λ child. IsFirst conv peer.now (place_of mode.now) child) }
    ensures free { IfOk result (λ child. awaited_by child ≡ None) }
{
    match mode.place()? {
        Some(place) => Ok(Child::Http(new_http(alloc, place, conv, peer)?)),
        None => Ok(Child::Asking(SocksLayer::new(alloc))),
    }
}

// HTTP at this place, of a client there.
fn new_http(
    alloc: Global,
    place: Place,
    conv: u32,
    peer: &Address,
) -> Result<Box<HttpConv>, NoMemory>
    ensures terms { IfOk result (λ http. http.value.stream.terms ≡ terms_of conv (Some peer.now) place) }
    ensures at { IfOk result (λ http. http.value.stream.at ≡ first_at) }
    ensures stands { IfOk result (λ http. HttpStands http.value http.value [] []) }
    ensures free { IfOk result (λ http. awaited_by (Child.Http http) ≡ None) }
{
    let client = Some(peer.try_clone()?);
    let http = HttpConv::new(alloc, conv, client, place, None, 0, 0)?;
    Ok(Box::new(alloc, http)?)
}
