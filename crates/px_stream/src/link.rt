//! The server's side that is open: the one that a flow uses, with the responses that come on it, or the one that is parked, of which
//! nothing is heard: at its first byte it is closed, and let go of.
ghost use Rattle.std.specs.Prelude.{◌≡◌, ◌&&◌, [], false, OnOk, IfOk};
ghost use Rattle.px_exchange.specs.Endings.{sent_persists};
ghost use Rattle.px_chain.specs.Keeping.{is_silent};
ghost use Rattle.px_stream.specs.Anywhere.{unheard};
ghost use Rattle.px_stream.specs.Heard.{IsUnshut, SideAgrees, feeds, is_of, link_closes, link_hears, side_with, stray_by, unless_closed_by, unless_heard};
ghost use Rattle.px_stream.specs.Stands.{unread_link, used_in};
ghost use Rattle.px_stream.specs.Tells.{closed_in, side_rest};
ghost use Rattle.px_stream.specs.Turns.{keeps_on, new_side, opened_side};

use crate::at::Kept;
use px_exchange::ending::{Used, sent_persists};
use px_message::Request;
use px_read::MessageReader;
use px_text::{Bytes, NoMemory};
use std::alloc::Global;

/// The side of a server. Whether the response that comes on it persists is known once its head was read.
#[derive(Debug, Drop)]
pub struct Link {
    pub server: u32,
    pub asked_head: bool,
    pub persists: bool,
    pub responses: MessageReader,
    pub closed: bool,
}

impl Link {
    /// The side of this server, which has sent nothing yet, for the answer to a HEAD or not.
    pub fn new(alloc: Global, server: u32, asked_head: bool) -> Link
        ensures { result ≡ unread_link server asked_head [] false }
    {
        Link {
            server,
            asked_head,
            persists: false,
            responses: MessageReader::response(alloc, asked_head),
            closed: false,
        }
    }

    // The same side, for the answer to a HEAD or not: all that waits of it is to be read.
    fn into_unread(self, alloc: Global, asked_head: bool) -> Result<Link, NoMemory>
        ensures { IfOk result (λ link. link ≡ unread_link self.server asked_head self.responses.rest self.closed) }
    {
        let Link {
            server,
            responses,
            closed,
            ..
        } = self;
        let mut link = Link::new(alloc, server, asked_head);
        link.responses.feed(&responses.into_rest()?)?;
        if closed {
            link.close(server);
        }
        Ok(link)
    }

    // Bytes of the server of that number.
    fn hear(&mut self, server: u32, bytes: &Bytes) -> Result<(), NoMemory>
        requires same { self.old.responses.closed ≡ self.old.closed }
        ensures { OnOk result (self.new ≡ link_hears server bytes.now self.old) }
    {
        if server != self.server {
            return Ok(());
        }
        if self.closed {
            return Ok(());
        }
        self.responses.feed(bytes)
    }

    // The close of the server of that number.
    fn close(&mut self, server: u32)
        ensures { self.new ≡ link_closes server self.old }
    {
        if server == self.server {
            self.closed = true;
            self.responses.close();
        }
    }
}

/// The side that is parked, of which nothing was heard yet, if one is.
pub fn unheard(alloc: Global, parked: &Option<Kept>) -> Option<Link>
    ensures { result ≡ unheard parked.now }
{
    match parked {
        Some(parked) => Some(Link::new(alloc, parked.side, false)),
        None => None,
    }
}

/// The side that a request went to, for its answer: nothing was heard yet of a server that was dialled, nor of a parked one.
pub fn open(
    alloc: Global,
    dialled: bool,
    server: u32,
    asked_head: bool,
    side: Option<Link>,
) -> Result<Option<Link>, NoMemory>
    ensures { IfOk result (λ opened. opened ≡ opened_side dialled server asked_head side) }
{
    if dialled {
        drop(side);
        return Ok(Some(Link::new(alloc, server, asked_head)));
    }
    match side {
        Some(link) => Ok(Some(link.into_unread(alloc, asked_head)?)),
        None => Ok(None),
    }
}

/// Bytes of the server of that number, where its side is open.
pub fn hear(side: &mut Option<Link>, server: u32, bytes: &Bytes) -> Result<(), NoMemory>
    requires { SideAgrees side.old }
    ensures { OnOk result (side.new ≡ side_with (link_hears server bytes.now) side.old) }
{
    match side {
        Some(link) => link.hear(server, bytes),
        None => Ok(()),
    }
}

/// The close of the server of that number, where its side is open.
pub fn close(side: &mut Option<Link>, server: u32)
    ensures { side.new ≡ side_with (link_closes server) side.old }
{
    match side {
        Some(link) => link.close(server),
        None => {}
    }
}

/// Bytes of the open side that were heard by others: its server had not closed.
pub fn feed(side: &mut Option<Link>, bytes: &Bytes) -> Result<(), NoMemory>
    requires { IsUnshut side.old }
    ensures { OnOk result (side.new ≡ side_with (λ link. record link { responses = feeds bytes.now link.responses }) side.old) }
{
    match side {
        Some(link) => link.responses.feed(bytes),
        None => Ok(()),
    }
}

/// The server whose side is open, if one is, and whether it closed.
pub fn used(side: &Option<Link>) -> Used
    ensures { result ≡ used_in side.now }
{
    match side {
        Some(link) => Used::ByServer {
            number: link.server,
            closed: link.closed,
        },
        None => Used::NoServer,
    }
}

/// Whether the open side has closed, if one is open.
pub fn is_closed(side: &Option<Link>) -> bool
    ensures { result ≡ closed_in side.now }
{
    match side {
        Some(link) => link.closed,
        None => false,
    }
}

/// The number of the parked side, where these are bytes of it: then it is kept no more, and is to be closed.
pub fn hear_stray(side: &mut Option<Link>, server: u32, bytes: &Bytes) -> Option<u32>
    ensures stray { result ≡ stray_by server bytes.now side.old }
    ensures side { side.new ≡ unless_heard server bytes.now side.old }
{
    if bytes.is_empty() {
        return None;
    }
    let parked = is_of(server, side);
    if !parked {
        return None;
    }
    *side = None;
    Some(server)
}

/// The close of the server of that number, where its side is parked: it is kept no more.
pub fn close_stray(side: &mut Option<Link>, server: u32)
    ensures { side.new ≡ unless_closed_by server side.old }
{
    let parked = is_of(server, side);
    if parked {
        *side = None;
    }
}

// Whether the open side is the one of this server.
fn is_of(server: u32, side: &Option<Link>) -> bool
    ensures { result ≡ is_of server side.now }
{
    match side {
        Some(link) => server == link.server,
        None => false,
    }
}

/// Makes the side that a flow used new for the next one. Whether it may be kept for that, behind the response to this request that was read on it: nothing
/// stands behind that, its server has not closed, and both messages persist.
pub fn renew(alloc: Global, side: &mut Option<Link>, request: &Request) -> Result<bool, NoMemory>
    ensures keeps { IfOk result (λ keeps. keeps ≡ keeps_on request.now side.old) }
    ensures side { OnOk result (side.new ≡ new_side side.old) }
{
    match side.take() {
        Some(link) => {
            let Link {
                server,
                persists,
                responses,
                closed,
                ..
            } = link;
            let rest = responses.into_rest()?;
            *side = Some(Link::new(alloc, server, false));
            let silent = is_silent(&rest, closed);
            keeps_by(silent, persists, request)
        }
        None => Ok(false),
    }
}

// Whether nothing came of a side, and it has not closed.
fn is_silent(bytes: &Bytes, closed: bool) -> bool
    ensures { result ≡ is_silent bytes.now closed }
{
    if bytes.is_empty() {
        return !closed;
    }
    false
}

fn keeps_by(silent: bool, persists: bool, request: &Request) -> Result<bool, NoMemory>
    ensures { IfOk result (λ keeps. keeps ≡ (silent && (sent_persists request.now && persists))) }
{
    if !silent {
        return Ok(false);
    }
    let sent = sent_persists(request)?;
    Ok(sent && persists)
}

/// What waits of the open side, where it is asked for.
pub fn into_rest(side: Option<Link>, asked: bool) -> Result<Bytes, NoMemory>
    ensures { IfOk result (λ rest. rest ≡ side_rest asked side) }
{
    if !asked {
        drop(side);
        return Ok(Bytes::empty());
    }
    match side {
        Some(link) => {
            let Link { responses, .. } = link;
            responses.into_rest()
        }
        None => Ok(Bytes::empty()),
    }
}
