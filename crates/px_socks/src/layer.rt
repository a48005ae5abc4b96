//! The layer: a client of SOCKS, from its first byte until its connection stands or is refused.
ghost use Rattle.std.specs.Prelude.{◌≡◌, ◌≢◌, ◌≤◌, ◌<◌, ◌++◌, ◌^◌, ◌-◌, ◌∷◌, [], None, false, OnOk, min};
ghost use Rattle.px_event.specs.Layer.{AsksOnly};
ghost use Rattle.px_event.specs.declared.command.Command.TheVariants.{Close as GivesClose, Send as GivesSend};
ghost use Rattle.px_event.specs.declared.side.Side.TheVariants.{Client as ToClient};
ghost use Rattle.px_event.specs.Sides.{closes, piece_of};
ghost use Rattle.px_socks.specs.Answer.{answer_text, method_text};
ghost use Rattle.px_socks.specs.Stages.{greeting, nothing_seen};
ghost use Rattle.px_socks.specs.Stands.{Advances, Answers, Asks, Hears, IsIn, Refuses, SocksStands, awaits, is_over, left_in, socks_keeps, tunnel_in};

use crate::answer::{push_answer, push_method};
use crate::greeting::{Greeting, read_greeting};
use crate::request::{SocksStep, read_request};
use px_event::{Ask, Command, Event, Reply, Side};
use px_message::Address;
use px_text::{Bytes, NoMemory};
use std::alloc::Global;
use std::mem;

/// Where a client stands.
#[derive(Debug, Drop)]
pub enum Phase {
    /// Its greeting is awaited.
    Greeting,
    /// It was greeted, and its request is awaited.
    Requesting,
    /// The server that it asks for is dialled.
    Dialling(Address),
    /// That server is connected.
    Opened(Address),
    /// It has ended.
    Over,
}

/// A client of SOCKS before its own bytes come. It dials server 0, and is over where that was answered.
#[derive(Debug, Drop)]
pub struct SocksLayer {
    alloc: Global,
    // what has come of the client and is not used
    unread: Bytes,
    phase: Phase,
}

/// Where a client is connected to, and what it has sent behind its request.
#[derive(Debug, Drop)]
pub struct SocksTunnel {
    pub address: Address,
    pub rest: Bytes,
}

impl SocksLayer {
    /// A client of which nothing was heard yet. It stands for itself by no moves, has given nothing and awaits nothing.
    pub fn new(alloc: Global) -> SocksLayer
        ensures first { IsIn result greeting nothing_seen }
        ensures stands { SocksStands result result [] [] }
        ensures free { awaits result ≡ None }
    {
        SocksLayer {
            alloc,
            unread: Bytes::empty(),
            phase: Phase::Greeting,
        }
    }

    /// Hears an event while no dial is awaited: the client's bytes are judged as far as they came, and answered (RFC 1928 sections 3 and 6); at
    /// its close it is over. Where it is over nothing is heard. After `NoMemory` it may only be dropped.
    pub fn hear(&mut self, event: &Event, out: &mut Vec<Command>) -> Result<(), NoMemory>
        requires free { awaits self.old ≡ None }
        ensures hears { OnOk result (Hears event.now self.old self.new out.old.items out.new.items) }
        ensures asks { OnOk result (AsksOnly (awaits self.new) out.old.items out.new.items) }
        ensures left { OnOk result (left_in self.new.phase ≤ left_in self.old.phase) }
    {
        if self.is_over() {
            return Ok(());
        }
        if closes_client(event) {
            self.end();
            return Ok(());
        }
        self.add(client_piece(event))?;
        self.advance(out)
    }

    /// Takes the answer to its dial: the client is told so, and closed where it is refused. After `NoMemory` it may only be dropped.
    pub fn answer(&mut self, reply: &Reply, out: &mut Vec<Command>) -> Result<(), NoMemory>
        requires asked { awaits self.old ≢ None }
        ensures answers { OnOk result (Answers reply.now self.old self.new out.old.items out.new.items) }
        ensures asks { OnOk result (AsksOnly (awaits self.new) out.old.items out.new.items) }
        ensures left { OnOk result (left_in self.new.phase < left_in self.old.phase) }
    {
        match reply {
            Reply::Dialled => self.open(out),
            Reply::Refused(_) => self.refuse(1, out),
            _ => {
                self.end();
                Ok(())
            }
        }
    }

    /// Where it is connected to, and what the client has sent behind its request, where its dial has connected that server.
    pub fn into_tunnel(self) -> Option<SocksTunnel>
        ensures { result ≡ tunnel_in self }
    {
        let SocksLayer { unread, phase, .. } = self;
        match phase {
            Phase::Opened(address) => Some(SocksTunnel {
                address,
                rest: unread,
            }),
            _ => None,
        }
    }

    /// What is awaited: the dial of server 0.
    pub fn awaited(&self) -> Option<Ask>
        ensures { result ≡ awaits self.now }
    {
        match &self.phase {
            Phase::Dialling(_) => Some(Ask::Dial { server: 0 }),
            _ => None,
        }
    }

    /// How many bytes it keeps: those of a greeting or a request that is not whole. What stands behind a request waits, and does not count.
    pub fn size(&self) -> usize
        ensures { result ≡ min (socks_keeps self.now) (2 ^ 64 - 1) }
    {
        match &self.phase {
            Phase::Greeting | Phase::Requesting => self.unread.len(),
            _ => 0,
        }
    }

    /// Whether nothing more comes of it: another protocol follows, or the conversation has ended.
    pub fn is_over(&self) -> bool
        ensures { result ≡ is_over self.now.phase }
    {
        match &self.phase {
            Phase::Opened(_) | Phase::Over => true,
            _ => false,
        }
    }

    // The client has sent more.
    fn add(&mut self, bytes: &[u8]) -> Result<(), NoMemory>
        ensures added { OnOk result (self.new ≡ record self.old { unread = self.old.unread ++ bytes.now }) }
    {
        let unread = mem::replace(&mut self.unread, Bytes::empty());
        self.unread = unread.append(self.alloc, bytes)?;
        Ok(())
    }

    // What has come is judged.
    fn advance(&mut self, out: &mut Vec<Command>) -> Result<(), NoMemory>
        requires reading { is_over self.old.phase ≡ false }
        requires free { awaits self.old ≡ None }
        ensures advances { OnOk result (Advances self.old self.new out.old.items out.new.items) }
    {
        match &self.phase {
            Phase::Greeting => self.greet(out),
            _ => self.request(out),
        }
    }

    // A greeting stands at the front.
    fn greet(&mut self, out: &mut Vec<Command>) -> Result<(), NoMemory>
        requires greeting { self.old.phase ≡ Phase.Greeting }
        ensures advances { OnOk result (Advances self.old self.new out.old.items out.new.items) }
    {
        match read_greeting(self.unread.as_slice()) {
            Greeting::More => Ok(()),
            Greeting::Methods { free: true, used } => {
                self.unread.advance(used);
                self.phase = Phase::Requesting;
                self.say_method(0, out)?;
                self.request(out)
            }
            Greeting::Methods { free: false, .. } => {
                self.say_method(255, out)?;
                self.close(out)
            }
            Greeting::NotSocks => self.close(out),
        }
    }

    // A request stands at the front.
    fn request(&mut self, out: &mut Vec<Command>) -> Result<(), NoMemory>
        requires requesting { self.old.phase ≡ Phase.Requesting }
        ensures advances { OnOk result (Advances self.old self.new out.old.items out.new.items) }
    {
        match read_request(self.alloc, self.unread.as_slice())? {
            SocksStep::More => Ok(()),
            SocksStep::Connect { address, used } => {
                self.unread.advance(used);
                self.dial(address, out)
            }
            SocksStep::Refused(code) => self.refuse(code, out),
        }
    }

    // The server that it asks for is dialled.
    fn dial(&mut self, address: Address, out: &mut Vec<Command>) -> Result<(), NoMemory>
        ensures asks { OnOk result (Asks address self.old self.new out.old.items out.new.items) }
    {
        let dialled = address.try_clone()?;
        self.phase = Phase::Dialling(address);
        out.push(Command::Dial {
            server: 0,
            address: dialled,
            inside: None,
        })?;
        Ok(())
    }

    // It is connected.
    fn open(&mut self, out: &mut Vec<Command>) -> Result<(), NoMemory>
        requires asked { awaits self.old ≢ None }
        ensures opens { OnOk result (Answers Reply.Dialled self.old self.new out.old.items out.new.items) }
    {
        let Phase::Dialling(address) = mem::replace(&mut self.phase, Phase::Over) else {
            unreachable!()
        };
        self.phase = Phase::Opened(address);
        self.say_answer(0, out)
    }

    // It is refused by this answer, and closed.
    fn refuse(&mut self, code: u8, out: &mut Vec<Command>) -> Result<(), NoMemory>
        ensures refuses { OnOk result (Refuses (answer_text code) self.old self.new out.old.items out.new.items) }
    {
        self.say_answer(code, out)?;
        self.close(out)
    }

    // It is closed.
    fn close(&mut self, out: &mut Vec<Command>) -> Result<(), NoMemory>
        ensures over { OnOk result (self.new.phase ≡ Phase.Over) }
        ensures gives { OnOk result (out.new.items ≡ out.old.items ++ GivesClose ToClient ∷ []) }
    {
        self.end();
        out.push(Command::Close { side: Side::Client })?;
        Ok(())
    }

    // Nothing more comes of it.
    fn end(&mut self)
        ensures { self.new.phase ≡ Phase.Over }
    {
        self.phase = Phase::Over;
        self.unread = Bytes::empty();
    }

    fn say_answer(&self, code: u8, out: &mut Vec<Command>) -> Result<(), NoMemory>
        ensures { OnOk result (out.new.items ≡ out.old.items ++ GivesSend ToClient (answer_text code) ∷ []) }
    {
        let mut text = Vec::new(self.alloc);
        push_answer(code, &mut text)?;
        say(text, out)
    }

    fn say_method(&self, method: u8, out: &mut Vec<Command>) -> Result<(), NoMemory>
        ensures { OnOk result (out.new.items ≡ out.old.items ++ GivesSend ToClient (method_text method) ∷ []) }
    {
        let mut text = Vec::new(self.alloc);
        push_method(method, &mut text)?;
        say(text, out)
    }
}

// The client is sent this.
fn say(text: Vec<u8>, out: &mut Vec<Command>) -> Result<(), NoMemory>
    ensures { OnOk result (out.new.items ≡ out.old.items ++ GivesSend ToClient text.items ∷ []) }
{
    out.push(Command::Send {
        side: Side::Client,
        bytes: Bytes::new(text)?,
    })?;
    Ok(())
}

// The event is the client's close.
fn closes_client(event: &Event) -> bool
    ensures { result ≡ closes ToClient event.now }
{
    match event {
        Event::Closed { side } => match side {
            Side::Client => true,
            Side::Server(_) => false,
        },
        _ => false,
    }
}

// The client's bytes in it.
fn client_piece(event: &Event) -> &[u8]
    ensures { result.now ≡ piece_of ToClient event.now }
{
    match event {
        Event::Piece {
            side: Side::Client,
            bytes,
        } => bytes.as_slice(),
        _ => &[],
    }
}
