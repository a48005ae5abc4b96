//! The server: the bytes that are not used yet, and whether a line is asked about.
//!
//! It looks for a line at each move, and asks where it finds one. So it is paused exactly while the first line of the
//! bytes it keeps is whole, and has nothing to remember of pieces.
ghost use Rattle.std.specs.Prelude.{◌≡◌, ◌≢◌, ℕ, None, ◌+◌, ◌-◌, ◌*◌, ◌^◌, ◌<◌, ◌≤◌, ◌++◌, ◌∷◌, [], length, take, drop, OnOk, IfOk, IfSome, min, ◌==◌, position};
ghost use Rattle.px_event.specs.Layer.{Took, Replied, IsSound, Goes, AsksOnly, weight};
ghost use Rattle.px_event.specs.declared.side.Side.TheVariants.{Client as ToClient};
ghost use Rattle.px_event.specs.declared.command.Command.TheVariants.{Close as GivesClose};
ghost use Rattle.px_toy.specs.Echo.{first_line, ask_about, piece_in, closes_client as client_closes, is_kill, echoed};
ghost use Rattle.px_toy.specs.Stands.{EchoStands, phase_at, asks_at, awaited_in};

use px_event::{Ask, Command, Event, Hook, Layer, Reply, Side};
use px_message::Flow;
use px_text::{Bytes, NoMemory};
use std::alloc::Global;
use std::mem;

/// Where it is with the first line.
#[derive(Clone, Copy, Debug, PartialEq, Eq)]
enum Phase {
    /// It is not whole.
    Reading,
    /// It has so many bytes, and is asked about.
    Asked(usize),
    /// Nothing more comes.
    Over,
}

/// A server that echoes lines, and asks before each.
#[derive(Debug, Drop)]
pub struct LineEcho {
    flow: Flow,
    unread: Vec<u8>,
    phase: Phase,
}

impl LineEcho {
    /// A server that asks about this flow. It stands for itself by no moves, and has given nothing.
    pub fn new(alloc: Global, flow: Flow) -> LineEcho
        ensures stands { EchoStands result result [] [] }
        ensures flow { result.flow ≡ flow }
    {
        LineEcho {
            flow,
            unread: Vec::new(alloc),
            phase: Phase::Reading,
        }
    }

    /// What it asks.
    fn ask(&self) -> Ask
        ensures { result ≡ ask_about self.now.flow }
    {
        Ask::Hook {
            flow: self.flow.id.index,
            hook: Hook::RequestHead,
        }
    }

    /// Takes an event, while nothing is asked.
    fn hear(&mut self, event: &Event, out: &mut Vec<Command>) -> Result<(), NoMemory>
        requires free { awaited_in self.old.flow self.old.phase ≡ None }
        ensures goes { (moment : ℕ) → OnOk result (Goes EchoStands self.old self.new (Took moment event.now) out.old.items out.new.items) }
        ensures asks { OnOk result (AsksOnly (awaited_in self.new.flow self.new.phase) out.old.items out.new.items) }
        ensures left { OnOk result (length self.new.unread.items ≤ length self.old.unread.items + weight event.now) }
    {
        if let Phase::Over = self.phase {
            return Ok(());
        }
        if closes_client(event) {
            self.end(out)?;
            return Ok(());
        }
        self.unread.extend_from_slice(client_piece(event))?;
        self.advance(out)?;
        Ok(())
    }

    /// Takes the reply to what is asked.
    fn answer(&mut self, reply: &Reply, out: &mut Vec<Command>) -> Result<(), NoMemory>
        requires sound { IsSound EchoStands self.old }
        requires asked { awaited_in self.old.flow self.old.phase ≢ None }
        ensures goes { (moment : ℕ) → OnOk result (Goes EchoStands self.old self.new (Replied moment reply.now) out.old.items out.new.items) }
        ensures asks { OnOk result (AsksOnly (awaited_in self.new.flow self.new.phase) out.old.items out.new.items) }
        ensures left { OnOk result (length self.new.unread.items < length self.old.unread.items) }
    {
        let Phase::Asked(size) = self.phase else {
            unreachable!()
        };
        let line = self.take_line(size)?;
        if kills(reply) {
            self.end(out)?;
            return Ok(());
        }
        echo(reply, line, out)?;
        self.advance(out)?;
        Ok(())
    }

    /// Asks, if the first line is whole.
    fn advance(&mut self, out: &mut Vec<Command>) -> Result<(), NoMemory>
        ensures flow { self.new.flow ≡ self.old.flow }
        ensures unread { self.new.unread ≡ self.old.unread }
        ensures phase { OnOk result (self.new.phase ≡ phase_at (first_line self.old.unread.items)) }
        ensures asks { OnOk result (out.new.items ≡ out.old.items ++ asks_at self.old.flow (first_line self.old.unread.items)) }
    {
        match line_length(&self.unread) {
            Some(size) => {
                out.push(Command::Ask {
                    ask: self.ask(),
                    flow: self.flow.try_clone()?,
                })?;
                self.phase = Phase::Asked(size);
            }
            None => self.phase = Phase::Reading,
        }
        Ok(())
    }

    /// Closes the client; nothing more comes.
    fn end(&mut self, out: &mut Vec<Command>) -> Result<(), NoMemory>
        ensures flow { self.new.flow ≡ self.old.flow }
        ensures unread { OnOk result (self.new.unread.items ≡ []) }
        ensures phase { OnOk result (self.new.phase ≡ Phase.Over) }
        ensures closes { OnOk result (out.new.items ≡ out.old.items ++ GivesClose ToClient ∷ []) }
    {
        out.push(Command::Close { side: Side::Client })?;
        self.unread.clear();
        self.phase = Phase::Over;
        Ok(())
    }

    /// Takes the line of this many bytes off the front.
    fn take_line(&mut self, size: usize) -> Result<Bytes, NoMemory>
        requires { size ≤ length self.old.unread.items }
        ensures flow { self.new.flow ≡ self.old.flow }
        ensures unread { OnOk result (self.new.unread.items ≡ drop size self.old.unread.items) }
        ensures line { IfOk result (λ line. line ≡ take size self.old.unread.items) }
    {
        let rest = self.unread.split_off(size)?;
        Bytes::new(mem::replace(&mut self.unread, rest))
    }
}

/// How long the first line is, with its line feed, if it is whole.
fn line_length(bytes: &[u8]) -> Option<usize>
    ensures { result ≡ first_line bytes.now }
{
    match line_feed(bytes) {
        Some(at) => Some(at + 1),
        None => None,
    }
}

/// Where the first line feed is.
fn line_feed(bytes: &[u8]) -> Option<usize>
    ensures at { result ≡ position (λ byte. byte == 10) bytes.now }
    ensures within { IfSome result (λ at. at < length bytes.now) }
{
    bytes.iter().position(|byte| *byte == b'\n')
}

/// Whether the client closed.
fn closes_client(event: &Event) -> bool
    ensures { result ≡ client_closes event.now }
{
    match event {
        Event::Closed { side: Side::Client } => true,
        _ => false,
    }
}

/// The client's bytes in it.
fn client_piece(event: &Event) -> &[u8]
    ensures { result.now ≡ piece_in event.now }
{
    match event {
        Event::Piece {
            side: Side::Client,
            bytes,
        } => bytes.as_slice(),
        _ => &[],
    }
}

/// Whether it ends the conversation.
fn kills(reply: &Reply) -> bool
    ensures { result ≡ is_kill reply.now }
{
    match reply {
        Reply::Kill => true,
        _ => false,
    }
}

/// Echoes the line, if the reply says so.
fn echo(reply: &Reply, line: Bytes, out: &mut Vec<Command>) -> Result<(), NoMemory>
    ensures { OnOk result (out.new.items ≡ out.old.items ++ echoed reply.now line) }
{
    if let Reply::Go { .. } = reply {
        out.push(Command::Send {
            side: Side::Client,
            bytes: line,
        })?;
    }
    Ok(())
}

impl Layer for LineEcho {
    ghost use Rattle.std.specs.Prelude.{ℕ, List, false, length};
    ghost use Rattle.px_toy.specs.Echo.{ask_about};
    ghost use Rattle.px_toy.specs.Stands.{EchoStands, awaits, is_over};

    ghost stands = { EchoStands };

    ghost awaited = { awaits };

    ghost left = { λ echo. length echo.unread.items };

    ghost rate = { λ echo. 1 };

    ghost kept = { λ echo. length echo.unread.items };

    ghost keeps_no_body = { λ echo. false };

    ghost ended = { λ echo. is_over echo.phase };

    fn take(&mut self, _moment: u64, event: Event, out: &mut Vec<Command>) -> Result<(), NoMemory> {
        self.hear(&event, out)
    }

    fn resume(
        &mut self,
        _moment: u64,
        reply: Reply,
        out: &mut Vec<Command>,
    ) -> Result<(), NoMemory> {
        self.answer(&reply, out)
    }

    fn waiting(&self) -> Option<Ask> {
        match self.phase {
            Phase::Asked(_) => Some(self.ask()),
            _ => None,
        }
    }

    fn kept(&self) -> usize {
        self.unread.len()
    }

    fn ended(&self) -> bool {
        self.phase == Phase::Over
    }
}
