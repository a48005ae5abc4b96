//! The tunnel: the bytes that it was handed, until it begins, and whether a side has closed.
ghost use Rattle.std.specs.Prelude.{◌≡◌, ℕ, ◌-◌, ◌^◌, false, None, ◌++◌, [], IsOk, OnOk, IfOk, min};
ghost use Rattle.px_event.specs.Layer.{Took, Goes, AsksOnly};
ghost use Rattle.px_event.specs.declared.side.Side.TheVariants.{Client as OfClient, Server as OfServer};
ghost use Rattle.px_tunnel.specs.Tunnel.{across as is_across, left_alone, left_behind, no_rests};
ghost use Rattle.px_tunnel.specs.Stands.{TunnelStands, closing, given_for, has_ended, is_alone, kept_in, rests_of, sent, sent_to, server_of};

use px_event::{Command, Event, Rests, Side};
use px_text::{Bytes, NoMemory};
use std::mem;

/// A tunnel between the client and one server.
#[derive(Debug, Drop)]
pub struct RawTunnel {
    server: u32,
    // what was left of both sides, until it begins
    rests: Rests,
    // whether a side has closed: then it is over
    closed: bool,
}

impl RawTunnel {
    /// A tunnel between the client and the server of this dial, which is connected. What was left of the two sides is sent
    /// when it begins. It stands for itself by no moves, and has given nothing.
    ///
    /// It takes no memory, so the answer is always Ok.
    pub fn new(server: u32, rests: Rests) -> Result<RawTunnel, NoMemory>
        ensures ok { IsOk result }
        ensures server { IfOk result (λ made. server_of made ≡ server) }
        ensures rests { IfOk result (λ made. rests_of made ≡ rests) }
        ensures open { IfOk result (λ made. has_ended made ≡ false) }
        ensures stands { IfOk result (λ made. TunnelStands made made [] []) }
    {
        Ok(RawTunnel {
            server,
            rests,
            closed: false,
        })
    }

    /// Takes an event, and appends the commands that follow; once it is over nothing follows. It asks nothing. After
    /// `NoMemory` the tunnel may only be dropped.
    pub fn take(&mut self, event: &Event, out: &mut Vec<Command>) -> Result<(), NoMemory>
        ensures goes { (moment : ℕ) → OnOk result (Goes TunnelStands self.old self.new (Took moment event.now) out.old.items out.new.items) }
        ensures asks { OnOk result (AsksOnly None out.old.items out.new.items) }
    {
        if self.closed {
            return Ok(());
        }
        self.go_on(event, out)?;
        Ok(())
    }

    /// Takes an event, where no side has closed, for a layer whose own chain goes on with this one: what it gives hangs on the event and
    /// on what is left of the sides alone. After `NoMemory` the tunnel may only be dropped.
    pub fn go_on(&mut self, event: &Event, out: &mut Vec<Command>) -> Result<(), NoMemory>
        requires { has_ended self.old ≡ false }
        ensures server { server_of self.new ≡ server_of self.old }
        ensures rests { OnOk result (rests_of self.new ≡ left_behind (rests_of self.old) event.now) }
        ensures closed { OnOk result (has_ended self.new ≡ is_alone (left_alone (server_of self.old) event.now)) }
        ensures gives { OnOk result (out.new.items ≡ out.old.items ++ given_for (server_of self.old) (rests_of self.old) event.now) }
    {
        match event {
            Event::Begun => self.begin(out),
            Event::Piece { side, bytes } => self.hand_on(*side, bytes, out),
            Event::Closed { side } => self.close_across(*side, out),
            Event::Answered { .. } => Ok(()),
        }
    }

    /// How many bytes it keeps, or 2^64 - 1 where that is more.
    pub fn kept(&self) -> usize
        ensures { result ≡ min (kept_in self.now) (2 ^ 64 - 1) }
    {
        self.rests
            .client
            .len()
            .saturating_add(self.rests.server.len())
    }

    /// Whether it is over: a side has closed.
    pub fn ended(&self) -> bool
        ensures { result ≡ has_ended self.now }
    {
        self.closed
    }

    /// Sends what was left of both sides, the client's first.
    fn begin(&mut self, out: &mut Vec<Command>) -> Result<(), NoMemory>
        ensures server { self.new.server ≡ self.old.server }
        ensures rests { self.new.rests ≡ no_rests }
        ensures closed { self.new.closed ≡ self.old.closed }
        ensures gives { OnOk result (out.new.items ≡ out.old.items ++ (sent (OfServer self.old.server) self.old.rests.client ++ sent OfClient self.old.rests.server)) }
    {
        let client = mem::replace(&mut self.rests.client, Bytes::empty());
        let server = mem::replace(&mut self.rests.server, Bytes::empty());
        send(Side::Server(self.server), client, out)?;
        send(Side::Client, server, out)
    }

    /// Hands a piece of one side on to the other.
    fn hand_on(&self, from: Side, bytes: &Bytes, out: &mut Vec<Command>) -> Result<(), NoMemory>
        ensures { OnOk result (out.new.items ≡ out.old.items ++ sent_to (is_across self.now.server from) bytes.now) }
    {
        match self.across(from) {
            Some(to) => send(to, bytes.try_clone()?, out),
            None => Ok(()),
        }
    }

    /// Closes the other side of one that closed; then it is over.
    fn close_across(&mut self, side: Side, out: &mut Vec<Command>) -> Result<(), NoMemory>
        requires { self.old.closed ≡ false }
        ensures server { self.new.server ≡ self.old.server }
        ensures rests { self.new.rests ≡ self.old.rests }
        ensures closed { OnOk result (self.new.closed ≡ is_alone (is_across self.old.server side)) }
        ensures gives { OnOk result (out.new.items ≡ out.old.items ++ closing (is_across self.old.server side)) }
    {
        let Some(alone) = self.across(side) else {
            return Ok(());
        };
        out.push(Command::Close { side: alone })?;
        self.closed = true;
        Ok(())
    }

    /// The other side of the tunnel; of a side that is none of its two there is none.
    fn across(&self, side: Side) -> Option<Side>
        ensures { result ≡ is_across self.now.server side }
    {
        match side {
            Side::Client => Some(Side::Server(self.server)),
            Side::Server(number) if number == self.server => Some(Side::Client),
            Side::Server(_) => None,
        }
    }
}

/// Sends bytes to a side, if there are any.
fn send(side: Side, bytes: Bytes, out: &mut Vec<Command>) -> Result<(), NoMemory>
    ensures { OnOk result (out.new.items ≡ out.old.items ++ sent side bytes) }
{
    if bytes.is_empty() {
        return Ok(());
    }
    out.push(Command::Send { side, bytes })?;
    Ok(())
}
