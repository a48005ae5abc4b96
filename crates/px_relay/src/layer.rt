//! The layer: both sides, and the message that is asked about.
//!
//! Bytes of a side are read into frames, which wait in its queue and are worked off one by one, until a message is whole. It is asked
//! about, and the frames behind it wait for the answer. At a move the client's frames go before the server's; so what was left of the
//! server's bytes when the WebSocket begins is read behind the client's last frame.
ghost use Rattle.std.specs.Prelude.{◌≡◌, ◌≢◌, ◌≤◌, ◌<◌, ◌+◌, ◌-◌, ◌++◌, ℕ, Bool, true, false, [], None, OnOk, IfOk, IsOk, length, min, ◌^◌, if◌then◌else◌};
ghost use Rattle.rand_chacha.specs.ChaCha.{key_of};
ghost use Rattle.px_frame.specs.Head.{is_control};
ghost use Rattle.px_event.specs.Layer.{AsksOnly, weight};
ghost use Rattle.px_relay.specs.Calls.{AllWritable, IsWritable, PopsFrom, StaysBeside, WorksBy, asked_of, asking, close_of, closes_of, did_control, did_data, did_frame, did_message, ends_of, failed_of, finish_of, half_in, record_by, with_begun, with_record};
ghost use Rattle.px_relay.specs.Calls as call;
ghost use Rattle.px_relay.specs.Chain.{first_at, killed, most_whole, with_message};
ghost use Rattle.px_relay.specs.Kept.{sides_keep, ws_keeps, ws_left};
ghost use Rattle.px_relay.specs.Messages.{message_frames, payload_of};
ghost use Rattle.px_relay.specs.Sights.{no_rests, nothing_seen};
ghost use Rattle.px_relay.specs.Stages.{most_messages, relaying};
ghost use Rattle.px_relay.specs.Stands.{Answers, BeginsWith, ComesToRest, Drains, GoesOn, HearsClose, HearsEvent, HearsPending, HearsPiece, IsIn, Opens, SendsOn, Somewhere, TakesReply, WsStands, awaits, is_over, peer_in};

use crate::failure::Failure;
use crate::gathered::{Gathered, gather};
use crate::half::Half;
use crate::peer::Peer;
use crate::phase::{Held, Phase};
use crate::sender::Sender;
use px_event::{Ask, Command, Event, Hook, Reply, Rests, Side};
use px_frame::{Frame, FrameFault};
use px_message::{Flow, FlowError, Messages, Shared, WsMessage, WsRecord};
use px_text::{Bytes, NoMemory};
use std::alloc::Global;
use std::mem;

/// No message behind so many is relayed.
const MOST_MESSAGES: u64 = 1_000_000_000;

/// More messages than this are never whole.
const MOST_WHOLE: u64 = 1_000_000_002;

/// A WebSocket between the client and one server.
#[derive(Drop)]
pub struct WsLayer {
    alloc: Global,
    // with what is kept of its messages so far
    flow: Flow,
    sender: Sender,
    // what was left of both sides, until it begins
    rests: Rests,
    // what was left of the server, until the client's frames are worked off
    pending: Bytes,
    // whether each side has closed
    closed: bool,
    shut: bool,
    // of the call that it was handed last
    moment: u64,
    // how many messages were asked about
    messages: u64,
    client: Half,
    server: Half,
    phase: Phase,
}

impl WsLayer {
    /// A WebSocket of this flow, between the client and the server of this number, which is connected. What was left of the two sides
    /// is worked off when it begins. The frames to the server are masked by words of ChaCha20 with this key, in the stream of the
    /// conversation's number. Messages that the flow has are none of it: it begins without any.
    ///
    /// It stands for itself by no moves, and has given nothing. It takes no memory, so the answer is always Ok.
    pub fn new(
        alloc: Global,
        flow: Flow,
        server: u32,
        mask_key: [u8; 32],
        rests: Rests,
    ) -> Result<WsLayer, NoMemory>
        ensures ok { IsOk result }
        ensures rests { IfOk result (λ made. made.rests ≡ rests) }
        ensures relaying { IfOk result (λ made. IsIn (record { flow = flow; server = server; key = key_of mask_key }) made (relaying first_at) nothing_seen) }
        ensures phase { IfOk result (λ made. made.phase ≡ Phase.Relaying) }
        ensures somewhere { IfOk result (λ made. Somewhere made) }
        ensures stands { IfOk result (λ made. WsStands made made [] []) }
    {
        let sender = Sender::new(server, mask_key, flow.id.conv);
        let mut flow = flow;
        flow.messages = Messages::new(alloc);
        Ok(WsLayer {
            alloc,
            flow,
            sender,
            rests,
            pending: Bytes::empty(),
            closed: false,
            shut: false,
            moment: 0,
            messages: 0,
            client: Half::new(alloc, Peer::Client),
            server: Half::new(alloc, Peer::Server),
            phase: Phase::Relaying,
        })
    }

    /// Begins at this moment: works off what was left of both sides, the client's first. `shut` says whether the server has closed by then.
    pub fn begin(&mut self, moment: u64, shut: bool, out: &mut Vec<Command>) -> Result<(), NoMemory>
        requires somewhere { Somewhere self.old }
        requires relaying { self.old.phase ≡ Phase.Relaying }
        ensures begins { OnOk result (BeginsWith moment shut self.old self.new out.old.items out.new.items) }
        ensures somewhere { OnOk result (Somewhere self.new) }
        ensures asks { OnOk result (AsksOnly (awaits self.new) out.old.items out.new.items) }
        ensures left { OnOk result (ws_left self.new ≤ ws_left self.old) }
    {
        self.moment = moment;
        self.open(shut, out)
    }

    fn open(&mut self, shut: bool, out: &mut Vec<Command>) -> Result<(), NoMemory>
        requires relaying { self.old.phase ≡ Phase.Relaying }
        requires client { AllWritable self.old.client }
        requires server { AllWritable self.old.server }
        ensures opens { OnOk result (Opens shut self.old self.new out.old.items out.new.items) }
        ensures left { OnOk result (ws_left self.new ≤ ws_left self.old) }
    {
        let left = self.left();
        let Rests { client, server } = self.take_rests(shut);
        self.pending = lone(server);
        self.client.hear(self.alloc, client.as_slice(), left)?;
        self.go_on(out)
    }

    // What was left of both sides, where the server may have closed by then.
    fn take_rests(&mut self, shut: bool) -> Rests
        ensures value { result ≡ self.old.rests }
        ensures state { self.new ≡ record self.old { rests = no_rests; shut = if shut then true else self.old.shut } }
    {
        if shut {
            self.shut = true;
        }
        let none = Rests {
            client: Bytes::empty(),
            server: Bytes::empty(),
        };
        mem::replace(&mut self.rests, none)
    }

    /// Takes an event at this moment, while nothing is asked. After `NoMemory` the WebSocket may only be dropped.
    pub fn hear(
        &mut self,
        moment: u64,
        event: &Event,
        out: &mut Vec<Command>,
    ) -> Result<(), NoMemory>
        requires somewhere { Somewhere self.old }
        requires free { awaits self.old ≡ None }
        ensures hears { OnOk result (HearsEvent moment event.now self.old self.new out.old.items out.new.items) }
        ensures somewhere { OnOk result (Somewhere self.new) }
        ensures asks { OnOk result (AsksOnly (awaits self.new) out.old.items out.new.items) }
        ensures left { OnOk result (ws_left self.new ≤ ws_left self.old + weight event.now) }
    {
        self.hear_event(moment, event, out)
    }

    fn hear_event(
        &mut self,
        moment: u64,
        event: &Event,
        out: &mut Vec<Command>,
    ) -> Result<(), NoMemory>
        requires free { awaits self.old ≡ None }
        requires client { self.old.phase ≡ Phase.Relaying → AllWritable self.old.client }
        requires server { self.old.phase ≡ Phase.Relaying → AllWritable self.old.server }
        ensures hears { OnOk result (HearsEvent moment event.now self.old self.new out.old.items out.new.items) }
        ensures left { OnOk result (ws_left self.new ≤ ws_left self.old + weight event.now) }
    {
        if self.has_ended() {
            return Ok(());
        }
        self.moment = moment;
        match event {
            Event::Begun => self.open(false, out),
            Event::Piece { side, bytes } => self.hear_piece(*side, bytes, out),
            Event::Closed { side } => self.hear_close(*side, out),
            Event::Answered { .. } => Ok(()),
        }
    }

    /// Takes the reply to what is asked, at this moment. After `NoMemory` the WebSocket may only be dropped.
    pub fn answer(
        &mut self,
        moment: u64,
        reply: &Reply,
        out: &mut Vec<Command>,
    ) -> Result<(), NoMemory>
        requires somewhere { Somewhere self.old }
        requires asked { awaits self.old ≢ None }
        ensures answers { OnOk result (Answers moment reply.now self.old self.new out.old.items out.new.items) }
        ensures somewhere { OnOk result (Somewhere self.new) }
        ensures asks { OnOk result (AsksOnly (awaits self.new) out.old.items out.new.items) }
        ensures left { OnOk result (ws_left self.new < ws_left self.old) }
    {
        let Phase::Holding(held) = mem::replace(&mut self.phase, Phase::Relaying) else {
            unreachable!()
        };
        self.moment = moment;
        self.take_reply(held, reply, out)
    }
}

// The same bytes. Of none no share is kept in the piece that they were a part of.
fn lone(bytes: Bytes) -> Bytes
    ensures { result ≡ bytes }
{
    if bytes.is_empty() {
        return Bytes::empty();
    }
    bytes
}

// ---- what is seen of it

impl WsLayer {
    /// What is asked and not answered.
    pub(crate) fn awaited(&self) -> Option<Ask>
        ensures { result ≡ awaits self.now }
    {
        match &self.phase {
            Phase::Holding(held) => Some(self.ask_of(held.number)),
            _ => None,
        }
    }

    /// How many bytes it keeps, or 2^64 - 1 where that is more.
    pub(crate) fn size(&self) -> usize
        ensures { result ≡ min (ws_keeps self.now) (2 ^ 64 - 1) }
    {
        self.sides()
            .saturating_add(self.rests.client.len())
            .saturating_add(self.rests.server.len())
    }

    // Of both sides. Behind a message that is asked about the bytes of its side wait.
    fn sides(&self) -> usize
        ensures { result ≡ min (sides_keep self.now.phase self.now.client self.now.server) (2 ^ 64 - 1) }
    {
        match &self.phase {
            Phase::Holding(held) => held
                .message
                .payload
                .len()
                .saturating_add(self.half(held.from.other()).size()),
            _ => self.client.size().saturating_add(self.server.size()),
        }
    }

    fn half(&self, peer: Peer) -> &Half
        ensures { result.now ≡ half_in peer self.now }
    {
        match peer {
            Peer::Client => &self.client,
            Peer::Server => &self.server,
        }
    }

    /// Whether it has ended.
    pub(crate) fn has_ended(&self) -> bool
        ensures { result ≡ is_over self.now.phase }
    {
        match self.phase {
            Phase::Over => true,
            _ => false,
        }
    }
}

// ---- events

impl WsLayer {
    // Hears bytes of a side; of one that is none of its two nothing comes.
    fn hear_piece(
        &mut self,
        side: Side,
        bytes: &Bytes,
        out: &mut Vec<Command>,
    ) -> Result<(), NoMemory>
        requires relaying { self.old.phase ≡ Phase.Relaying }
        requires client { AllWritable self.old.client }
        requires server { AllWritable self.old.server }
        ensures hears { OnOk result (HearsPiece (peer_in self.old.sender.server side) bytes.now self.old self.new out.old.items out.new.items) }
        ensures left { OnOk result (ws_left self.new ≤ ws_left self.old + length bytes.now) }
    {
        match self.peer(side) {
            Some(Peer::Client) => self.hear_client(bytes.as_slice(), out),
            Some(Peer::Server) => self.hear_server(bytes.as_slice(), out),
            None => Ok(()),
        }
    }

    fn hear_client(&mut self, bytes: &[u8], out: &mut Vec<Command>) -> Result<(), NoMemory>
        requires relaying { self.old.phase ≡ Phase.Relaying }
        requires client { AllWritable self.old.client }
        requires server { AllWritable self.old.server }
        ensures hears { OnOk result (HearsPiece (Some Peer.Client) bytes.now self.old self.new out.old.items out.new.items) }
        ensures left { OnOk result (ws_left self.new ≤ ws_left self.old + length bytes.now) }
    {
        let left = self.left();
        self.client.hear(self.alloc, bytes, left)?;
        self.go_on(out)
    }

    fn hear_server(&mut self, bytes: &[u8], out: &mut Vec<Command>) -> Result<(), NoMemory>
        requires relaying { self.old.phase ≡ Phase.Relaying }
        requires client { AllWritable self.old.client }
        requires server { AllWritable self.old.server }
        ensures hears { OnOk result (HearsPiece (Some Peer.Server) bytes.now self.old self.new out.old.items out.new.items) }
        ensures left { OnOk result (ws_left self.new ≤ ws_left self.old + length bytes.now) }
    {
        let left = self.left();
        self.server.hear(self.alloc, bytes, left)?;
        self.go_on_server(out)
    }

    // Hears the close of a side; that of one that is none of its two is nothing.
    fn hear_close(&mut self, side: Side, out: &mut Vec<Command>) -> Result<(), NoMemory>
        requires relaying { self.old.phase ≡ Phase.Relaying }
        ensures hears { OnOk result (HearsClose (peer_in self.old.sender.server side) self.old self.new out.old.items out.new.items) }
        ensures left { OnOk result (ws_left self.new ≤ ws_left self.old) }
    {
        match self.peer(side) {
            Some(Peer::Client) => {
                self.closed = true;
                self.come_to_rest(out)
            }
            Some(Peer::Server) => {
                self.shut = true;
                self.come_to_rest(out)
            }
            None => Ok(()),
        }
    }

    fn peer(&self, side: Side) -> Option<Peer>
        ensures { result ≡ peer_in self.now.sender.server side }
    {
        match side {
            Side::Client => Some(Peer::Client),
            Side::Server(number) if number == self.sender.server => Some(Peer::Server),
            Side::Server(_) => None,
        }
    }

    // How many messages may still be completed.
    fn left(&self) -> u64
        ensures { result ≡ most_messages - self.now.messages }
    {
        MOST_MESSAGES.saturating_sub(self.messages)
    }
}

// ---- replies

impl WsLayer {
    fn take_reply(
        &mut self,
        held: Held,
        reply: &Reply,
        out: &mut Vec<Command>,
    ) -> Result<(), NoMemory>
        requires relaying { self.old.phase ≡ Phase.Relaying }
        requires client { AllWritable self.old.client }
        requires server { AllWritable self.old.server }
        ensures takes { OnOk result (TakesReply held reply.now self.old self.new out.old.items out.new.items) }
        ensures left { OnOk result (ws_left self.new ≤ ws_left self.old) }
    {
        match reply {
            Reply::Kill => {
                drop(held);
                self.kill(out)
            }
            Reply::Discard => self.discard(&held, out),
            _ => self.pass_on(&held, sent_payload(&held.message, reply), out),
        }
    }

    // Keeps a message as it was read, and goes on without sending it.
    fn discard(&mut self, held: &Held, out: &mut Vec<Command>) -> Result<(), NoMemory>
        requires relaying { self.old.phase ≡ Phase.Relaying }
        requires client { AllWritable self.old.client }
        requires server { AllWritable self.old.server }
        ensures goes { OnOk result (GoesOn held.now.from (with_record (record_by held.now held.now.message.payload true) self.old) self.new out.old.items out.new.items) }
        ensures rests { OnOk result (self.new.rests ≡ self.old.rests) }
        ensures left { OnOk result (ws_left self.new ≤ ws_left self.old) }
    {
        self.keep(held, &held.message.payload, true)?;
        self.go_on_from(held.from, out)
    }

    // Keeps a message with the payload that is sent, and sends it.
    fn pass_on(
        &mut self,
        held: &Held,
        payload: &Bytes,
        out: &mut Vec<Command>,
    ) -> Result<(), NoMemory>
        requires relaying { self.old.phase ≡ Phase.Relaying }
        requires client { AllWritable self.old.client }
        requires server { AllWritable self.old.server }
        ensures sends { OnOk result (SendsOn held.now.from (message_frames held.now.message payload.now) (with_record (record_by held.now payload.now false) self.old) self.new out.old.items out.new.items) }
        ensures left { OnOk result (ws_left self.new ≤ ws_left self.old) }
    {
        self.keep(held, payload, false)?;
        self.send_on(held, payload.as_slice(), out)
    }

    // Keeps a message that is answered, with this payload; `dropped` says whether it is not sent.
    fn keep(&mut self, held: &Held, payload: &Bytes, dropped: bool) -> Result<(), NoMemory>
        ensures { OnOk result (self.new ≡ with_record (record_by held.now payload.now dropped) self.old) }
    {
        self.flow.messages.push(WsRecord {
            from_client: held.from.is_client(),
            text: held.message.text,
            payload: payload.try_clone()?,
            moment: held.moment,
            dropped,
        })
    }

    // Sends a message on, with this payload.
    fn send_on(
        &mut self,
        held: &Held,
        payload: &[u8],
        out: &mut Vec<Command>,
    ) -> Result<(), NoMemory>
        requires relaying { self.old.phase ≡ Phase.Relaying }
        requires client { AllWritable self.old.client }
        requires server { AllWritable self.old.server }
        ensures sends { OnOk result (SendsOn held.now.from (message_frames held.now.message payload.now) self.old self.new out.old.items out.new.items) }
        ensures left { OnOk result (ws_left self.new ≤ ws_left self.old) }
    {
        self.sender
            .send_message(held.from.other(), &held.message, payload, out)?;
        self.go_on_from(held.from, out)
    }

    // Goes on behind a message of a side.
    fn go_on_from(&mut self, from: Peer, out: &mut Vec<Command>) -> Result<(), NoMemory>
        requires relaying { self.old.phase ≡ Phase.Relaying }
        requires client { AllWritable self.old.client }
        requires server { AllWritable self.old.server }
        ensures goes { OnOk result (GoesOn from self.old self.new out.old.items out.new.items) }
        ensures rests { OnOk result (self.new.rests ≡ self.old.rests) }
        ensures left { OnOk result (ws_left self.new ≤ ws_left self.old) }
    {
        match from {
            Peer::Client => self.go_on(out),
            Peer::Server => self.go_on_server(out),
        }
    }

    // Ends it with the flow killed.
    fn kill(&mut self, out: &mut Vec<Command>) -> Result<(), NoMemory>
        ensures over { OnOk result (self.new.phase ≡ Phase.Over) }
        ensures rests { OnOk result (self.new.rests ≡ self.old.rests) }
        ensures gives { OnOk result (out.new.items ≡ out.old.items ++ finish_of self.old (killed self.old.flow self.old.moment)) }
    {
        let flow = killed_copy(self.alloc, &self.flow, self.moment)?;
        self.finish(flow, out)
    }
}

// The payload that a reply sends: that of its message, if there is one, and it is no text that is no UTF-8 any more.
fn sent_payload<'a>(message: &'a Gathered, reply: &'a Reply) -> &'a Bytes
    ensures { result.now ≡ payload_of message.now reply.now }
{
    let Reply::Go { flow, .. } = reply else {
        return &message.payload;
    };
    let Some(changed) = &flow.message else {
        return &message.payload;
    };
    let changed = &changed.get().payload;
    if message.refuses(changed.as_slice()) {
        return &message.payload;
    }
    changed
}

fn killed_copy(alloc: Global, flow: &Flow, moment: u64) -> Result<Flow, NoMemory>
    ensures { IfOk result (λ copy. copy ≡ killed flow.now moment) }
{
    let mut copy = flow.try_clone()?;
    let error = FlowError {
        msg: Bytes::copied(alloc, b"killed")?,
        moment,
    };
    copy.error = Some(Shared::new(alloc, error)?);
    Ok(copy)
}

// ---- frames

impl WsLayer {
    // Works off the client's frames, and then the server's.
    fn go_on(&mut self, out: &mut Vec<Command>) -> Result<(), NoMemory>
        requires relaying { self.old.phase ≡ Phase.Relaying }
        requires client { AllWritable self.old.client }
        requires server { AllWritable self.old.server }
        ensures goes { OnOk result (GoesOn Peer.Client self.old self.new out.old.items out.new.items) }
        ensures rests { OnOk result (self.new.rests ≡ self.old.rests) }
        ensures left { OnOk result (ws_left self.new ≤ ws_left self.old) }
    {
        if !self.drain(Peer::Client, out)? {
            return Ok(());
        }
        self.hear_pending()?;
        self.go_on_server(out)
    }

    // Works off the server's frames, where the client's were.
    fn go_on_server(&mut self, out: &mut Vec<Command>) -> Result<(), NoMemory>
        requires relaying { self.old.phase ≡ Phase.Relaying }
        requires writable { AllWritable self.old.server }
        ensures goes { OnOk result (GoesOn Peer.Server self.old self.new out.old.items out.new.items) }
        ensures rests { OnOk result (self.new.rests ≡ self.old.rests) }
        ensures left { OnOk result (ws_left self.new ≤ ws_left self.old) }
    {
        if !self.drain(Peer::Server, out)? {
            return Ok(());
        }
        self.come_to_rest(out)
    }

    // Hears what was left of the server.
    fn hear_pending(&mut self) -> Result<(), NoMemory>
        requires relaying { self.old.phase ≡ Phase.Relaying }
        requires writable { AllWritable self.old.server }
        ensures hears { OnOk result (HearsPending self.old self.new) }
        ensures rests { OnOk result (self.new.rests ≡ self.old.rests) }
        ensures phase { OnOk result (self.new.phase ≡ Phase.Relaying) }
        ensures writable { OnOk result (AllWritable self.new.server) }
        ensures left { OnOk result (ws_left self.new ≤ ws_left self.old) }
    {
        if self.pending.is_empty() {
            return Ok(());
        }
        let left = self.left();
        let bytes = mem::replace(&mut self.pending, Bytes::empty());
        self.server.hear(self.alloc, bytes.as_slice(), left)
    }

    // Works off the frames of a side that wait, and says whether it goes on behind them.
    fn drain(&mut self, from: Peer, out: &mut Vec<Command>) -> Result<bool, NoMemory>
        requires relaying { self.old.phase ≡ Phase.Relaying }
        requires writable { AllWritable (half_in from self.old) }
        ensures drains { IfOk result (λ goes. Drains from self.old self.new goes out.old.items out.new.items) }
        ensures beside { IfOk result (λ goes. StaysBeside goes from self.old self.new) }
        ensures rests { OnOk result (self.new.rests ≡ self.old.rests) }
        ensures left { OnOk result (ws_left self.new ≤ ws_left self.old) }
    {
        'frames: while let Some(frame) = self.pop(from) {
            if !self.work(from, frame, out)? {
                return Ok(false);
            }
        }
        match self.fault(from) {
            Some(fault) => {
                self.fail(from, Failure::BadFrame(fault), out)?;
                Ok(false)
            }
            None => Ok(true),
        }
    }

    fn pop(&mut self, from: Peer) -> Option<Frame>
        ensures { PopsFrom from self.old self.new result }
    {
        match from {
            Peer::Client => self.client.pop(),
            Peer::Server => self.server.pop(),
        }
    }

    fn fault(&self, from: Peer) -> Option<FrameFault>
        ensures { result ≡ (half_in from self.now).fault }
    {
        match from {
            Peer::Client => self.client.fault,
            Peer::Server => self.server.fault,
        }
    }

    // Works off one frame of a side, and says whether it goes on behind it.
    fn work(&mut self, from: Peer, frame: Frame, out: &mut Vec<Command>) -> Result<bool, NoMemory>
        requires may { IsWritable frame }
        ensures { IfOk result (λ goes. WorksBy (did_frame from self.old frame) goes self.new out.old.items out.new.items) }
    {
        if frame.opcode >= 8 {
            return self.work_control(from, &frame, out);
        }
        self.work_data(from, frame, out)
    }

    fn work_control(
        &mut self,
        from: Peer,
        frame: &Frame,
        out: &mut Vec<Command>,
    ) -> Result<bool, NoMemory>
        requires may { IsWritable frame.now }
        requires control { is_control frame.now.opcode ≡ true }
        ensures { IfOk result (λ goes. WorksBy (did_control from self.old frame.now) goes self.new out.old.items out.new.items) }
    {
        if frame.opcode == 8 {
            self.close(from, frame.payload.as_slice(), out)?;
            return Ok(false);
        }
        self.sender.send(from.other(), frame, out)?;
        Ok(true)
    }

    fn work_data(
        &mut self,
        from: Peer,
        frame: Frame,
        out: &mut Vec<Command>,
    ) -> Result<bool, NoMemory>
        ensures { IfOk result (λ goes. WorksBy (did_data from self.old frame) goes self.new out.old.items out.new.items) }
    {
        let fin = frame.fin;
        let begun = self.take_begun(from);
        let message = gather(self.alloc, begun, frame)?;
        if fin {
            self.work_message(from, message, out)?;
            return Ok(false);
        }
        self.put_begun(from, message);
        Ok(true)
    }

    fn take_begun(&mut self, from: Peer) -> Option<Gathered>
        ensures value { result ≡ (half_in from self.old).begun }
        ensures state { self.new ≡ with_begun from None self.old }
    {
        match from {
            Peer::Client => mem::replace(&mut self.client.begun, None),
            Peer::Server => mem::replace(&mut self.server.begun, None),
        }
    }

    fn put_begun(&mut self, from: Peer, message: Gathered)
        ensures { self.new ≡ with_begun from (Some message) self.old }
    {
        match from {
            Peer::Client => self.client.begun = Some(message),
            Peer::Server => self.server.begun = Some(message),
        }
    }

    // A whole message: asks about it, unless it is a text and no UTF-8.
    fn work_message(
        &mut self,
        from: Peer,
        message: Gathered,
        out: &mut Vec<Command>,
    ) -> Result<(), NoMemory>
        ensures { OnOk result (WorksBy (did_message from self.old message) false self.new out.old.items out.new.items) }
    {
        if message.refuses(message.payload.as_slice()) {
            drop(message);
            return self.fail(from, Failure::NotText, out);
        }
        if self.messages >= MOST_WHOLE {
            drop(message);
            return self.fail(from, Failure::BadFrame(FrameFault::TooBig), out);
        }
        self.ask(from, message, out)
    }

    fn ask(&mut self, from: Peer, message: Gathered, out: &mut Vec<Command>) -> Result<(), NoMemory>
        requires few { self.old.messages < most_whole }
        ensures state { OnOk result (self.new ≡ asking from message self.old) }
        ensures gives { OnOk result (out.new.items ≡ out.old.items ++ asked_of from message self.old) }
    {
        let number = self.messages;
        let flow = self.flow_with(from, &message)?;
        out.push(Command::Ask {
            ask: self.ask_of(number),
            flow,
        })?;
        self.messages = number + 1;
        self.phase = Phase::Holding(Held {
            from,
            number,
            moment: self.moment,
            message,
        });
        Ok(())
    }

    fn ask_of(&self, number: u64) -> Ask
        ensures { result ≡ call.ask_of self.now number }
    {
        Ask::Hook {
            flow: self.flow.id.index,
            hook: Hook::WsMessage(number),
        }
    }

    // A copy of the flow with the message.
    fn flow_with(&self, from: Peer, message: &Gathered) -> Result<Flow, NoMemory>
        ensures { IfOk result (λ copy. copy ≡ with_message self.now.flow from message.now) }
    {
        let mut copy = self.flow.try_clone()?;
        let message = WsMessage {
            from_client: from.is_client(),
            text: message.text,
            payload: message.payload.try_clone()?,
        };
        copy.message = Some(Shared::new(self.alloc, message)?);
        Ok(copy)
    }
}

// ---- the end

impl WsLayer {
    // Where no frame waits: a side that has closed ends it.
    fn come_to_rest(&mut self, out: &mut Vec<Command>) -> Result<(), NoMemory>
        requires relaying { self.old.phase ≡ Phase.Relaying }
        ensures comes { OnOk result (ComesToRest self.old self.new out.old.items out.new.items) }
        ensures rests { OnOk result (self.new.rests ≡ self.old.rests) }
        ensures left { OnOk result (ws_left self.new ≤ ws_left self.old) }
    {
        if self.closed {
            return self.end(out);
        }
        if self.shut {
            return self.end(out);
        }
        Ok(())
    }

    // Tells the failure to both peers, and ends it.
    fn fail(&mut self, from: Peer, failure: Failure, out: &mut Vec<Command>) -> Result<(), NoMemory>
        ensures over { OnOk result (self.new.phase ≡ Phase.Over) }
        ensures rests { OnOk result (self.new.rests ≡ self.old.rests) }
        ensures gives { OnOk result (out.new.items ≡ out.old.items ++ failed_of from self.old failure) }
    {
        self.close(from, &failure.payload(), out)
    }

    // Sends a Close frame to both peers, and ends it.
    fn close(&mut self, from: Peer, payload: &[u8], out: &mut Vec<Command>) -> Result<(), NoMemory>
        requires short { length payload.now ≤ 125 }
        ensures over { OnOk result (self.new.phase ≡ Phase.Over) }
        ensures rests { OnOk result (self.new.rests ≡ self.old.rests) }
        ensures gives { OnOk result (out.new.items ≡ out.old.items ++ close_of from self.old payload.now) }
    {
        self.sender.close_both(from, payload, out)?;
        self.end(out)
    }

    fn end(&mut self, out: &mut Vec<Command>) -> Result<(), NoMemory>
        ensures over { OnOk result (self.new.phase ≡ Phase.Over) }
        ensures rests { OnOk result (self.new.rests ≡ self.old.rests) }
        ensures gives { OnOk result (out.new.items ≡ out.old.items ++ ends_of self.old) }
    {
        let flow = self.flow.try_clone()?;
        self.finish(flow, out)
    }

    // Tells the finished flow, and closes each side that has not closed.
    fn finish(&mut self, flow: Flow, out: &mut Vec<Command>) -> Result<(), NoMemory>
        ensures over { OnOk result (self.new.phase ≡ Phase.Over) }
        ensures rests { OnOk result (self.new.rests ≡ self.old.rests) }
        ensures gives { OnOk result (out.new.items ≡ out.old.items ++ finish_of self.old flow) }
    {
        out.push(Command::Done { flow })?;
        self.close_sides(out)?;
        self.phase = Phase::Over;
        Ok(())
    }

    fn close_sides(&self, out: &mut Vec<Command>) -> Result<(), NoMemory>
        ensures { OnOk result (out.new.items ≡ out.old.items ++ closes_of self.now) }
    {
        if !self.shut {
            out.push(Command::Close {
                side: Side::Server(self.sender.server),
            })?;
        }
        if !self.closed {
            out.push(Command::Close { side: Side::Client })?;
        }
        Ok(())
    }
}
