//! One flow after the other: the readers of both sides, and where the present flow stands.
//!
//! Each event goes to the reader of its side. Then the flow goes on as far as it needs no answer, where a response is streamed, and looks once: where
//! it finds an ask it waits, and where it finds the end it says what is owed there. A reply leads to what is looked for next; where a flow is finished that is the next one's head.
//!
//! One server's side is open at most: the flow's own, or one that is parked, of which nothing is read, until a request goes there,
//! another server is dialled, or a byte or the close of it comes.
ghost use Rattle.std.specs.Prelude.{◌≡◌, ◌≤◌, ◌<◌, ◌+◌, ◌-◌, ◌^◌, ◌++◌, ℕ, List, [], ⊤, true, false, None, IfOk, OnOk, min, option_map};
ghost use Rattle.px_event.specs.Chain.{Timed};
ghost use Rattle.px_event.specs.Layer.{AsksOnly, MayAnswer};
ghost use Rattle.px_event.specs.declared.event.Event.{Event as Heard};
ghost use Rattle.px_bounds.specs.Bounds.{kept_below};
ghost use Rattle.px_read.specs.Reader.{before_all, keeps, request};
ghost use Rattle.px_exchange.specs.Places.{terms_of};
ghost use Rattle.px_exchange.specs.declared.terms.Terms.{Terms as Made};
ghost use Rattle.px_chain.specs.Chain.{begin as first, look as look_at};
ghost use Rattle.px_chain.specs.Sights.{Standing, sight_over};
ghost use Rattle.px_chain.specs.Stages.{At as Stood, busy, idle};
ghost use Rattle.px_stream.specs.Heard.{SideAgrees, parked_behind, shut_if, shut_waiting, stray_in};
ghost use Rattle.px_stream.specs.Anywhere.{Begins, GoesOnWith, HearsWaiting, IsInSequence, IsNew, Reaches, ResumesAnywhere, Somewhere, TakesAnywhere, doing_by};
ghost use Rattle.px_stream.specs.Rests.{LeavesRests};
ghost use Rattle.px_stream.specs.Stands.{IsAt, IsSome, awaited_in, awaits, is_last, stage_of, used_in};
ghost use Rattle.px_stream.specs.Tells.{KeepsLittle, keeps_no_body, keeps_no_request, keeps_no_response, side_keeps, IsDialling, IsSideBelow, asked_tunnel, dialled_flow, is_end, is_idle, led_by, led_to, open_parked, outcome_at, outcome_in, phase_flow, sequence_left, server_dialled, side_rest, stream_keeps, upgraded_side, uses_side};
ghost use Rattle.px_stream.specs.GoingUp.{GoesUpOnce, MayGoUp};
ghost use Rattle.px_stream.specs.Passes.{Advances, MayPass, PassesOnce, is_passing};
ghost use Rattle.px_stream.specs.Turns.{Hears, LooksOnce, TurnsTo, is_dial, requests_behind, side_behind, with_open};
ghost use Rattle.px_stream.specs.Looks.{MayLook};

use crate::at::{At, Kept};
use crate::following::{follow_requests, follow_side, is_dial};
use crate::hearing::hear;
use crate::leaving::{enter, take_asked, take_looked};
use crate::link::{self, Link};
use crate::looking::look;
use crate::passing::{is_passing, pass, pass_request, sends_on};
use crate::phase::{Asked, Phase, Wanted};
use crate::sizes::{content_len, held_len, side_size, uses_side};
use crate::turning::turn;
use px_event::{Ask, Command, Event, Reply, Rests, Side};
use px_exchange::ending::Used;
use px_exchange::flows::address_of;
use px_exchange::said::close;
use px_exchange::terms::{Now, Terms};
use px_exchange::{Boxed, Outcome, Place};
use px_message::{Address, Flow, FlowId};
use px_read::MessageReader;
use px_text::{Bytes, NoMemory};
use std::alloc::Global;

/// The flows of a conversation, one after the other.
#[derive(Drop)]
pub struct Stream {
    alloc: Global,
    terms: Terms,
    at: At,
    requests: MessageReader,
    client_closed: bool,
    side: Option<Link>,
    phase: Phase,
}

impl Stream {
    /// The flows of a client there, whose requests go to this place. The first one has this number, and the next server that is dialled is the
    /// one of number `next_server`. Where a side is kept from before, its number is below that one, and the first request that goes to its
    /// address takes it. Bodies are streamed where an answer allows it and `streams` says so.
    ///
    /// It stands where flows in sequence begin, and awaits nothing.
    pub fn new(
        alloc: Global,
        id: FlowId,
        client: Option<Address>,
        place: Place,
        kept: Option<Kept>,
        next_server: u32,
        streams: bool,
    ) -> Result<Stream, NoMemory>
        requires few { id.index < 1000000 }
        requires side { IsSideBelow kept next_server }
        ensures stands { IfOk result (λ made. (ahead : ℕ) → next_server ≤ id.index + ahead → ahead ≤ 1 →
            IsInSequence made.terms ahead made (first (idle made.at)) []) }
        ensures terms { IfOk result (λ made. made.terms ≡ record (terms_of id.conv client place) { streams = streams }) }
        ensures at { IfOk result (λ made. made.at ≡ record { flow = id.index; dials = next_server; parked = kept }) }
        ensures new { IfOk result (λ made. IsNew made) }
        ensures free { IfOk result (λ made. awaits made ≡ None) }
    {
        let side = link::unheard(alloc, &kept);
        Ok(Stream {
            alloc,
            terms: Terms {
                conv: id.conv,
                client,
                place,
                streams,
            },
            at: At {
                flow: id.index,
                dials: next_server,
                parked: kept,
            },
            requests: MessageReader::request(alloc),
            client_closed: false,
            side,
            phase: Phase::Ready(Wanted::Idle),
        })
    }

    /// What became of it: a CONNECT was read in place of a flow; another protocol follows the flow; the conversation has ended; or it goes
    /// on, since behind a finished flow the next one begins.
    pub fn outcome(&self) -> Outcome
        ensures phase { result ≡ outcome_in self.now.phase }
        ensures ended { is_last self.now.phase ≡ is_end result }
        ensures of_walk { (made : Made) (ahead : ℕ) (place : Standing) (prefix : List (Timed Heard)) → IsInSequence made ahead self.now place prefix →
            result ≡ outcome_at made.place (look_at made place.stage (sight_over place prefix)) place.stage (sight_over place prefix) }
    {
        match &self.phase {
            Phase::Ready(Wanted::Connects { .. }) => Outcome::Connects,
            Phase::Ready(Wanted::Upgraded { .. }) => Outcome::Upgraded,
            Phase::Ready(Wanted::Over) => Outcome::Over,
            Phase::Ready(_) => Outcome::Going,
            Phase::Asked(_) => Outcome::Going,
        }
    }

    /// Whether nothing more will come of it: exactly where its outcome is not `Going`.
    pub fn ended(&self) -> bool
        ensures { result ≡ is_last self.now.phase }
    {
        match &self.phase {
            Phase::Ready(Wanted::Connects { .. }) => true,
            Phase::Ready(Wanted::Upgraded { .. }) => true,
            Phase::Ready(Wanted::Over) => true,
            Phase::Ready(_) => false,
            Phase::Asked(_) => false,
        }
    }

    /// Whether the head of a request is awaited: the flow before is finished.
    pub fn is_idle(&self) -> bool
        ensures { result ≡ is_idle self.now.phase }
    {
        match &self.phase {
            Phase::Ready(Wanted::Idle) => true,
            Phase::Ready(_) => false,
            Phase::Asked(_) => false,
        }
    }

    /// Where a CONNECT asks for a tunnel to: exactly where the outcome is `Connects`.
    pub fn connects(&self) -> Option<&Address>
        ensures { option_map (λ address. address.now) result ≡ asked_tunnel self.now.phase }
    {
        match &self.phase {
            Phase::Ready(Wanted::Connects { address }) => Some(address),
            _ => None,
        }
    }

    /// The server's side on which another protocol follows: exactly where the outcome is `Upgraded`.
    pub fn upgraded(&self) -> Option<Used>
        ensures { result ≡ upgraded_side self.now.phase self.now.side }
    {
        match &self.phase {
            Phase::Ready(Wanted::Upgraded { server, .. }) => Some(Used::ByServer {
                number: *server,
                closed: link::is_closed(&self.side),
            }),
            _ => None,
        }
    }

    /// Where its requests go.
    pub fn place(&self) -> &Place
        ensures { result.now ≡ self.now.terms.place }
    {
        &self.terms.place
    }

    /// The number of the present flow, or of the next one where none has begun, and of the next server.
    pub fn at(&self) -> &At
        ensures { result.now ≡ self.now.at }
    {
        &self.at
    }

    /// Whether the client has closed.
    pub fn client_closed(&self) -> bool
        ensures { result ≡ self.now.client_closed }
    {
        self.client_closed
    }

    /// The number of the parked side, if there is one that is kept still: neither a byte nor the close of it was heard.
    pub fn parked(&self) -> Option<u32>
        ensures { result ≡ open_parked self.now.at.parked self.now.side }
    {
        open_parked(&self.at.parked, &self.side)
    }

    /// What is awaited.
    pub fn waiting(&self) -> Option<Ask>
        ensures { result ≡ awaits self.now }
    {
        self.phase.waiting()
    }

    /// How many bytes it keeps, or 2^64 - 1 where that is more: what its readers keep, the content that has come of the body that it
    /// reads, what is held beside that of a message that may yet be streamed, and the text of a request that waits for its server. The flow does not count, nor do bytes that wait behind
    /// a message. Of a side that is parked nothing is kept.
    ///
    /// Where nothing is awaited, a direction that keeps no body keeps fewer than 65,536 + 1,024 bytes, whatever was heard and however long the messages are; so where neither keeps one, all are at most
    /// twice as many.
    pub fn kept(&self) -> usize
        ensures kept { result ≡ min (stream_keeps self.now) (2 ^ 64 - 1) }
        ensures client { (made : Made) (place : Standing) (prefix : List (Timed Heard)) → IsAt made self.now place prefix → keeps_no_request self.now.phase ≡ true → keeps self.now.requests < kept_below }
        ensures server { (made : Made) (place : Standing) (prefix : List (Timed Heard)) → IsAt made self.now place prefix → keeps_no_response self.now.phase ≡ true →
            side_keeps (uses_side self.now.phase) self.now.side < kept_below }
        ensures bound { (made : Made) (place : Standing) (prefix : List (Timed Heard)) → IsAt made self.now place prefix → keeps_no_body self.now.phase ≡ true →
            KeepsLittle self.now }
    {
        let side = side_size(uses_side(&self.phase), &self.side);
        let body = content_len(&self.phase).saturating_add(held_len(&self.phase));
        self.requests
            .kept()
            .saturating_add(body.saturating_add(side))
    }

    /// Hears what the client sent behind what others read of it, before the stream was made, and whether it has closed, and what the
    /// side that is parked sent behind what others read of that; and looks once. Where that side sent anything, it is closed, and kept no more; where it sent nothing, it is parked still.
    /// A stream that was handed something already may not begin so.
    ///
    /// It is then where the chain of flows in sequence is that begins there, over all events, and gave what is owed there.
    pub fn begin(
        &mut self,
        moment: u64,
        closed: bool,
        rest: &Bytes,
        waiting: &Bytes,
        out: &mut Vec<Command>,
    ) -> Result<(), NoMemory>
        requires new { IsNew self.old }
        ensures begins { OnOk result (Begins self.old self.new moment closed rest.now waiting.now out.old.items out.new.items) }
        ensures asks { OnOk result (AsksOnly (awaits self.new) out.old.items out.new.items) }
        ensures left { OnOk result (sequence_left self.new ≤ sequence_left self.old) }
    {
        self.client_closed = closed;
        self.requests.feed(rest)?;
        self.hear_parked(waiting, out)?;
        self.advance(moment, Wanted::Idle, out)
    }

    /// Goes on with a flow whose request others have read and asked about: its server is dialled, or the response that was given in place
    /// of the server's goes through both hooks. It looks once. A stream that was handed something already may not go on so.
    ///
    /// It is then where the chain of flows in sequence is that has such a flow at that place, over all events, and gave what is owed there.
    pub fn go_on_with(
        &mut self,
        moment: u64,
        flow: Boxed<Flow>,
        out: &mut Vec<Command>,
    ) -> Result<(), NoMemory>
        requires new { IsNew self.old }
        ensures goes_on { OnOk result (GoesOnWith self.old self.new moment flow out.old.items out.new.items) }
        ensures asks { OnOk result (AsksOnly (awaits self.new) out.old.items out.new.items) }
        ensures left { OnOk result (sequence_left self.new ≤ sequence_left self.old) }
    {
        self.requests = MessageReader::behind(self.alloc);
        self.advance(moment, wanted_for(flow), out)
    }

    /// Takes an event, wherever it stands: also where something else came before its flows in the same conversation.
    pub fn take_anywhere(
        &mut self,
        moment: u64,
        event: &Event,
        out: &mut Vec<Command>,
    ) -> Result<(), NoMemory>
        requires somewhere { Somewhere self.old }
        requires free { awaits self.old ≡ None }
        ensures takes { OnOk result (TakesAnywhere self.old self.new moment event.now out.old.items out.new.items) }
        ensures asks { OnOk result (AsksOnly (awaits self.new) out.old.items out.new.items) }
        ensures left { OnOk result (sequence_left self.new ≤ sequence_left self.old) }
    {
        if self.ended() {
            return Ok(());
        }
        self.hear_told(event, out)?;
        let ready = take_looked(&mut self.phase);
        self.advance(moment, ready, out)
    }

    // Its readers hear the event, and a parked side of which a byte comes is closed.
    fn hear_told(&mut self, event: &Event, out: &mut Vec<Command>) -> Result<(), NoMemory>
        requires open_still { self.old.requests.closed ≡ false }
        requires agrees { SideAgrees self.old.side }
        ensures hears { OnOk result (Hears (uses_side self.old.phase) self.old self.new event.now) }
        ensures gives { OnOk result (out.new.items ≡ out.old.items ++ shut_if (stray_in (uses_side self.old.phase) event.now self.old.side)) }
        ensures phase { self.new.phase ≡ self.old.phase }
    {
        let stray = self.hear(event)?;
        close_stray(stray, out)
    }

    // Its readers hear the event. The number of a parked side of which a byte comes.
    fn hear(&mut self, event: &Event) -> Result<Option<u32>, NoMemory>
        requires open_still { self.old.requests.closed ≡ false }
        requires agrees { SideAgrees self.old.side }
        ensures hears { OnOk result (Hears (uses_side self.old.phase) self.old self.new event.now) }
        ensures stray { IfOk result (λ stray. stray ≡ stray_in (uses_side self.old.phase) event.now self.old.side) }
        ensures phase { self.new.phase ≡ self.old.phase }
    {
        let uses = uses_side(&self.phase);
        hear(
            &mut self.requests,
            &mut self.client_closed,
            uses,
            &mut self.side,
            event,
        )
    }

    // The parked side, if there is one, has sent this behind what others read of it. Where that is a byte or more, the side is closed.
    fn hear_parked(&mut self, waiting: &Bytes, out: &mut Vec<Command>) -> Result<(), NoMemory>
        ensures hears { OnOk result (self.new ≡ record self.old { side = parked_behind waiting.now self.old.at.parked self.old.side }) }
        ensures gives { OnOk result (out.new.items ≡ out.old.items ++ shut_waiting waiting.now self.old.at.parked self.old.side) }
    {
        match &self.at.parked {
            Some(parked) => {
                let stray = link::hear_stray(&mut self.side, parked.side, waiting);
                close_stray(stray, out)
            }
            None => Ok(()),
        }
    }

    // Goes on without an answer, and looks.
    fn advance(
        &mut self,
        moment: u64,
        ready: Wanted,
        out: &mut Vec<Command>,
    ) -> Result<(), NoMemory>
        requires goes_up { MayGoUp ready self.old.requests }
        requires passes { MayPass self.old.at ready self.old.side }
        requires looks { is_passing ready ≡ false → MayLook ready self.old.requests self.old.side }
        ensures { OnOk result (Advances self.old self.new moment ready out.old.items out.new.items) }
    {
        if sends_on(&ready) {
            return self.send_on(moment, ready, out);
        }
        self.look(moment, ready, out)
    }

    // Sends on what came of a request and of a response, and looks.
    fn send_on(
        &mut self,
        moment: u64,
        ready: Wanted,
        out: &mut Vec<Command>,
    ) -> Result<(), NoMemory>
        requires goes_up { MayGoUp ready self.old.requests }
        requires passes { MayPass self.old.at ready self.old.side }
        requires looks { is_passing ready ≡ false → MayLook ready self.old.requests self.old.side }
        ensures { OnOk result (Advances self.old self.new moment ready out.old.items out.new.items) }
    {
        let ready = self.go_up(moment, ready, out)?;
        let ready = self.pass(moment, ready, out)?;
        self.look(moment, ready, out)
    }

    // Sends on what came of a request that is streamed.
    fn go_up(
        &mut self,
        moment: u64,
        ready: Wanted,
        out: &mut Vec<Command>,
    ) -> Result<Wanted, NoMemory>
        requires { MayGoUp ready self.old.requests }
        ensures { IfOk result (λ next. GoesUpOnce self.old self.new moment ready next out.old.items out.new.items) }
    {
        let now = self.now(moment);
        pass_request(
            &self.terms.place,
            now,
            &mut self.at,
            &mut self.requests,
            &mut self.side,
            ready,
            out,
        )
    }

    // Goes on without an answer: its readers are then where what follows is looked for.
    fn pass(
        &mut self,
        moment: u64,
        ready: Wanted,
        out: &mut Vec<Command>,
    ) -> Result<Wanted, NoMemory>
        requires { MayPass self.old.at ready self.old.side }
        ensures { IfOk result (λ next. PassesOnce self.old self.new moment ready next out.old.items out.new.items) }
    {
        if !is_passing(&ready) {
            return Ok(ready);
        }
        let now = self.now(moment);
        let next = pass(
            &self.terms.place,
            now,
            &mut self.at,
            &mut self.side,
            ready,
            out,
        )?;
        self.follow(false, next)
    }

    // Looks, where no answer is awaited.
    fn look(&mut self, moment: u64, ready: Wanted, out: &mut Vec<Command>) -> Result<(), NoMemory>
        requires { MayLook ready self.old.requests self.old.side }
        ensures { OnOk result (LooksOnce self.old self.new moment ready out.old.items out.new.items) }
    {
        let now = self.now(moment);
        let phase = look(
            &self.terms,
            now,
            &self.at,
            &mut self.requests,
            &mut self.side,
            ready,
            out,
        )?;
        enter(&mut self.phase, phase);
        Ok(())
    }

    fn now(&self, moment: u64) -> Now
        ensures moment { result.moment ≡ moment }
        ensures client { result.client_closed ≡ self.now.client_closed }
        ensures parked { result.parked ≡ used_in self.now.side }
    {
        Now {
            alloc: self.alloc,
            moment,
            client_closed: self.client_closed,
            parked: link::used(&self.side),
        }
    }

    /// Takes the reply to what is awaited, wherever it stands.
    pub fn resume_anywhere(
        &mut self,
        moment: u64,
        reply: Reply,
        out: &mut Vec<Command>,
    ) -> Result<(), NoMemory>
        requires somewhere { Somewhere self.old }
        requires answers { MayAnswer (awaits self.old) reply }
        ensures resumes { OnOk result (ResumesAnywhere self.old self.new moment reply out.old.items out.new.items) }
        ensures asks { OnOk result (AsksOnly (awaits self.new) out.old.items out.new.items) }
        ensures left { OnOk result (sequence_left self.new < sequence_left self.old) }
    {
        let asked = take_asked(&mut self.phase);
        let ready = self.turn(moment, asked, reply, out)?;
        self.advance(moment, ready, out)
    }

    // Takes the answer to what was asked: its readers are then where what follows is looked for.
    fn turn(
        &mut self,
        moment: u64,
        asked: Asked,
        reply: Reply,
        out: &mut Vec<Command>,
    ) -> Result<Wanted, NoMemory>
        requires few { self.old.at.flow < 1000000 }
        requires dials { self.old.at.dials < 4294967295 }
        ensures { IfOk result (λ next. TurnsTo self.old self.new moment reply asked next out.old.items out.new.items) }
    {
        let now = self.now(moment);
        let dialled = is_dial(&asked);
        forget(&mut self.at, &self.side);
        let ready = turn(
            &self.terms,
            now,
            &mut self.at,
            &mut self.side,
            asked,
            reply,
            out,
        )?;
        self.follow(dialled, ready)
    }

    // Its readers follow to what is looked for.
    fn follow(&mut self, dialled: bool, ready: Wanted) -> Result<Wanted, NoMemory>
        ensures next { IfOk result (λ next. next ≡ ready) }
        ensures terms { OnOk result (self.new.terms ≡ self.old.terms) }
        ensures at { OnOk result (self.new.at ≡ self.old.at) }
        ensures client { OnOk result (self.new.client_closed ≡ self.old.client_closed) }
        ensures requests { OnOk result (self.new.requests ≡ requests_behind (stage_of self.old.at ready) self.old.requests) }
        ensures side { OnOk result (self.new.side ≡ side_behind dialled (stage_of self.old.at ready) self.old.side) }
    {
        let next = follow_requests(self.alloc, &self.at, &mut self.requests, ready)?;
        follow_side(self.alloc, dialled, &self.at, &mut self.side, next)
    }

    /// Where the server of the flow is, while its dial is awaited and the place is reached through another proxy: that proxy is
    /// dialled, and whoever goes on asks it for a tunnel to there.
    pub fn leads_to(&self) -> Result<Option<Address>, NoMemory>
        ensures to { IfOk result (λ to. to ≡ led_to self.now.terms.place self.now.phase) }
    {
        match &self.terms.place {
            Place::Fixed { inside, .. } => led_by(inside, &self.phase),
            _ => Ok(None),
        }
    }

    /// Hears an event while the dial of its server is awaited: the client's bytes and its close, and those of a parked side, which is kept no more
    /// then. It gives nothing: that side was closed right behind the dial. Behind the client's close nothing is heard.
    pub fn hear_waiting(&mut self, event: &Event) -> Result<(), NoMemory>
        requires waits { IsDialling self.old.phase }
        requires somewhere { Somewhere self.old }
        ensures hears { OnOk result (HearsWaiting self.old self.new event.now) }
        ensures phase { OnOk result (self.new.phase ≡ self.old.phase) }
        ensures at { OnOk result (self.new.at ≡ self.old.at) }
        ensures terms { OnOk result (self.new.terms ≡ self.old.terms) }
        ensures left { OnOk result (sequence_left self.new ≡ sequence_left self.old) }
    {
        if self.client_closed {
            return Ok(());
        }
        self.hear(event)?;
        Ok(())
    }

    /// The way to the server whose dial is awaited stands: the request goes to it, and this is what it has sent already. Then it
    /// looks once.
    pub fn reach(
        &mut self,
        moment: u64,
        rest: &Bytes,
        out: &mut Vec<Command>,
    ) -> Result<(), NoMemory>
        requires waits { IsDialling self.old.phase }
        requires somewhere { Somewhere self.old }
        ensures reaches { OnOk result (Reaches self.old self.new moment rest.now out.old.items out.new.items) }
        ensures asks { OnOk result (AsksOnly (awaits self.new) out.old.items out.new.items) }
        ensures left { OnOk result (sequence_left self.new < sequence_left self.old) }
    {
        let asked = take_asked(&mut self.phase);
        let ready = self.turn(moment, asked, Reply::Dialled, out)?;
        match link::feed(&mut self.side, rest) {
            Ok(()) => self.advance(moment, ready, out),
            Err(NoMemory) => {
                drop(ready);
                Err(NoMemory)
            }
        }
    }

    /// The bytes that it did not use, of the client and of the present flow's server side, for whoever goes on; and the flow, exactly
    /// where the outcome is `Upgraded`: another protocol follows it on the same connections.
    ///
    /// Behind a whole message they are exactly the side's bytes behind it, also behind a CONNECT and behind a response of code
    /// 101; while one is read, those from where its reader stands. Of the server there are none where the flow has no side of it.
    pub fn into_rests(self) -> Result<(Rests, Option<Flow>), NoMemory>
        ensures client { IfOk result (λ left. left.0.client ≡ self.requests.rest) }
        ensures server { IfOk result (λ left. left.0.server ≡ side_rest (uses_side self.phase) self.side) }
        ensures flow { IfOk result (λ left. left.1 ≡ phase_flow self.phase) }
        ensures behind { (made : Made) (ahead : ℕ) (place : Standing) (prefix : List (Timed Heard)) → IsInSequence made ahead self place prefix →
            IfOk result (λ left. LeavesRests made.place (look_at made place.stage (sight_over place prefix)) place.stage (sight_over place prefix)
            left.0.client left.0.server left.1) }
    {
        let Stream {
            requests,
            side,
            phase,
            ..
        } = self;
        let uses = uses_side(&phase);
        rests_of(requests, side, uses, upgraded_flow(phase))
    }

    /// The flow whose server is dialled, where the answer to that is awaited, for whoever ends it in its place; all else is let go of.
    pub fn into_dialled(self) -> Option<Boxed<Flow>>
        ensures { result ≡ dialled_flow self.phase }
    {
        let Stream { phase, .. } = self;
        dialled_in(phase)
    }
}

// A side of which a byte came is closed, while no flow uses it.
fn close_stray(stray: Option<u32>, out: &mut Vec<Command>) -> Result<(), NoMemory>
    ensures { OnOk result (out.new.items ≡ out.old.items ++ shut_if stray) }
{
    match stray {
        Some(server) => close(Side::Server(server), out),
        None => Ok(()),
    }
}

// A parked side that is kept no more is forgotten.
fn forget(at: &mut At, side: &Option<Link>)
    ensures { at.new ≡ with_open at.old side.now }
{
    if side.is_none() {
        at.parked = None;
    }
}

// The number of the parked side, if one is that is kept still.
fn open_parked(parked: &Option<Kept>, side: &Option<Link>) -> Option<u32>
    ensures { result ≡ open_parked parked.now side.now }
{
    let Some(parked) = parked else {
        return None;
    };
    match side {
        Some(link) => {
            if link.closed {
                return None;
            }
            Some(parked.side)
        }
        None => None,
    }
}

// What is looked for where a flow's request is whole and was asked about.
fn wanted_for(flow: Boxed<Flow>) -> Wanted
    ensures { (at : Stood) → stage_of at result ≡ busy at flow (doing_by flow.response) }
{
    if flow.response.is_some() {
        Wanted::GivenHead { flow }
    } else {
        Wanted::Connection { flow, up: None }
    }
}

// Where the server of a flow is that goes through this proxy, while its dial is awaited.
fn led_by(inside: &Option<Address>, phase: &Phase) -> Result<Option<Address>, NoMemory>
    ensures { IfOk result (λ to. to ≡ led_by inside.now phase.now) }
{
    match inside {
        Some(_) => server_dialled(phase),
        None => Ok(None),
    }
}

// Where the server of a flow is, while its dial is awaited.
fn server_dialled(phase: &Phase) -> Result<Option<Address>, NoMemory>
    ensures { IfOk result (λ to. to ≡ server_dialled phase.now) }
{
    match phase {
        Phase::Asked(Asked::Connection { flow, .. }) => Ok(Some(address_of(flow)?)),
        _ => Ok(None),
    }
}

// The flow whose server is dialled.
fn dialled_in(phase: Phase) -> Option<Boxed<Flow>>
    ensures { result ≡ dialled_flow phase }
{
    match phase {
        Phase::Asked(Asked::Connection { flow, .. }) => Some(flow),
        other => {
            drop(other);
            None
        }
    }
}

// The flow that another protocol follows.
fn upgraded_flow(phase: Phase) -> Option<Boxed<Flow>>
    ensures { result ≡ phase_flow phase }
{
    match phase {
        Phase::Ready(Wanted::Upgraded { flow, .. }) => Some(flow),
        other => {
            drop(other);
            None
        }
    }
}

// What waits of the client and, where it is asked for, of the open side.
fn rests_of(
    requests: MessageReader,
    side: Option<Link>,
    uses: bool,
    flow: Option<Boxed<Flow>>,
) -> Result<(Rests, Option<Flow>), NoMemory>
    ensures client { IfOk result (λ left. left.0.client ≡ requests.rest) }
    ensures server { IfOk result (λ left. left.0.server ≡ side_rest uses side) }
    ensures flow { IfOk result (λ left. left.1 ≡ flow) }
{
    match link::into_rest(side, uses) {
        Ok(server) => rests_with(requests, server, flow),
        Err(NoMemory) => {
            drop(requests);
            drop(flow);
            Err(NoMemory)
        }
    }
}

fn rests_with(
    requests: MessageReader,
    server: Bytes,
    flow: Option<Boxed<Flow>>,
) -> Result<(Rests, Option<Flow>), NoMemory>
    ensures client { IfOk result (λ left. left.0.client ≡ requests.rest) }
    ensures server { IfOk result (λ left. left.0.server ≡ server) }
    ensures flow { IfOk result (λ left. left.1 ≡ flow) }
{
    let client = requests.into_rest()?;
    Ok((Rests { client, server }, out_of_place(flow)))
}

fn out_of_place(flow: Option<Boxed<Flow>>) -> Option<Flow>
    ensures { result ≡ flow }
{
    match flow {
        Some(flow) => Some(flow.into_inner()),
        None => None,
    }
}
