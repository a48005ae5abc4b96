//! A conversation: one flow after the other.
ghost use Rattle.std.specs.Prelude.{◌≡◌, ◌≤◌, ◌<◌, ◌+◌, ◌-◌, ◌^◌, List, [], None, IfOk, OnOk, min, option_map, true};
ghost use Rattle.px_event.specs.Chain.{Timed};
ghost use Rattle.px_event.specs.Layer.{AsksOnly, IsSound, MayAnswer, Move};
ghost use Rattle.px_event.specs.declared.command.Command.{Command as GivenCommand};
ghost use Rattle.px_event.specs.declared.event.Event.{Event as Heard};
ghost use Rattle.px_http.specs.Stands.{HttpStands, awaits, seen_at, stage_at};
ghost use Rattle.px_chain.specs.Chain.{look};
ghost use Rattle.px_exchange.specs.Places.{terms_of};
ghost use Rattle.px_exchange.specs.declared.terms.Terms.{Terms as Made};
ghost use Rattle.px_chain.specs.Sights.{Standing};
ghost use Rattle.px_stream.specs.Anywhere.{Begins, HearsWaiting, IsNew, Reaches, ResumesAnywhere, Somewhere, TakesAnywhere};
ghost use Rattle.px_stream.specs.Rests.{LeavesRests};
ghost use Rattle.px_stream.specs.Stands.{IsAt, is_last};
ghost use Rattle.px_stream.specs.Tells.{IsDialling, KeepsLittle, keeps_no_body, stream_keeps, IsSideBelow, asked_tunnel, dialled_flow, is_end, led_to, open_parked, outcome_at, outcome_in, phase_flow, sequence_left, side_rest, upgraded_side, uses_side};

use px_event::{Ask, Command, Event, Layer, Reply, Rests};
use px_exchange::Boxed;
use px_exchange::ending::Used;
use px_message::{Address, Flow, FlowId};
use px_stream::{At, Kept, Outcome, Place, Stream};
use px_text::{Bytes, NoMemory};
use std::alloc::Global;

/// The flows of one client's connection.
#[derive(Drop)]
pub struct HttpConv {
    stream: Stream,
}

impl HttpConv {
    /// A conversation of this number, of a client there, whose requests go to this place. Its first flow has the index
    /// `first_flow`, and the next server that it dials is the one of number `next_server`. Where a side is kept
    /// from before, its number is below that one, and the first request that goes to its address takes it.
    ///
    /// It stands for itself by no moves, has given nothing and awaits nothing; it was handed nothing, so it may `begin`.
    pub fn new(
        alloc: Global,
        conv: u32,
        client: Option<Address>,
        place: Place,
        kept: Option<Kept>,
        first_flow: u32,
        next_server: u32,
    ) -> Result<HttpConv, NoMemory>
        requires few { first_flow < 1000000 }
        requires dials { next_server ≤ first_flow + 1 }
        requires side { IsSideBelow kept next_server }
        ensures stands { IfOk result (λ made. HttpStands made made [] []) }
        ensures terms { IfOk result (λ made. made.stream.terms ≡ terms_of conv client place) }
        ensures at { IfOk result (λ made. made.stream.at ≡ record { flow = first_flow; dials = next_server; parked = kept }) }
        ensures new { IfOk result (λ made. IsNew made.stream) }
        ensures free { IfOk result (λ made. awaits made ≡ None) }
    {
        let id = FlowId {
            conv,
            index: first_flow,
        };
        Ok(HttpConv {
            stream: Stream::new(alloc, id, client, place, kept, next_server, true)?,
        })
    }

    /// What became of the conversation: `Connects` where a CONNECT was read that asks for a tunnel, `Upgraded` where a response of
    /// code 101 was sent, `Over` where it has ended, and else `Going`, since behind a finished flow the next one begins.
    pub fn outcome(&self) -> Outcome
        ensures phase { result ≡ outcome_in self.now.stream.phase }
        ensures ended { is_last self.now.stream.phase ≡ is_end result }
        ensures of_walk { (made : HttpConv) (moves : List Move) (given : List GivenCommand) → HttpStands made self.now moves given →
            result ≡ outcome_at made.stream.terms.place (look made.stream.terms (stage_at made moves) (seen_at made moves)) (stage_at made moves) (seen_at made moves) }
    {
        self.stream.outcome()
    }

    /// Where a CONNECT asks for a tunnel to: exactly where the outcome is `Connects`.
    pub fn connects(&self) -> Option<&Address>
        ensures { option_map (λ address. address.now) result ≡ asked_tunnel self.now.stream.phase }
    {
        self.stream.connects()
    }

    /// The server's side on which another protocol follows: exactly where the outcome is `Upgraded`.
    pub fn upgraded(&self) -> Option<Used>
        ensures { result ≡ upgraded_side self.now.stream.phase self.now.stream.side }
    {
        self.stream.upgraded()
    }

    /// Where its requests go.
    pub fn place(&self) -> &Place
        ensures { result.now ≡ self.now.stream.terms.place }
    {
        self.stream.place()
    }

    /// The number of the present flow, or of the next one where none has begun, and of the next server.
    pub fn at(&self) -> &At
        ensures { result.now ≡ self.now.stream.at }
    {
        self.stream.at()
    }

    /// Whether the client has closed.
    pub fn client_closed(&self) -> bool
        ensures { result ≡ self.now.stream.client_closed }
    {
        self.stream.client_closed()
    }

    /// The number of the parked side, which is connected and which no flow uses, if there is one and its server has not closed.
    pub fn parked(&self) -> Option<u32>
        ensures { result ≡ open_parked self.now.stream.at.parked self.now.stream.side }
    {
        self.stream.parked()
    }

    /// Hears what the client sent behind what others read of it, before this conversation was made, and what waits of the parked
    /// side, and looks once; `closed` is whether the client has closed. One that was handed something already may not begin so.
    ///
    /// It is then where the chain of flows in sequence is that begins there, over all events, and gave what is owed there.
    pub fn begin(
        &mut self,
        moment: u64,
        closed: bool,
        rest: &Bytes,
        waiting: &Bytes,
        out: &mut Vec<Command>,
    ) -> Result<(), NoMemory>
        requires new { IsNew self.old.stream }
        ensures begins { OnOk result (Begins self.old.stream self.new.stream moment closed rest.now waiting.now out.old.items out.new.items) }
        ensures asks { OnOk result (AsksOnly (awaits self.new) out.old.items out.new.items) }
        ensures left { OnOk result (sequence_left self.new.stream ≤ sequence_left self.old.stream) }
    {
        self.stream.begin(moment, closed, rest, waiting, out)
    }

    /// Takes an event as `take`, wherever in a longer chain it stands that flows in sequence are a part of.
    pub fn take_anywhere(
        &mut self,
        moment: u64,
        event: Event,
        out: &mut Vec<Command>,
    ) -> Result<(), NoMemory>
        requires somewhere { Somewhere self.old.stream }
        requires free { awaits self.old ≡ None }
        ensures takes { OnOk result (TakesAnywhere self.old.stream self.new.stream moment event out.old.items out.new.items) }
        ensures asks { OnOk result (AsksOnly (awaits self.new) out.old.items out.new.items) }
        ensures left { OnOk result (sequence_left self.new.stream ≤ sequence_left self.old.stream) }
    {
        self.stream.take_anywhere(moment, &event, out)
    }

    /// Takes the reply to what is awaited as `resume`, wherever in a longer chain it stands that flows in sequence are a part of.
    pub fn resume_anywhere(
        &mut self,
        moment: u64,
        reply: Reply,
        out: &mut Vec<Command>,
    ) -> Result<(), NoMemory>
        requires somewhere { Somewhere self.old.stream }
        requires answers { MayAnswer (awaits self.old) reply }
        ensures resumes { OnOk result (ResumesAnywhere self.old.stream self.new.stream moment reply out.old.items out.new.items) }
        ensures asks { OnOk result (AsksOnly (awaits self.new) out.old.items out.new.items) }
        ensures left { OnOk result (sequence_left self.new.stream < sequence_left self.old.stream) }
    {
        self.stream.resume_anywhere(moment, reply, out)
    }

    /// Where the server of the present flow is, while its dial is awaited and the place is reached through another proxy: that proxy
    /// is dialled, and whoever goes on asks it for a tunnel to there.
    pub fn leads_to(&self) -> Result<Option<Address>, NoMemory>
        ensures to { IfOk result (λ to. to ≡ led_to self.now.stream.terms.place self.now.stream.phase) }
    {
        self.stream.leads_to()
    }

    /// Hears an event while the dial of a server is awaited: the client's bytes and its close, and those of a parked side. Behind the
    /// client's close nothing is heard.
    pub fn hear_waiting(&mut self, event: &Event) -> Result<(), NoMemory>
        requires waits { IsDialling self.old.stream.phase }
        requires somewhere { Somewhere self.old.stream }
        ensures hears { OnOk result (HearsWaiting self.old.stream self.new.stream event.now) }
        ensures phase { OnOk result (self.new.stream.phase ≡ self.old.stream.phase) }
        ensures at { OnOk result (self.new.stream.at ≡ self.old.stream.at) }
        ensures terms { OnOk result (self.new.stream.terms ≡ self.old.stream.terms) }
        ensures left { OnOk result (sequence_left self.new.stream ≡ sequence_left self.old.stream) }
    {
        self.stream.hear_waiting(event)
    }

    /// The way to the server whose dial is awaited stands: the request goes to it, and this is what it has sent already. Then it looks
    /// once.
    pub fn reach(
        &mut self,
        moment: u64,
        rest: &Bytes,
        out: &mut Vec<Command>,
    ) -> Result<(), NoMemory>
        requires waits { IsDialling self.old.stream.phase }
        requires somewhere { Somewhere self.old.stream }
        ensures reaches { OnOk result (Reaches self.old.stream self.new.stream moment rest.now out.old.items out.new.items) }
        ensures asks { OnOk result (AsksOnly (awaits self.new) out.old.items out.new.items) }
        ensures left { OnOk result (sequence_left self.new.stream < sequence_left self.old.stream) }
    {
        self.stream.reach(moment, rest, out)
    }

    /// The bytes that its flows did not use, of the client and of the present flow's server side; and the flow, exactly where the
    /// outcome is `Upgraded`: another protocol follows it on the same connections.
    ///
    /// Behind a whole message they are exactly the side's bytes behind it, also behind a CONNECT and behind a response of code 101;
    /// while one is read, those from where its reader stands. Of the server there are none where the flow has no side of it.
    pub fn into_rests(self) -> Result<(Rests, Option<Flow>), NoMemory>
        ensures client { IfOk result (λ left. left.0.client ≡ self.stream.requests.rest) }
        ensures server { IfOk result (λ left. left.0.server ≡ side_rest (uses_side self.stream.phase) self.stream.side) }
        ensures flow { IfOk result (λ left. left.1 ≡ phase_flow self.stream.phase) }
        ensures behind { (made : HttpConv) (moves : List Move) (given : List GivenCommand) → HttpStands made self moves given →
            IfOk result (λ left. LeavesRests made.stream.terms.place (look made.stream.terms (stage_at made moves) (seen_at made moves)) (stage_at made moves)
            (seen_at made moves) left.0.client left.0.server left.1) }
    {
        self.stream.into_rests()
    }

    /// The flow whose server is dialled, where the answer to that is awaited, for whoever ends it in its place; all else is let go of.
    pub fn into_dialled(self) -> Option<Boxed<Flow>>
        ensures { result ≡ dialled_flow self.stream.phase }
    {
        self.stream.into_dialled()
    }
}

impl Layer for HttpConv {
    ghost use Rattle.std.specs.Prelude.{ℕ, List};
    ghost use Rattle.px_http.specs.Stands.{HttpStands, awaits};
    ghost use Rattle.px_stream.specs.Stands.{is_last};
    ghost use Rattle.px_stream.specs.Tells.{keeps_no_body, sequence_left, stream_keeps};

    ghost stands = { HttpStands };

    ghost awaited = { awaits };

    ghost left = { λ state. sequence_left state.stream };

    ghost rate = { λ state. 0 };

    ghost kept = { λ state. stream_keeps state.stream };

    ghost keeps_no_body = { λ state. keeps_no_body state.stream.phase };

    ghost ended = { λ state. is_last state.stream.phase };

    fn take(&mut self, moment: u64, event: Event, out: &mut Vec<Command>) -> Result<(), NoMemory> {
        self.stream.take_anywhere(moment, &event, out)
    }

    fn resume(
        &mut self,
        moment: u64,
        reply: Reply,
        out: &mut Vec<Command>,
    ) -> Result<(), NoMemory> {
        self.stream.resume_anywhere(moment, reply, out)
    }

    fn waiting(&self) -> Option<Ask> {
        self.stream.waiting()
    }

    fn kept(&self) -> usize
        ensures kept { result ≡ min (stream_keeps self.now.stream) (2 ^ 64 - 1) }
        ensures there { (made : Made) (place : Standing) (prefix : List (Timed Heard)) → IsAt made self.now.stream place prefix → keeps_no_body self.now.stream.phase ≡ true → KeepsLittle self.now.stream }
        ensures bound { IsSound HttpStands self.now → keeps_no_body self.now.stream.phase ≡ true → stream_keeps self.now.stream ≤ 133120 }
    {
        self.stream.kept()
    }

    fn ended(&self) -> bool {
        self.stream.ended()
    }
}
