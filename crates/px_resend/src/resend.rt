//! A recorded request that is sent again, as a layer.
ghost use Rattle.std.specs.Prelude.{◌≡◌, ◌≤◌, ◌<◌, ◌+◌, ◌++◌, ◌∷◌, ℕ, List, [], None, IfOk, OnOk};
ghost use Rattle.px_event.specs.Layer.{AsksOnly, MayAnswer};
ghost use Rattle.px_core.specs.Calls.{number_end};
ghost use Rattle.px_event.specs.declared.ask.Hook.TheVariants.{RequestBody as AtWhole};
ghost use Rattle.px_exchange.specs.Endings.{shut_server};
ghost use Rattle.px_exchange.specs.Flows.{ask_of};
ghost use Rattle.px_stream.specs.Anywhere.{IsNew, Somewhere, TakesAnywhere};
ghost use Rattle.px_stream.specs.Heard.{shut_if};
ghost use Rattle.px_stream.specs.Stands.{awaits as stream_awaits};
ghost use Rattle.px_stream.specs.Tells.{outcome_in, phase_flow, sequence_left, upgraded_side};
ghost use Rattle.px_resend.specs.Chain.{first_at, killed, proxy_in, whole_flow};
ghost use Rattle.px_resend.specs.Heard.{of_servers};
ghost use Rattle.px_resend.specs.Kept.{awaited_by, going_left, left_by};
ghost use Rattle.px_resend.specs.Stands.{IsSomewhere, ResendStands, awaits, terms_in};
ghost use Rattle.px_resend.specs.Steps.{Adds, Follows, GoesOnAs, ResumesChild, TakesChild, done_by, finished_by, shut_by};

use crate::child::Child;
use crate::flow::{first_flow, place_of, proxy_of, whole_flow};
use crate::pass_on::{of_servers, pass_on};
use px_event::{Ask, Command, Event, Hook, Layer, Reply, Side};
use px_exchange::ending::{Used, end_early};
use px_exchange::flows::{with_request, with_response};
use px_exchange::said::{ask, close, done};
use px_exchange::taken::{Taken, take_at_request_body, take_at_request_head};
use px_exchange::terms::Now;
use px_exchange::{Boxed, Mode, Outcome};
use px_message::{Address, Flow, FlowId, Request, Shared};
use px_stream::Stream;
use px_text::NoMemory;
use std::alloc::Global;
use std::mem;

/// The numbers of conversations without a client begin here.
pub(crate) const FIRST_NUMBER: u32 = 0x8000_0000;

/// A conversation without a client, of one recorded request.
#[derive(Drop)]
pub struct Resend {
    alloc: Global,
    conv: u32,
    // the proxy that the request goes to, if it goes to one
    proxy: Option<Address>,
    request: Shared<Request>,
    child: Child,
}

impl Resend {
    /// The request of this flow, which is sent again as the conversation of number 2^31 + `index`: to its own host and port, or in mode `upstream:` to the
    /// proxy.
    ///
    /// It stands for itself by no moves, has given nothing and awaits nothing.
    pub fn new(alloc: Global, flow: &Flow, index: u32, mode: &Mode) -> Result<Resend, NoMemory>
        requires few { index < number_end }
        ensures stands { IfOk result (λ made. ResendStands made made [] []) }
        ensures number { IfOk result (λ made. made.conv ≡ number_end + index) }
        ensures proxy { IfOk result (λ made. made.proxy ≡ proxy_in mode.now) }
        ensures request { IfOk result (λ made. made.request ≡ flow.now.request) }
        ensures free { IfOk result (λ made. awaits made ≡ None) }
    {
        Resend::through(alloc, flow, index, &proxy_of(mode)?)
    }

    // The same, where it is known whether it goes to a proxy.
    pub(crate) fn through(
        alloc: Global,
        flow: &Flow,
        index: u32,
        proxy: &Option<Address>,
    ) -> Result<Resend, NoMemory>
        requires few { index < number_end }
        ensures stands { IfOk result (λ made. ResendStands made made [] []) }
        ensures number { IfOk result (λ made. made.conv ≡ number_end + index) }
        ensures proxy { IfOk result (λ made. made.proxy ≡ proxy.now) }
        ensures request { IfOk result (λ made. made.request ≡ flow.now.request) }
        ensures free { IfOk result (λ made. awaits made ≡ None) }
    {
        Ok(Resend {
            alloc,
            conv: FIRST_NUMBER + index,
            proxy: copy_address(proxy)?,
            request: flow.request.try_clone()?,
            child: Child::Waiting,
        })
    }

    // Takes an event.
    fn hear(
        &self,
        child: Child,
        moment: u64,
        event: Event,
        out: &mut Vec<Command>,
    ) -> Result<Child, NoMemory>
        requires somewhere { IsSomewhere (terms_in self.now) self.now.request child }
        requires free { awaited_by child ≡ None }
        ensures takes { IfOk result (λ next. Adds (TakesChild (terms_in self.now) self.now.request child next moment event) out.old.items out.new.items) }
        ensures asks { IfOk result (λ next. AsksOnly (awaited_by next) out.old.items out.new.items) }
        ensures left { IfOk result (λ next. left_by next ≤ left_by child) }
    {
        match child {
            Child::Waiting => {
                drop(event);
                self.begin(moment, out)
            }
            Child::AsksHead(_) | Child::AsksWhole(_) => unreachable!(),
            Child::GoesOn(stream) => self.take_going(stream, moment, event, out),
            Child::Over => {
                drop(event);
                Ok(Child::Over)
            }
        }
    }

    // It begins: the hook of the request's head is asked.
    fn begin(&self, moment: u64, out: &mut Vec<Command>) -> Result<Child, NoMemory>
        ensures begins { IfOk result (λ next. Adds (λ more. (event : Event) → TakesChild (terms_in self.now) self.now.request Child.Waiting next moment event more) out.old.items out.new.items) }
        ensures asks { IfOk result (λ next. AsksOnly (awaited_by next) out.old.items out.new.items) }
        ensures left { IfOk result (λ next. left_by next ≤ left_by Child.Waiting) }
    {
        let flow = first_flow(
            self.alloc,
            self.conv,
            &self.proxy,
            self.request.get(),
            moment,
        )?;
        ask(&flow, Hook::RequestHead, out)?;
        Ok(Child::AsksHead(flow))
    }

    // The flow that goes on takes an event.
    fn take_going(
        &self,
        stream: Box<Stream>,
        moment: u64,
        event: Event,
        out: &mut Vec<Command>,
    ) -> Result<Child, NoMemory>
        requires somewhere { IsSomewhere (terms_in self.now) self.now.request (Child.GoesOn stream) }
        requires free { awaited_by (Child.GoesOn stream) ≡ None }
        ensures takes { IfOk result (λ next. Adds (TakesChild (terms_in self.now) self.now.request (Child.GoesOn stream) next moment event) out.old.items out.new.items) }
        ensures asks { IfOk result (λ next. AsksOnly (awaited_by next) out.old.items out.new.items) }
        ensures left { IfOk result (λ next. left_by next ≤ left_by (Child.GoesOn stream)) }
    {
        let mut stream = stream;
        let mut given = Vec::new(self.alloc);
        take_heard(&mut stream, moment, event, &mut given)?;
        pass_on(given, out)?;
        follow(stream, out)
    }

    // Takes the reply to what is awaited.
    fn answer(
        &self,
        child: Child,
        moment: u64,
        reply: Reply,
        out: &mut Vec<Command>,
    ) -> Result<Child, NoMemory>
        requires somewhere { IsSomewhere (terms_in self.now) self.now.request child }
        requires answers { MayAnswer (awaited_by child) reply }
        ensures resumes { IfOk result (λ next. Adds (ResumesChild (terms_in self.now) self.now.request child next moment reply) out.old.items out.new.items) }
        ensures asks { IfOk result (λ next. AsksOnly (awaited_by next) out.old.items out.new.items) }
        ensures left { IfOk result (λ next. left_by next < left_by child) }
    {
        match child {
            Child::AsksHead(flow) => self.answer_head(flow, moment, reply, out),
            Child::AsksWhole(flow) => self.answer_whole(flow, moment, reply, out),
            Child::GoesOn(stream) => self.answer_going(stream, moment, reply, out),
            Child::Waiting | Child::Over => unreachable!(),
        }
    }

    // The reply to the hook of the request's head: the whole request is asked about, or a response was given.
    fn answer_head(
        &self,
        flow: Boxed<Flow>,
        moment: u64,
        reply: Reply,
        out: &mut Vec<Command>,
    ) -> Result<Child, NoMemory>
        ensures resumes { IfOk result (λ next. Adds (ResumesChild (terms_in self.now) self.now.request (Child.AsksHead flow) next moment reply) out.old.items out.new.items) }
        ensures asks { IfOk result (λ next. AsksOnly (awaited_by next) out.old.items out.new.items) }
        ensures left { IfOk result (λ next. left_by next < left_by (Child.AsksHead flow)) }
    {
        match take_at_request_head(self.alloc, &flow.request, reply)? {
            Taken::GoesOn(request) => self.ask_whole(with_request(flow, request), out),
            Taken::Responds(response) => {
                let whole = whole_flow(self.alloc, self.request.get(), flow)?;
                self.go_on(with_response(whole, response), moment, out)
            }
            Taken::Kills => self.kill(flow, moment, out),
        }
    }

    // The hook of the whole request is asked.
    fn ask_whole(&self, flow: Boxed<Flow>, out: &mut Vec<Command>) -> Result<Child, NoMemory>
        ensures next { IfOk result (λ next. next ≡ Child.AsksWhole (whole_flow self.now.request flow)) }
        ensures gives { OnOk result (out.new.items ≡ out.old.items ++ ask_of (whole_flow self.now.request flow) AtWhole ∷ []) }
    {
        let flow = whole_flow(self.alloc, self.request.get(), flow)?;
        ask(&flow, Hook::RequestBody, out)?;
        Ok(Child::AsksWhole(flow))
    }

    // The reply to the hook of the whole request: it goes to its server, or a response was given.
    fn answer_whole(
        &self,
        flow: Boxed<Flow>,
        moment: u64,
        reply: Reply,
        out: &mut Vec<Command>,
    ) -> Result<Child, NoMemory>
        ensures resumes { IfOk result (λ next. Adds (ResumesChild (terms_in self.now) self.now.request (Child.AsksWhole flow) next moment reply) out.old.items out.new.items) }
        ensures asks { IfOk result (λ next. AsksOnly (awaited_by next) out.old.items out.new.items) }
        ensures left { IfOk result (λ next. left_by next < left_by (Child.AsksWhole flow)) }
    {
        match take_at_request_body(self.alloc, &flow.request, reply)? {
            Taken::GoesOn(request) => self.go_on(with_request(flow, request), moment, out),
            Taken::Responds(response) => self.go_on(with_response(flow, response), moment, out),
            Taken::Kills => self.kill(flow, moment, out),
        }
    }

    // The flow, whose request is whole, goes on.
    fn go_on(
        &self,
        flow: Boxed<Flow>,
        moment: u64,
        out: &mut Vec<Command>,
    ) -> Result<Child, NoMemory>
        ensures goes_on { IfOk result (λ next. Adds (GoesOnAs (terms_in self.now) self.now.request flow moment next) out.old.items out.new.items) }
        ensures asks { IfOk result (λ next. AsksOnly (awaited_by next) out.old.items out.new.items) }
        ensures left { IfOk result (λ next. left_by next ≤ going_left) }
    {
        let mut stream = self.opened()?;
        let mut given = Vec::new(self.alloc);
        stream.go_on_with(moment, flow, &mut given)?;
        pass_on(given, out)?;
        Ok(Child::GoesOn(stream))
    }

    // The stream of its flow, which was handed nothing yet.
    fn opened(&self) -> Result<Box<Stream>, NoMemory>
        ensures terms { IfOk result (λ stream. stream.value.terms ≡ terms_in self.now) }
        ensures at { IfOk result (λ stream. stream.value.at ≡ first_at) }
        ensures new { IfOk result (λ stream. IsNew stream.value) }
    {
        let id = FlowId {
            conv: self.conv,
            index: 0,
        };
        let stream = Stream::new(self.alloc, id, None, place_of(&self.proxy)?, None, 0, false)?;
        Ok(Box::new(self.alloc, stream)?)
    }

    // Ends the flow by a kill.
    fn kill(
        &self,
        flow: Boxed<Flow>,
        moment: u64,
        out: &mut Vec<Command>,
    ) -> Result<Child, NoMemory>
        ensures over { IfOk result (λ next. next ≡ Child.Over) }
        ensures gives { OnOk result (out.new.items ≡ out.old.items ++ (killed flow moment).owed) }
    {
        let now = Now {
            alloc: self.alloc,
            moment,
            client_closed: true,
            parked: Used::NoServer,
        };
        end_early(now, flow, b"killed", Used::NoServer, out)?;
        Ok(Child::Over)
    }

    // The flow that goes on takes a reply.
    fn answer_going(
        &self,
        stream: Box<Stream>,
        moment: u64,
        reply: Reply,
        out: &mut Vec<Command>,
    ) -> Result<Child, NoMemory>
        requires somewhere { IsSomewhere (terms_in self.now) self.now.request (Child.GoesOn stream) }
        requires answers { MayAnswer (awaited_by (Child.GoesOn stream)) reply }
        ensures resumes { IfOk result (λ next. Adds (ResumesChild (terms_in self.now) self.now.request (Child.GoesOn stream) next moment reply) out.old.items out.new.items) }
        ensures asks { IfOk result (λ next. AsksOnly (awaited_by next) out.old.items out.new.items) }
        ensures left { IfOk result (λ next. left_by next < left_by (Child.GoesOn stream)) }
    {
        let mut stream = stream;
        let mut given = Vec::new(self.alloc);
        stream.resume_anywhere(moment, reply, &mut given)?;
        pass_on(given, out)?;
        follow(stream, out)
    }
}

// The stream takes the event; what is heard of a client says nothing.
fn take_heard(
    stream: &mut Stream,
    moment: u64,
    event: Event,
    out: &mut Vec<Command>,
) -> Result<(), NoMemory>
    requires somewhere { Somewhere stream.old }
    requires free { stream_awaits stream.old ≡ None }
    ensures takes { OnOk result (TakesAnywhere stream.old stream.new moment (of_servers event) out.old.items out.new.items) }
    ensures asks { OnOk result (AsksOnly (stream_awaits stream.new) out.old.items out.new.items) }
    ensures left { OnOk result (sequence_left stream.new ≤ sequence_left stream.old) }
{
    let heard = of_servers(event);
    stream.take_anywhere(moment, &heard, out)
}

fn copy_address(address: &Option<Address>) -> Result<Option<Address>, NoMemory>
    ensures { IfOk result (λ copy. copy ≡ address.now) }
{
    match address {
        Some(address) => Ok(Some(address.try_clone()?)),
        None => Ok(None),
    }
}

// What the flow has come to: it goes on, or is finished, and then nothing is kept. A response of code 101 finishes it, and its server's side is closed.
fn follow(stream: Box<Stream>, out: &mut Vec<Command>) -> Result<Child, NoMemory>
    ensures follows { IfOk result (λ next. Adds (Follows stream next) out.old.items out.new.items) }
{
    if stream.is_idle() {
        close_parked(stream.parked(), out)?;
        return Ok(Child::Over);
    }
    match stream.outcome() {
        Outcome::Going => Ok(Child::GoesOn(stream)),
        Outcome::Upgraded => finish(stream, out),
        Outcome::Connects | Outcome::Next | Outcome::Over => Ok(Child::Over),
    }
}

// Closes the side that is kept for a next flow, which does not come.
fn close_parked(parked: Option<u32>, out: &mut Vec<Command>) -> Result<(), NoMemory>
    ensures { OnOk result (out.new.items ≡ out.old.items ++ shut_if parked) }
{
    match parked {
        Some(server) => close(Side::Server(server), out),
        None => Ok(()),
    }
}

// Says that the flow is finished, and closes its server's side, unless that closed itself.
fn finish(stream: Box<Stream>, out: &mut Vec<Command>) -> Result<Child, NoMemory>
    requires upgraded { outcome_in stream.value.phase ≡ Outcome.Upgraded }
    ensures over { IfOk result (λ next. next ≡ Child.Over) }
    ensures gives { OnOk result (out.new.items ≡ out.old.items ++ finished_by (phase_flow stream.value.phase) (upgraded_side stream.value.phase stream.value.side)) }
{
    let used = stream.upgraded();
    let (rests, flow) = Box::into_inner(stream).into_rests()?;
    drop(rests);
    say_done(flow, out)?;
    shut(used, out)?;
    Ok(Child::Over)
}

// Says that the flow is finished, if there is one.
fn say_done(flow: Option<Flow>, out: &mut Vec<Command>) -> Result<(), NoMemory>
    ensures { OnOk result (out.new.items ≡ out.old.items ++ done_by flow) }
{
    match flow {
        Some(flow) => done(flow, out),
        None => Ok(()),
    }
}

// Closes the server's side of a flow, if it has one.
fn shut(used: Option<Used>, out: &mut Vec<Command>) -> Result<(), NoMemory>
    ensures { OnOk result (out.new.items ≡ out.old.items ++ shut_by used) }
{
    match used {
        Some(used) => shut_server(used, out),
        None => Ok(()),
    }
}

// Closes the server's side, unless it closed itself.
fn shut_server(used: Used, out: &mut Vec<Command>) -> Result<(), NoMemory>
    ensures { OnOk result (out.new.items ≡ out.old.items ++ shut_server used) }
{
    match used {
        Used::NoServer => Ok(()),
        Used::ByServer { closed: true, .. } => Ok(()),
        Used::ByServer {
            number,
            closed: false,
        } => close(Side::Server(number), out),
    }
}

impl Layer for Resend {
    ghost use Rattle.std.specs.Prelude.{ℕ, List};
    ghost use Rattle.px_resend.specs.Kept.{is_over, keeps_no_body, kept_by, left_by};
    ghost use Rattle.px_resend.specs.Stands.{ResendStands, awaits};

    ghost stands = { ResendStands };

    ghost awaited = { awaits };

    ghost left = { λ state. left_by state.child };

    ghost rate = { λ state. 0 };

    ghost kept = { λ state. kept_by state.child };

    ghost keeps_no_body = { λ state. keeps_no_body state.child };

    ghost ended = { λ state. is_over state.child };

    fn take(&mut self, moment: u64, event: Event, out: &mut Vec<Command>) -> Result<(), NoMemory> {
        let child = mem::replace(&mut self.child, Child::Over);
        let next = self.hear(child, moment, event, out)?;
        drop(mem::replace(&mut self.child, next));
        Ok(())
    }

    fn resume(
        &mut self,
        moment: u64,
        reply: Reply,
        out: &mut Vec<Command>,
    ) -> Result<(), NoMemory> {
        let child = mem::replace(&mut self.child, Child::Over);
        let next = self.answer(child, moment, reply, out)?;
        drop(mem::replace(&mut self.child, next));
        Ok(())
    }

    fn waiting(&self) -> Option<Ask> {
        self.child.waiting()
    }

    fn kept(&self) -> usize {
        self.child.kept()
    }

    fn ended(&self) -> bool {
        self.child.ended()
    }
}
