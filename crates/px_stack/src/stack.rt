//! A conversation: HTTP, until a CONNECT or a response of code 101 hands over, and what follows.
ghost use Rattle.std.specs.Prelude.{◌≡◌, ◌≤◌, ◌<◌, ◌+◌, ◌++◌, ℕ, Bool, List, [], Option, Some, None, IfOk, OnOk, false};
ghost use Rattle.rand_chacha.specs.ChaCha.{key_of};
ghost use Rattle.px_event.specs.Layer.{AsksOnly, MayAnswer};
ghost use Rattle.px_exchange.specs.Places.{terms_of};
ghost use Rattle.px_exchange.specs.declared.ending.Used.TheVariants.{ByServer, NoServer};
ghost use Rattle.px_http.specs.Stands.{awaits as http_awaits};
ghost use Rattle.px_stack.specs.Chain.{begins, unless_closed};
ghost use Rattle.px_stack.specs.Kept.{awaited_by, goal_left, left_by, opened_left};
ghost use Rattle.px_stack.specs.Stack.{StackStands, awaits, start_of, visitor_of};
ghost use Rattle.px_stack.specs.Stands.{IsSomewhere};
ghost use Rattle.px_stack.specs.Steps.{Adds, AsksFor, CanGoOn, CanReach, Decides, EndsRefused, GoesInside, IsFewDials, IsGoalSomewhere, IsPlain, Leads, LetsThrough, Relays, ResumesChild, TakesChild, Tells, TurnsAway};
ghost use Rattle.px_stream.specs.Anywhere.{Begins, IsNew};
ghost use Rattle.px_stream.specs.Tells.{IsDialling, dialled_flow, led_to, sequence_left};
ghost use Rattle.px_stack.specs.Stages.{Visitor};

use crate::asking::{asking_takes, opening_in};
use crate::child::{Child, Goal, Opening, Reaching};
use crate::closing::{Sides, close_server, close_sides, closed_by};
use crate::deciding::{has_method, may_have_method};
use crate::following::follow;
use crate::placed::first_child;
use crate::reaching::{ProxySays, add, hear_goal, hear_proxy};
use crate::relay::{begin_relay, relay_takes};
use crate::socket::{Means, socket_resumes, socket_takes};
use px_event::{Ask, Command, Event, Layer, Reply, Rests, Side};
use px_exchange::ending::{Used, end_by_fault, refuse};
use px_exchange::said::send;
use px_exchange::terms::Now;
use px_exchange::texts::connected_text;
use px_exchange::{Mode, Place};
use px_http::HttpConv;
use px_message::{Address, Fault};
use px_socks::SocksLayer;
use px_stream::Kept;
use px_text::{Bytes, NoMemory};
use px_tunnel::{UpstreamTunnel, connect_text};
use std::alloc::Global;
use std::mem;

/// One conversation with a client, from its first byte to its end.
#[derive(Drop)]
pub struct Stack {
    alloc: Global,
    conv: u32,
    client: Option<Address>,
    // the key of the masks of frames
    mask_key: [u8; 32],
    child: Child,
}

impl Stack {
    /// The conversation of this number in this mode, whose client is at the other end of its connection there, with this key for the
    /// masks of frames. In a mode that has no place the client says by SOCKS where it goes.
    ///
    /// It stands for itself by no moves, has given nothing and awaits nothing.
    pub fn new(
        alloc: Global,
        mode: &Mode,
        conv: u32,
        peer: &Address,
        mask_key: [u8; 32],
    ) -> Result<Stack, NoMemory>
        ensures stands { IfOk result (λ made. StackStands made made [] []) }
        ensures conv { IfOk result (λ made. made.conv ≡ conv) }
        ensures client { IfOk result (λ made. made.client ≡ Some peer.now) }
        ensures mask_key { IfOk result (λ made. made.mask_key ≡ mask_key) }
        ensures start { IfOk result (λ made. start_of made ≡ begins mode.now) }
        ensures free { IfOk result (λ made. awaits made ≡ None) }
    {
        let client = Some(peer.try_clone()?);
        let child = first_child(alloc, mode, conv, peer)?;
        Ok(Stack {
            alloc,
            conv,
            client,
            mask_key,
            child,
        })
    }

    // What a WebSocket of this conversation is made with.
    fn means(&self) -> Means
        ensures { key_of result.mask_key ≡ (visitor_of self.now).key }
    {
        Means {
            alloc: self.alloc,
            mask_key: self.mask_key,
        }
    }

    // Takes an event.
    fn hear(
        &self,
        child: Child,
        moment: u64,
        event: Event,
        out: &mut Vec<Command>,
    ) -> Result<Child, NoMemory>
        requires somewhere { IsSomewhere self.now.conv (visitor_of self.now) child }
        requires free { awaited_by child ≡ None }
        ensures takes { IfOk result (λ next. Adds (TakesChild self.now.conv (visitor_of self.now) child next moment event) out.old.items out.new.items) }
        ensures asks { IfOk result (λ next. AsksOnly (awaited_by next) out.old.items out.new.items) }
        ensures left { IfOk result (λ next. left_by next ≤ left_by child) }
    {
        match child {
            Child::Asking(layer) => {
                let taken = asking_takes(layer, &event, out);
                drop(event);
                taken
            }
            Child::Http(http) => http_takes(self.means(), http, moment, event, out),
            Child::Connecting { .. } => unreachable!(),
            Child::Reaching(reaching) => {
                let taken = self.reaching_takes(reaching, moment, &event, out);
                drop(event);
                taken
            }
            Child::Undecided { opening, server } => {
                let taken = self.opened_takes(opening, server, moment, &event, out);
                drop(event);
                taken
            }
            Child::Raw(relay) => {
                let taken = relay_takes(relay, &event, out);
                drop(event);
                taken
            }
            Child::Socket(layer) => {
                let taken = socket_takes(layer, moment, &event, out);
                drop(event);
                taken
            }
            Child::Over => {
                drop(event);
                Ok(Child::Over)
            }
        }
    }

    // Takes an event where the answer of another proxy is awaited, also behind the client's close.
    fn reaching_takes(
        &self,
        reaching: Reaching,
        moment: u64,
        event: &Event,
        out: &mut Vec<Command>,
    ) -> Result<Child, NoMemory>
        requires somewhere { IsSomewhere self.now.conv (visitor_of self.now) (Child.Reaching reaching) }
        ensures takes { IfOk result (λ next. Adds (TakesChild self.now.conv (visitor_of self.now) (Child.Reaching reaching) next moment event.now) out.old.items out.new.items) }
        ensures asks { IfOk result (λ next. AsksOnly (awaited_by next) out.old.items out.new.items) }
        ensures left { IfOk result (λ next. left_by next ≤ left_by (Child.Reaching reaching)) }
    {
        let Reaching {
            asked,
            server,
            closed_before,
            goal,
        } = reaching;
        let mut asked = asked;
        let goal = hear_goal(self.alloc, goal, event)?;
        match hear_proxy(&mut asked, server, event)? {
            ProxySays::Nothing => Ok(Child::Reaching(Reaching {
                asked,
                server,
                closed_before,
                goal,
            })),
            ProxySays::Yes => {
                let rest = asked.into_rest()?;
                self.let_through(goal, server, rest, moment, out)
            }
            ProxySays::No { shut } => {
                let now = self.now_by(moment, closed_before);
                let used = Used::ByServer {
                    number: server,
                    closed: shut,
                };
                turn_away(now, goal, used, out)
            }
        }
    }

    // The proxy let through: a CONNECT is answered, or the present flow goes on. `rest` is what came behind its head.
    fn let_through(
        &self,
        goal: Goal,
        server: u32,
        rest: Bytes,
        moment: u64,
        out: &mut Vec<Command>,
    ) -> Result<Child, NoMemory>
        requires there { CanGoOn server goal rest moment }
        ensures lets_through { IfOk result (λ next. Adds (LetsThrough self.now.conv (visitor_of self.now) server goal rest moment next) out.old.items out.new.items) }
        ensures asks { IfOk result (λ next. AsksOnly (awaited_by next) out.old.items out.new.items) }
        ensures left { IfOk result (λ next. left_by next ≤ goal_left goal) }
    {
        match goal {
            Goal::Tunnel { opening, closed } => {
                let rest = unless_closed(closed, rest);
                self.tell(opening, server, rest, closed, moment, out)
            }
            Goal::Flow(http) => {
                let rest = unless_closed(http.client_closed(), rest);
                reach(self.means(), http, rest, moment, out)
            }
        }
    }

    // When a call is made, where the client had closed by then or not, and no side is parked.
    fn now_by(&self, moment: u64, client_closed: bool) -> Now
        ensures moment { result.moment ≡ moment }
        ensures closed { result.client_closed ≡ client_closed }
        ensures parked { result.parked ≡ NoServer }
    {
        Now {
            alloc: self.alloc,
            moment,
            client_closed,
            parked: Used::NoServer,
        }
    }

    // Takes an event where nothing is decided yet.
    fn opened_takes(
        &self,
        opening: Opening,
        server: u32,
        moment: u64,
        event: &Event,
        out: &mut Vec<Command>,
    ) -> Result<Child, NoMemory>
        requires somewhere { IsSomewhere self.now.conv (visitor_of self.now) (Child.Undecided opening server) }
        ensures takes { IfOk result (λ next. Adds (TakesChild self.now.conv (visitor_of self.now) (Child.Undecided opening server) next moment event.now) out.old.items out.new.items) }
        ensures asks { IfOk result (λ next. AsksOnly (awaited_by next) out.old.items out.new.items) }
        ensures left { IfOk result (λ next. left_by next ≤ opened_left) }
    {
        if let Some(sides) = closed_by(server, event) {
            close_sides(sides, out)?;
            return Ok(Child::Over);
        }
        match event {
            Event::Piece { side, bytes } => {
                self.opened_hears(opening, server, moment, *side, bytes, out)
            }
            _ => Ok(Child::Undecided { opening, server }),
        }
    }

    // Bytes come of a side where nothing is decided yet.
    fn opened_hears(
        &self,
        opening: Opening,
        server: u32,
        moment: u64,
        side: Side,
        bytes: &Bytes,
        out: &mut Vec<Command>,
    ) -> Result<Child, NoMemory>
        requires few { IsFewDials opening server }
        ensures takes { IfOk result (λ next. Adds (TakesChild self.now.conv (visitor_of self.now) (Child.Undecided opening server) next moment (Event.Piece side bytes.now)) out.old.items out.new.items) }
        ensures asks { IfOk result (λ next. AsksOnly (awaited_by next) out.old.items out.new.items) }
        ensures left { IfOk result (λ next. left_by next ≤ opened_left) }
    {
        match side {
            Side::Client => {
                let opening = add(self.alloc, opening, bytes)?;
                self.decide(opening, server, Bytes::empty(), moment, out)
            }
            Side::Server(number) if number == server && !bytes.is_empty() => {
                unread(opening, server, bytes.try_clone()?, out)
            }
            Side::Server(_) => Ok(Child::Undecided { opening, server }),
        }
    }

    // What the client has sent decides, or what has come of the server where that leaves it open, or nothing is decided yet. The client has
    // not closed.
    fn decide(
        &self,
        opening: Opening,
        server: u32,
        rest: Bytes,
        moment: u64,
        out: &mut Vec<Command>,
    ) -> Result<Child, NoMemory>
        requires few { IsFewDials opening server }
        ensures decides { IfOk result (λ next. Adds (Decides self.now.conv (visitor_of self.now) opening server rest moment next) out.old.items out.new.items) }
        ensures asks { IfOk result (λ next. AsksOnly (awaited_by next) out.old.items out.new.items) }
        ensures left { IfOk result (λ next. left_by next ≤ opened_left) }
    {
        if has_method(opening.rest.as_slice()) {
            return self.begin_inside(opening, server, rest, moment, out);
        }
        if !rest.is_empty() || !may_have_method(opening.rest.as_slice()) {
            return unread(opening, server, rest, out);
        }
        Ok(Child::Undecided { opening, server })
    }

    // HTTP begins in the tunnel, with what the client has sent, and with what has come of the server, whose side is parked.
    fn begin_inside(
        &self,
        opening: Opening,
        server: u32,
        rest: Bytes,
        moment: u64,
        out: &mut Vec<Command>,
    ) -> Result<Child, NoMemory>
        requires few { IsFewDials opening server }
        ensures inside { IfOk result (λ next. Adds (GoesInside self.now.conv (visitor_of self.now) opening server rest moment next) out.old.items out.new.items) }
        ensures asks { IfOk result (λ next. AsksOnly (awaited_by next) out.old.items out.new.items) }
        ensures left { IfOk result (λ next. left_by next ≤ opened_left) }
    {
        let Opening {
            flow,
            dials,
            address,
            proxy,
            rest: client,
        } = opening;
        let kept = Kept {
            side: server,
            address: address.try_clone()?,
        };
        let place = Place::Fixed {
            address,
            inside: proxy,
        };
        let made = self.http_inside(place, kept, flow, dials)?;
        let rests = Rests {
            client,
            server: rest,
        };
        let http = begin_boxed(made, moment, &rests, out)?;
        follow(self.means(), moment, http, out)
    }

    // HTTP in a tunnel, at this place, with the side that is connected; its first flow has this number, and so many servers were dialled.
    fn http_inside(
        &self,
        place: Place,
        kept: Kept,
        flow: u32,
        dials: u32,
    ) -> Result<Box<HttpConv>, NoMemory>
        requires few { flow < 1000000 }
        requires dials { dials ≤ flow + 1 }
        requires side { kept.server < dials }
        ensures terms { IfOk result (λ http. http.value.stream.terms ≡ terms_of self.now.conv self.now.client place) }
        ensures at { IfOk result (λ http. http.value.stream.at ≡ record { flow = flow; dials = dials; parked = Some kept }) }
        ensures new { IfOk result (λ http. IsNew http.value.stream) }
    {
        let client = copy_address(&self.client)?;
        let http = HttpConv::new(
            self.alloc,
            self.conv,
            client,
            place,
            Some(kept),
            flow,
            dials,
        )?;
        Ok(Box::new(self.alloc, http)?)
    }

    // Takes the reply to what is awaited.
    fn answer(
        &self,
        child: Child,
        moment: u64,
        reply: Reply,
        out: &mut Vec<Command>,
    ) -> Result<Child, NoMemory>
        requires somewhere { IsSomewhere self.now.conv (visitor_of self.now) child }
        requires answers { MayAnswer (awaited_by child) reply }
        ensures resumes { IfOk result (λ next. Adds (ResumesChild self.now.conv (visitor_of self.now) child next moment reply) out.old.items out.new.items) }
        ensures asks { IfOk result (λ next. AsksOnly (awaited_by next) out.old.items out.new.items) }
        ensures left { IfOk result (λ next. left_by next < left_by child) }
    {
        match child {
            Child::Asking(layer) => self.asking_answers(layer, moment, reply, out),
            Child::Http(http) => self.http_answers(http, moment, reply, out),
            Child::Connecting { opening, closed } => {
                self.dialled(opening, closed, moment, reply, out)
            }
            Child::Socket(layer) => {
                let resumed = socket_resumes(layer, moment, &reply, out);
                drop(reply);
                resumed
            }
            Child::Reaching(_) | Child::Undecided { .. } | Child::Raw(_) | Child::Over => {
                unreachable!()
            }
        }
    }

    // The dial of a client of SOCKS was answered: where it is connected, what it has sent behind its request decides.
    fn asking_answers(
        &self,
        layer: SocksLayer,
        moment: u64,
        reply: Reply,
        out: &mut Vec<Command>,
    ) -> Result<Child, NoMemory>
        requires somewhere { IsSomewhere self.now.conv (visitor_of self.now) (Child.Asking layer) }
        requires answers { MayAnswer (awaited_by (Child.Asking layer)) reply }
        ensures resumes { IfOk result (λ next. Adds (ResumesChild self.now.conv (visitor_of self.now) (Child.Asking layer) next moment reply) out.old.items out.new.items) }
        ensures asks { IfOk result (λ next. AsksOnly (awaited_by next) out.old.items out.new.items) }
        ensures left { IfOk result (λ next. left_by next < left_by (Child.Asking layer)) }
    {
        let mut layer = layer;
        layer.answer(&reply, out)?;
        drop(reply);
        match layer.into_tunnel() {
            Some(tunnel) => self.decide(opening_in(tunnel), 0, Bytes::empty(), moment, out),
            None => Ok(Child::Over),
        }
    }

    // HTTP takes a reply. A dial that connected another proxy has the proxy asked for a tunnel to the flow's server.
    fn http_answers(
        &self,
        http: Box<HttpConv>,
        moment: u64,
        reply: Reply,
        out: &mut Vec<Command>,
    ) -> Result<Child, NoMemory>
        requires somewhere { IsSomewhere self.now.conv (visitor_of self.now) (Child.Http http) }
        requires answers { MayAnswer (awaited_by (Child.Http http)) reply }
        ensures resumes { IfOk result (λ next. Adds (ResumesChild self.now.conv (visitor_of self.now) (Child.Http http) next moment reply) out.old.items out.new.items) }
        ensures asks { IfOk result (λ next. AsksOnly (awaited_by next) out.old.items out.new.items) }
        ensures left { IfOk result (λ next. left_by next < left_by (Child.Http http)) }
    {
        match reply {
            Reply::Dialled => self.flow_dialled(http, moment, out),
            other => http_resumes(self.means(), http, moment, other, out),
        }
    }

    // The dial of a flow was answered.
    fn flow_dialled(
        &self,
        http: Box<HttpConv>,
        moment: u64,
        out: &mut Vec<Command>,
    ) -> Result<Child, NoMemory>
        requires somewhere { IsSomewhere self.now.conv (visitor_of self.now) (Child.Http http) }
        requires answers { MayAnswer (awaited_by (Child.Http http)) Reply.Dialled }
        ensures resumes { IfOk result (λ next. Adds (ResumesChild self.now.conv (visitor_of self.now) (Child.Http http) next moment Reply.Dialled) out.old.items out.new.items) }
        ensures asks { IfOk result (λ next. AsksOnly (awaited_by next) out.old.items out.new.items) }
        ensures left { IfOk result (λ next. left_by next < left_by (Child.Http http)) }
    {
        match http.leads_to()? {
            Some(address) => self.ask_proxy(http, &address, out),
            None => http_resumes(self.means(), http, moment, Reply::Dialled, out),
        }
    }

    // The proxy through which the server of the present flow is reached is asked for a tunnel to there.
    fn ask_proxy(
        &self,
        http: Box<HttpConv>,
        address: &Address,
        out: &mut Vec<Command>,
    ) -> Result<Child, NoMemory>
        requires somewhere { IsSomewhere self.now.conv (visitor_of self.now) (Child.Http http) }
        requires leads { led_to http.value.stream.terms.place http.value.stream.phase ≡ Some address.now }
        ensures resumes { (moment : ℕ) → IfOk result (λ next. Adds (ResumesChild self.now.conv (visitor_of self.now) (Child.Http http) next moment Reply.Dialled) out.old.items out.new.items) }
        ensures asks { IfOk result (λ next. AsksOnly (awaited_by next) out.old.items out.new.items) }
        ensures left { IfOk result (λ next. left_by next < left_by (Child.Http http)) }
    {
        let server = http.at().dials;
        send(
            Side::Server(server),
            connect_text(self.alloc, address)?,
            out,
        )?;
        Ok(Child::Reaching(Reaching {
            asked: UpstreamTunnel::new(self.alloc),
            server,
            closed_before: http.client_closed(),
            goal: Goal::Flow(http),
        }))
    }

    // The dial of a CONNECT was answered.
    fn dialled(
        &self,
        opening: Opening,
        closed: bool,
        moment: u64,
        reply: Reply,
        out: &mut Vec<Command>,
    ) -> Result<Child, NoMemory>
        requires somewhere { IsSomewhere self.now.conv (visitor_of self.now) (Child.Connecting opening closed) }
        ensures resumes { IfOk result (λ next. Adds (ResumesChild self.now.conv (visitor_of self.now) (Child.Connecting opening closed) next moment reply) out.old.items out.new.items) }
        ensures asks { IfOk result (λ next. AsksOnly (awaited_by next) out.old.items out.new.items) }
        ensures left { IfOk result (λ next. left_by next ≤ opened_left) }
    {
        match reply {
            Reply::Dialled => self.connected(opening, closed, moment, out),
            Reply::Refused(fault) => {
                let now = self.now_by(moment, closed);
                refuse(now, fault, false, Used::NoServer, out)?;
                Ok(Child::Over)
            }
            _ => Ok(Child::Over),
        }
    }

    // Its server is connected, or the proxy through which that is reached.
    fn connected(
        &self,
        opening: Opening,
        closed: bool,
        moment: u64,
        out: &mut Vec<Command>,
    ) -> Result<Child, NoMemory>
        requires somewhere { IsSomewhere self.now.conv (visitor_of self.now) (Child.Connecting opening closed) }
        ensures resumes { IfOk result (λ next. Adds (ResumesChild self.now.conv (visitor_of self.now) (Child.Connecting opening closed) next moment Reply.Dialled) out.old.items out.new.items) }
        ensures asks { IfOk result (λ next. AsksOnly (awaited_by next) out.old.items out.new.items) }
        ensures left { IfOk result (λ next. left_by next ≤ opened_left) }
    {
        let server = opening.dials;
        let mut opening = opening;
        opening.dials = server + 1;
        if opening.proxy.is_some() {
            return self.ask_for(opening, server, closed, out);
        }
        self.tell(opening, server, Bytes::empty(), closed, moment, out)
    }

    // The proxy is asked for a tunnel to where the CONNECT asks to.
    fn ask_for(
        &self,
        opening: Opening,
        server: u32,
        closed: bool,
        out: &mut Vec<Command>,
    ) -> Result<Child, NoMemory>
        ensures asked { IfOk result (λ next. AsksFor opening server closed next out.old.items out.new.items) }
        ensures asks { IfOk result (λ next. AsksOnly (awaited_by next) out.old.items out.new.items) }
        ensures left { IfOk result (λ next. left_by next ≤ opened_left) }
    {
        let text = connect_text(self.alloc, &opening.address)?;
        send(Side::Server(server), text, out)?;
        Ok(Child::Reaching(Reaching {
            asked: UpstreamTunnel::new(self.alloc),
            server,
            closed_before: closed,
            goal: Goal::Tunnel { opening, closed },
        }))
    }

    // The client is told of the connection, and what it has sent decides, or what has come of the server, unless the client has left: that
    // ends it.
    fn tell(
        &self,
        opening: Opening,
        server: u32,
        rest: Bytes,
        closed: bool,
        moment: u64,
        out: &mut Vec<Command>,
    ) -> Result<Child, NoMemory>
        requires few { IsFewDials opening server }
        ensures tells { IfOk result (λ next. Adds (Tells self.now.conv (visitor_of self.now) opening server rest closed moment next) out.old.items out.new.items) }
        ensures asks { IfOk result (λ next. AsksOnly (awaited_by next) out.old.items out.new.items) }
        ensures left { IfOk result (λ next. left_by next ≤ opened_left) }
    {
        send(Side::Client, connected_text(self.alloc)?, out)?;
        if closed {
            drop(opening);
            drop(rest);
            close_server(server, false, out)?;
            return Ok(Child::Over);
        }
        self.decide(opening, server, rest, moment, out)
    }
}

// The proxy did not let through: a CONNECT is refused, or the present flow is. `used` is the proxy's side, and `now` says whether the client
// had closed before that was connected.
fn turn_away(now: Now, goal: Goal, used: Used, out: &mut Vec<Command>) -> Result<Child, NoMemory>
    requires there { IsGoalSomewhere goal }
    ensures turns_away { IfOk result (λ next. Adds (λ more. (conv : ℕ) (client : Visitor) (server : ℕ) (shut : Bool) → used ≡ ByServer server shut →
        TurnsAway conv client server goal shut now.client_closed now.moment next more) out.old.items out.new.items) }
    ensures asks { IfOk result (λ next. AsksOnly (awaited_by next) out.old.items out.new.items) }
    ensures left { IfOk result (λ next. left_by next ≤ goal_left goal) }
{
    match goal {
        Goal::Tunnel { opening, closed: _ } => {
            drop(opening);
            refuse(now, Fault::UpstreamRefused, false, used, out)?;
            Ok(Child::Over)
        }
        Goal::Flow(http) => refuse_flow(now, http, used, out),
    }
}

// HTTP begins with what the client has sent, and with what has come of the side that is parked.
fn begin_boxed(
    http: Box<HttpConv>,
    moment: u64,
    rests: &Rests,
    out: &mut Vec<Command>,
) -> Result<Box<HttpConv>, NoMemory>
    requires { IsNew http.value.stream }
    ensures begins { IfOk result (λ begun. Begins http.value.stream begun.value.stream moment false rests.now.client rests.now.server out.old.items out.new.items) }
    ensures asks { IfOk result (λ begun. AsksOnly (http_awaits begun.value) out.old.items out.new.items) }
    ensures left { IfOk result (λ begun. sequence_left begun.value.stream ≤ sequence_left http.value.stream) }
{
    let mut begun = http;
    begun.begin(moment, false, &rests.client, &rests.server, out)?;
    Ok(begun)
}

// HTTP takes an event, and what follows it.
fn http_takes(
    means: Means,
    http: Box<HttpConv>,
    moment: u64,
    event: Event,
    out: &mut Vec<Command>,
) -> Result<Child, NoMemory>
    requires somewhere { (conv : ℕ) × (client : Visitor) × IsSomewhere conv client (Child.Http http) }
    requires free { awaited_by (Child.Http http) ≡ None }
    ensures takes { IfOk result (λ next. Adds (λ more. (conv : ℕ) (client : Visitor) → client.key ≡ key_of means.mask_key → TakesChild conv client (Child.Http http) next moment event more) out.old.items out.new.items) }
    ensures asks { IfOk result (λ next. AsksOnly (awaited_by next) out.old.items out.new.items) }
    ensures left { IfOk result (λ next. left_by next ≤ left_by (Child.Http http)) }
{
    let mut http = http;
    http.take_anywhere(moment, event, out)?;
    follow(means, moment, http, out)
}

// HTTP takes a reply that is not the connection of another proxy, and what follows it.
fn http_resumes(
    means: Means,
    http: Box<HttpConv>,
    moment: u64,
    reply: Reply,
    out: &mut Vec<Command>,
) -> Result<Child, NoMemory>
    requires somewhere { (conv : ℕ) × (client : Visitor) × IsSomewhere conv client (Child.Http http) }
    requires answers { MayAnswer (awaited_by (Child.Http http)) reply }
    requires plain { IsPlain http.value reply }
    ensures resumes { IfOk result (λ next. Adds (λ more. (conv : ℕ) (client : Visitor) → client.key ≡ key_of means.mask_key → ResumesChild conv client (Child.Http http) next moment reply more) out.old.items out.new.items) }
    ensures asks { IfOk result (λ next. AsksOnly (awaited_by next) out.old.items out.new.items) }
    ensures left { IfOk result (λ next. left_by next < left_by (Child.Http http)) }
{
    let mut http = http;
    http.resume_anywhere(moment, reply, out)?;
    follow(means, moment, http, out)
}

// The present flow is connected through another proxy, and goes on with what has come of its server.
fn reach(
    means: Means,
    http: Box<HttpConv>,
    rest: Bytes,
    moment: u64,
    out: &mut Vec<Command>,
) -> Result<Child, NoMemory>
    requires there { CanReach http rest moment }
    ensures leads { IfOk result (λ next. Adds (Leads (key_of means.mask_key) http rest moment next) out.old.items out.new.items) }
    ensures asks { IfOk result (λ next. AsksOnly (awaited_by next) out.old.items out.new.items) }
    ensures left { IfOk result (λ next. left_by next ≤ goal_left (Goal.Flow http)) }
{
    let mut http = http;
    http.reach(moment, &rest, out)?;
    follow(means, moment, http, out)
}

// The present flow is refused: it ends by that.
fn refuse_flow(
    now: Now,
    http: Box<HttpConv>,
    used: Used,
    out: &mut Vec<Command>,
) -> Result<Child, NoMemory>
    requires waits { IsDialling http.value.stream.phase }
    ensures over { IfOk result (λ next. next ≡ Child.Over) }
    ensures gives { OnOk result (EndsRefused (dialled_flow http.value.stream.phase) now.moment used now.client_closed out.old.items out.new.items) }
{
    match Box::into_inner(http).into_dialled() {
        Some(flow) => {
            end_by_fault(now, flow, Fault::UpstreamRefused, used, out)?;
            Ok(Child::Over)
        }
        None => unreachable!(),
    }
}

// What came of a server, unless the client has closed: behind its close nothing is heard.
fn unless_closed(closed: bool, text: Bytes) -> Bytes
    ensures { result ≡ unless_closed closed text }
{
    if closed { Bytes::empty() } else { text }
}

// A tunnel that is not read begins with what has come of both sides.
fn unread(
    opening: Opening,
    server: u32,
    answered: Bytes,
    out: &mut Vec<Command>,
) -> Result<Child, NoMemory>
    ensures relays { IfOk result (λ next. Adds (Relays (record { server = server; shut = false; closed = false }) (record { client = opening.rest; server = answered }) None next) out.old.items out.new.items) }
    ensures asks { IfOk result (λ next. AsksOnly (awaited_by next) out.old.items out.new.items) }
    ensures left { IfOk result (λ next. left_by next ≤ opened_left) }
{
    let sides = Sides {
        server,
        shut: false,
        closed: false,
    };
    let rests = Rests {
        client: opening.rest,
        server: answered,
    };
    begin_relay(sides, rests, None, out)
}

fn copy_address(address: &Option<Address>) -> Result<Option<Address>, NoMemory>
    ensures { IfOk result (λ copy. copy ≡ address.now) }
{
    match address {
        Some(address) => Ok(Some(address.try_clone()?)),
        None => Ok(None),
    }
}

impl Layer for Stack {
    ghost use Rattle.std.specs.Prelude.{ℕ, List};
    ghost use Rattle.px_stack.specs.Kept.{http_keeps_no_body, is_over, kept_by, left_by};
    ghost use Rattle.px_stack.specs.Stack.{StackStands, awaits};

    ghost stands = { StackStands };

    ghost awaited = { awaits };

    ghost left = { λ state. left_by state.child };

    ghost rate = { λ state. 0 };

    ghost kept = { λ state. kept_by state.child };

    ghost keeps_no_body = { λ state. http_keeps_no_body state.child };

    ghost ended = { λ state. is_over state.child };

    fn take(&mut self, moment: u64, event: Event, out: &mut Vec<Command>) -> Result<(), NoMemory> {
        let child = mem::replace(&mut self.child, Child::Over);
        let next = self.hear(child, moment, event, out)?;
        drop(mem::replace(&mut self.child, next));
        Ok(())
    }

    fn resume(
        &mut self,
        moment: u64,
        reply: Reply,
        out: &mut Vec<Command>,
    ) -> Result<(), NoMemory> {
        let child = mem::replace(&mut self.child, Child::Over);
        let next = self.answer(child, moment, reply, out)?;
        drop(mem::replace(&mut self.child, next));
        Ok(())
    }

    fn waiting(&self) -> Option<Ask> {
        self.child.waiting()
    }

    fn kept(&self) -> usize {
        self.child.kept()
    }

    fn ended(&self) -> bool {
        self.child.ended()
    }
}
