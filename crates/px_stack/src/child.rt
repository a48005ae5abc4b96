//! What a conversation keeps, by where it stands.
ghost use Rattle.std.specs.Prelude.{◌≡◌, ◌≤◌, ◌+◌, ◌-◌, ◌^◌, ℕ, List, length, min, true};
ghost use Rattle.px_event.specs.Chain.{Timed};
ghost use Rattle.px_event.specs.declared.event.Event.{Event as Heard};
ghost use Rattle.px_stack.specs.Kept.{awaited_by, goal_keeps, http_keeps_no_body, is_over, kept_by};
ghost use Rattle.px_stack.specs.Stages.{Stage, Visitor};
ghost use Rattle.px_stack.specs.Stands.{IsChild};
ghost use Rattle.px_tunnel.specs.Reaching.{rest_of};

use px_event::{Ask, Layer};
use px_http::HttpConv;
use px_message::{Address, Flow};
use px_relay::WsLayer;
use px_socks::SocksLayer;
use px_text::Bytes;
use px_tunnel::{RawTunnel, UpstreamTunnel};

/// A CONNECT that was read, or the request of a client of SOCKS: the number of the flow that comes next, how many servers were dialled, which is the number of the next one,
/// where it asks for a tunnel to, the proxy through which that is reached, if there is one, and what the client has sent behind it.
#[derive(Drop)]
pub struct Opening {
    pub flow: u32,
    pub dials: u32,
    pub address: Address,
    pub proxy: Option<Address>,
    pub rest: Bytes,
}

/// What another proxy is asked to let through.
#[derive(Drop)]
pub enum Goal {
    /// A CONNECT of the client; whether it has closed.
    Tunnel { opening: Opening, closed: bool },
    /// The present flow of HTTP, which awaits its dial.
    Flow(Box<HttpConv>),
}

/// Another proxy, on the side of this number, that was asked for a tunnel; whether the client had closed before the proxy was connected.
#[derive(Drop)]
pub struct Reaching {
    pub asked: UpstreamTunnel,
    pub server: u32,
    pub closed_before: bool,
    pub goal: Goal,
}

/// A tunnel whose bytes go both ways unread, and the flow that became one.
#[derive(Drop)]
pub struct Relay {
    pub tunnel: RawTunnel,
    pub server: u32,
    pub flow: Option<Flow>,
}

/// What a conversation keeps.
#[derive(Drop)]
pub enum Child {
    /// A client of SOCKS, before its own bytes come.
    Asking(SocksLayer),
    /// HTTP, at some place.
    Http(Box<HttpConv>),
    /// A CONNECT was read, and its server is dialled; whether the client has closed.
    Connecting { opening: Opening, closed: bool },
    /// Another proxy was asked for a tunnel.
    Reaching(Reaching),
    /// Its server, of this number, is connected, and nothing is decided yet.
    Undecided { opening: Opening, server: u32 },
    /// Each side's bytes go to the other.
    Raw(Relay),
    /// Each side's frames go to the other, and whole messages are asked about.
    Socket(Box<WsLayer>),
    /// Nothing: it has ended.
    Over,
}

impl Reaching {
    // How many bytes it keeps, or 2^64 - 1 where that is more.
    fn kept(&self) -> usize
        ensures { result ≡ min (goal_keeps self.now.goal + length (rest_of self.now.asked)) (2 ^ 64 - 1) }
    {
        size_of_goal(&self.goal).saturating_add(self.asked.kept())
    }
}

fn size_of_goal(goal: &Goal) -> usize
    ensures { result ≡ min (goal_keeps goal.now) (2 ^ 64 - 1) }
{
    match goal {
        Goal::Tunnel { .. } => 0,
        Goal::Flow(http) => http.kept(),
    }
}

impl Child {
    /// What is awaited: what HTTP does, the server of a CONNECT or of a client of SOCKS, or a message of a WebSocket.
    pub fn waiting(&self) -> Option<Ask>
        ensures { result ≡ awaited_by self.now }
    {
        match self {
            Child::Asking(layer) => layer.waiting(),
            Child::Http(http) => http.waiting(),
            Child::Connecting { opening, .. } => Some(Ask::Dial {
                server: opening.dials,
            }),
            Child::Socket(layer) => layer.waiting(),
            Child::Reaching(_) | Child::Undecided { .. } | Child::Raw(_) | Child::Over => None,
        }
    }

    /// How many bytes it keeps, or 2^64 - 1 where that is more: what HTTP or a WebSocket does, those of a proxy's head, and those of a greeting or
    /// request of SOCKS that is not whole. The bytes behind a CONNECT or such a request wait for what follows, and do not count. In HTTP, where nothing is awaited and neither direction keeps a body, they are at most 2 * (65,536 + 1,024).
    pub fn kept(&self) -> usize
        ensures kept { result ≡ min (kept_by self.now) (2 ^ 64 - 1) }
        ensures bound { (conv : ℕ) (client : Visitor) (stage : Stage) (prefix : List (Timed Heard)) → IsChild conv client self.now stage prefix → http_keeps_no_body self.now ≡ true → kept_by self.now ≤ 133120 }
    {
        match self {
            Child::Asking(layer) => layer.kept(),
            Child::Http(http) => http.kept(),
            Child::Reaching(reaching) => reaching.kept(),
            Child::Socket(layer) => layer.kept(),
            Child::Connecting { .. } | Child::Undecided { .. } | Child::Raw(_) | Child::Over => 0,
        }
    }

    /// Whether it has ended.
    pub fn ended(&self) -> bool
        ensures { result ≡ is_over self.now }
    {
        match self {
            Child::Over => true,
            _ => false,
        }
    }
}
