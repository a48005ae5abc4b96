//! Where the present flow stands: what it looks for, or what it asked. The names are those of the chain's stages.
ghost use Rattle.std.specs.Prelude.{◌≡◌};
ghost use Rattle.px_stream.specs.Stands.{asked_of, awaited_in};

use crate::coming::Held;
use crate::going::{Going, HeldRequest, Sending};
use px_event::{Ask, Hook};
use px_exchange::Boxed;
use px_exchange::content::Content;
use px_exchange::flows::hook_of;
use px_message::{Address, Flow, Response, Shared};

/// What a flow looks for, while no answer is awaited.
#[derive(Drop)]
pub enum Wanted {
    /// The head of a request.
    Idle,
    /// The request's body; a response may be given already. No more of it is kept than the answer to the hook of its head allowed, if it
    /// told a size; and what is held of it where it may yet be streamed.
    RequestBody {
        flow: Boxed<Flow>,
        given: Option<Shared<Response>>,
        most: Option<u64>,
        body: Content,
        held: Option<HeldRequest>,
    },
    /// The connection to its server, which is to be dialled: the request is whole, or it is streamed and what came of it waits.
    Connection {
        flow: Boxed<Flow>,
        up: Option<Going>,
    },
    /// The head of the final response, of this server.
    ResponseHead {
        flow: Boxed<Flow>,
        server: u32,
        up: Sending,
    },
    /// The response's body, of which no more is kept than the answer to the hook of its head allowed, if it told a size; and what is held
    /// of it where it may yet be streamed.
    ResponseBody {
        flow: Boxed<Flow>,
        server: u32,
        up: Sending,
        most: Option<u64>,
        body: Content,
        held: Option<Held>,
    },
    /// The rest of a response that is streamed, as it is sent: framed as it was read. What came of it was sent, and nothing of it is kept.
    ComingDown {
        flow: Boxed<Flow>,
        server: u32,
        up: Sending,
        sent: Shared<Response>,
    },
    /// Nothing: a response of code 101 was sent, and what follows on both sides is of another protocol.
    Upgraded {
        flow: Boxed<Flow>,
        server: u32,
    },
    /// A response was given in place of the server's: the hook of its head is to be asked.
    GivenHead {
        flow: Boxed<Flow>,
    },
    /// And that of the whole of it.
    GivenBody {
        flow: Boxed<Flow>,
    },
    /// Nothing: a CONNECT was read, which asks for a tunnel to there.
    Connects {
        address: Address,
    },
    /// Nothing: the conversation has ended.
    Over,
}

/// What an answer is awaited to, by the stage that asked.
#[derive(Drop)]
pub enum Asked {
    /// The hook of the request's head; whether the client waits to send the body.
    Idle {
        flow: Boxed<Flow>,
        expects: bool,
    },
    /// The hook of the whole request.
    RequestBody {
        flow: Boxed<Flow>,
    },
    /// The dial of this server; of a request that is streamed what came waits.
    Connection {
        flow: Boxed<Flow>,
        server: u32,
        up: Option<Going>,
    },
    /// The hook of the response's head.
    ResponseHead {
        flow: Boxed<Flow>,
        server: u32,
        up: Sending,
    },
    /// The hook of the whole response.
    ResponseBody {
        flow: Boxed<Flow>,
        server: u32,
        up: Sending,
    },
    /// The hook of the head of a response that was given in place of the server's.
    GivenHead {
        flow: Boxed<Flow>,
    },
    /// And that of the whole of it.
    GivenBody {
        flow: Boxed<Flow>,
    },
}

/// Where the present flow stands.
#[derive(Drop)]
pub enum Phase {
    Ready(Wanted),
    Asked(Asked),
}

impl Asked {
    /// What is awaited.
    pub fn ask(&self) -> Ask
        ensures { result ≡ asked_of self.now }
    {
        match self {
            Asked::Idle { flow, .. } => hook_of(flow, Hook::RequestHead),
            Asked::RequestBody { flow } => hook_of(flow, Hook::RequestBody),
            Asked::Connection { server, .. } => Ask::Dial { server: *server },
            Asked::ResponseHead { flow, .. } => hook_of(flow, Hook::ResponseHead),
            Asked::ResponseBody { flow, .. } => hook_of(flow, Hook::ResponseBody),
            Asked::GivenHead { flow } => hook_of(flow, Hook::ResponseHead),
            Asked::GivenBody { flow } => hook_of(flow, Hook::ResponseBody),
        }
    }
}

impl Phase {
    /// What is awaited, if anything is.
    pub fn waiting(&self) -> Option<Ask>
        ensures { result ≡ awaited_in self.now }
    {
        match self {
            Phase::Asked(asked) => Some(asked.ask()),
            Phase::Ready(_) => None,
        }
    }
}
