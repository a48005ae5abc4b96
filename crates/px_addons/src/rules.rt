//! The rules of a chain, and what they make of a flow.
ghost use Rattle.std.specs.Prelude.{◌≡◌, if◌then◌else◌, [], false, None, OnOk, IfOk};
ghost use Rattle.px_addons.specs.Quiet.{NoRules};
ghost use Rattle.px_addons.specs.Parts.{content_of, is_of_response};
ghost use Rattle.px_map.specs.View.{block_views, local_views, remote_views};
ghost use Rattle.px_rule.specs.Body.{body_rules};
ghost use Rattle.px_rule.specs.Header.{header_rules, with_fields};
ghost use Rattle.px_rule.specs.Requests.{uncached, uncoded};
ghost use Rattle.px_rule.specs.View.{body_views, header_views};

use px_event::Hook;
use px_filter::Filter;
use px_map::{BlockRules, LocalRules, RemoteRules};
use px_message::{Fields, Flow, Request, Shared};
use px_refresh::{StickyAuth, StickyCookies};
use px_replay::Recorded;
use px_rule::{BodyRules, HeaderRules, anticache, anticomp};
use px_text::NoMemory;
use std::alloc::Global;

/// The rules of a chain: what is made of flows in front of the addons.
#[derive(Debug, Drop)]
pub struct Rules {
    /// Block rules, asked at a request's head in front of all else (mitmproxy's option `block_list`).
    pub block: BlockRules,
    /// Map local rules, asked at a request's head (mitmproxy's option `map_local`).
    pub local: LocalRules,
    /// Map remote rules, asked at a request's head (mitmproxy's option `map_remote`).
    pub remote: RemoteRules,
    /// Header rules, asked at both heads (mitmproxy's option `modify_headers`).
    pub headers: HeaderRules,
    /// Body rules, asked where a request, a response or a WebSocket's message is whole (mitmproxy's option `modify_body`).
    pub bodies: BodyRules,
    /// Whether requests lose the fields that ask whether a kept answer still stands (mitmproxy's option `anticache`).
    pub anticache: bool,
    /// Whether requests wish for no coding (mitmproxy's option `anticomp`).
    pub anticomp: bool,
    /// Recorded flows that answer whole requests in place of a server, if there are some (mitmproxy's option `server_replay`).
    pub replay: Option<Recorded>,
    /// Whether the dates of a recorded response are moved from the moment of its flow to the end of the request that it answers (mitmproxy's option
    /// `server_replay_refresh`): of its fields `Date`, `Expires` and `Last-Modified`, and of no other. Without a recorded list it changes nothing.
    pub refresh: bool,
    /// Cookies that responses set, which later requests are sent where the filter holds (mitmproxy's option `stickycookie`). Which request a cookie is for,
    /// is told by host, in any case, port and path. A cookie's domain, its expiry and all other attributes are dropped: it is sent to no other host, and
    /// until the program ends.
    pub cookies: Option<StickyCookies>,
    /// Authorizations that requests showed, which later requests of the same host, byte by byte, are given where the filter holds and they show none
    /// (mitmproxy's option `stickyauth`). The port plays no part.
    pub auth: Option<StickyAuth>,
    /// Above how many bytes a body is streamed; none says that each is kept. An addon may change it for one flow; with a recorded list, or with
    /// `intercept`, nothing is streamed (mitmproxy's option `stream_large_bodies`).
    pub stream: Option<u64>,
    /// Which flows wait for an operator where all else lets them go on; none says no flow (mitmproxy's option `intercept`).
    pub intercept: Option<Filter>,
}

impl Rules {
    /// No rule, no recorded flow, nothing is kept for later requests, nothing is streamed, and no flow waits. It takes no memory.
    pub fn none(alloc: Global) -> Rules
        ensures block { block_views result.block ≡ [] }
        ensures local { local_views result.local ≡ [] }
        ensures remote { remote_views result.remote ≡ [] }
        ensures headers { header_views result.headers ≡ [] }
        ensures bodies { body_views result.bodies ≡ [] }
        ensures anticache { result.anticache ≡ false }
        ensures anticomp { result.anticomp ≡ false }
        ensures replay { result.replay ≡ None }
        ensures refresh { result.refresh ≡ false }
        ensures cookies { result.cookies ≡ None }
        ensures auth { result.auth ≡ None }
        ensures stream { result.stream ≡ None }
        ensures intercept { result.intercept ≡ None }
        ensures none { NoRules result }
    {
        Rules {
            block: BlockRules::none(alloc),
            local: LocalRules::none(alloc),
            remote: RemoteRules::none(alloc),
            headers: HeaderRules::none(alloc),
            bodies: BodyRules::none(alloc),
            anticache: false,
            anticomp: false,
            replay: None,
            refresh: false,
            cookies: None,
            auth: None,
            stream: None,
            intercept: None,
        }
    }

    // Applies the header rules.
    pub(crate) fn modify_headers(&self, hook: Hook, flow: &mut Flow) -> Result<(), NoMemory>
        ensures { OnOk result (flow.new ≡ header_rules (is_of_response hook) (header_views self.now.headers) flow.old) }
    {
        self.headers.apply(flow, is_of_response(hook))
    }

    // Takes the conditions away, where that is wished.
    pub(crate) fn put_uncached(&self, alloc: Global, flow: &mut Flow) -> Result<(), NoMemory>
        ensures { OnOk result (flow.new ≡ (if self.now.anticache then with_fields false uncached flow.old else flow.old)) }
    {
        if self.anticache {
            flow.request = uncached(alloc, flow.request.get())?;
        }
        Ok(())
    }

    // Puts the wish for no coding, where that is wished.
    pub(crate) fn put_uncoded(&self, alloc: Global, flow: &mut Flow) -> Result<(), NoMemory>
        ensures { OnOk result (flow.new ≡ (if self.now.anticomp then with_fields false uncoded flow.old else flow.old)) }
    {
        if self.anticomp {
            flow.request = uncoded(alloc, flow.request.get())?;
        }
        Ok(())
    }

    // Applies the body rules to the bytes that the hook is about.
    pub(crate) fn modify_body(&self, hook: Hook, flow: &mut Flow) -> Result<(), NoMemory>
        ensures { OnOk result (flow.new ≡ body_rules (content_of hook) (body_views self.now.bodies) flow.old) }
    {
        match hook {
            Hook::RequestHead | Hook::RequestBody => self.bodies.apply(flow, false),
            Hook::ResponseHead | Hook::ResponseBody => self.bodies.apply(flow, true),
            Hook::WsMessage(_) => self.bodies.apply_message(flow),
        }
    }
}

// Whether the hook is about the response.
fn is_of_response(hook: Hook) -> bool
    ensures { result ≡ is_of_response hook }
{
    matches!(hook, Hook::ResponseHead | Hook::ResponseBody)
}

// The request without the conditions, which copies of the flow may share.
fn uncached(alloc: Global, request: &Request) -> Result<Shared<Request>, NoMemory>
    ensures { IfOk result (λ shared. shared ≡ record request.now { fields = uncached request.now.fields }) }
{
    let mut fields = request.fields.try_clone()?;
    anticache(&mut fields)?;
    Shared::new(alloc, put_in(request.try_clone()?, fields))
}

// The request with the wish for no coding, which copies of the flow may share.
fn uncoded(alloc: Global, request: &Request) -> Result<Shared<Request>, NoMemory>
    ensures { IfOk result (λ shared. shared ≡ record request.now { fields = uncoded request.now.fields }) }
{
    let mut fields = request.fields.try_clone()?;
    anticomp(alloc, &mut fields)?;
    Shared::new(alloc, put_in(request.try_clone()?, fields))
}

// The request with these fields.
pub(crate) fn put_in(request: Request, fields: Fields) -> Request
    ensures { result ≡ record request { fields = fields } }
{
    let mut changed = request;
    changed.fields = fields;
    changed
}
