//! Where a request that is sent again stands.
ghost use Rattle.std.specs.Prelude.{◌≡◌, ◌^◌, ◌-◌, ◌≤◌, List, min, true};
ghost use Rattle.px_event.specs.Chain.{Timed};
ghost use Rattle.px_event.specs.declared.event.Event.{Event as Heard};
ghost use Rattle.px_exchange.specs.declared.terms.Terms.{Terms};
ghost use Rattle.px_message.specs.declared.request.Request.{Request};
ghost use Rattle.px_resend.specs.Chain.{Stage};
ghost use Rattle.px_resend.specs.Kept.{awaited_by, is_over, keeps_no_body, kept_by};
ghost use Rattle.px_resend.specs.Stands.{IsChild};

use px_event::{Ask, Hook, Layer};
use px_exchange::Boxed;
use px_exchange::flows::hook_of;
use px_message::Flow;
use px_stream::Stream;

/// Where it stands.
#[derive(Drop)]
pub enum Child {
    /// It has not begun.
    Waiting,
    /// The hook of its request's head is asked.
    AsksHead(Boxed<Flow>),
    /// And that of the whole request.
    AsksWhole(Boxed<Flow>),
    /// Its request goes on, or a response was given in place of the server's.
    GoesOn(Box<Stream>),
    /// It has ended.
    Over,
}

impl Child {
    /// What is awaited.
    pub fn waiting(&self) -> Option<Ask>
        ensures { result ≡ awaited_by self.now }
    {
        match self {
            Child::AsksHead(flow) => Some(hook_of(flow, Hook::RequestHead)),
            Child::AsksWhole(flow) => Some(hook_of(flow, Hook::RequestBody)),
            Child::GoesOn(stream) => stream.waiting(),
            Child::Waiting | Child::Over => None,
        }
    }

    /// How many bytes it keeps, or 2^64 - 1 where that is more.
    pub fn kept(&self) -> usize
        ensures kept { result ≡ min (kept_by self.now) (2 ^ 64 - 1) }
        ensures bound { (terms : Terms) (recorded : Request) (stage : Stage) (prefix : List (Timed Heard)) → IsChild terms recorded self.now stage prefix → keeps_no_body self.now ≡ true → kept_by self.now ≤ 133120 }
    {
        match self {
            Child::GoesOn(stream) => stream.kept(),
            Child::Waiting | Child::AsksHead(_) | Child::AsksWhole(_) | Child::Over => 0,
        }
    }

    /// Whether it has ended.
    pub fn ended(&self) -> bool
        ensures { result ≡ is_over self.now }
    {
        match self {
            Child::Over => true,
            Child::Waiting | Child::AsksHead(_) | Child::AsksWhole(_) | Child::GoesOn(_) => false,
        }
    }
}
