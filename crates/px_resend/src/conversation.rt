//! A conversation with a client, or a recorded request that is sent again.
use crate::Resend;
use px_core::Numbered;
use px_event::{Ask, Command, Event, Layer, Reply};
use px_text::NoMemory;

/// A conversation with a client, or a recorded request that is sent again.
#[derive(Drop)]
pub enum Conversation<L> {
    /// One with a client.
    Client(L),
    /// One of a recorded request, without a client.
    Resent(Resend),
}

impl<L: Numbered> Layer for Conversation<L> {
    ghost use Rattle.px_resend.specs.Joined.{awaited_by, ended_by, kept_by, left_by, no_body_by, rate_by, stands_by};

    ghost stands = { stands_by L.stands };

    ghost awaited = { awaited_by L.awaited };

    ghost left = { left_by L.left };

    ghost rate = { rate_by L.rate };

    ghost kept = { kept_by L.kept };

    ghost keeps_no_body = { no_body_by L.keeps_no_body };

    ghost ended = { ended_by L.ended };

    fn take(&mut self, moment: u64, event: Event, out: &mut Vec<Command>) -> Result<(), NoMemory> {
        match self {
            Conversation::Client(layer) => layer.take(moment, event, out),
            Conversation::Resent(resent) => resent.take(moment, event, out),
        }
    }

    fn resume(
        &mut self,
        moment: u64,
        reply: Reply,
        out: &mut Vec<Command>,
    ) -> Result<(), NoMemory> {
        match self {
            Conversation::Client(layer) => layer.resume(moment, reply, out),
            Conversation::Resent(resent) => resent.resume(moment, reply, out),
        }
    }

    fn waiting(&self) -> Option<Ask> {
        match self {
            Conversation::Client(layer) => layer.waiting(),
            Conversation::Resent(resent) => resent.waiting(),
        }
    }

    fn kept(&self) -> usize {
        match self {
            Conversation::Client(layer) => layer.kept(),
            Conversation::Resent(resent) => resent.kept(),
        }
    }

    fn ended(&self) -> bool {
        match self {
            Conversation::Client(layer) => layer.ended(),
            Conversation::Resent(resent) => resent.ended(),
        }
    }
}
