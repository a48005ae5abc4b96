//! Who answers hooks.
ghost use Rattle.std.specs.Prelude.{◌≡◌, ◌↔◌, ℕ, List, false, IfOk, IsErr, OnOk, OnErr};
ghost use Rattle.px_core.specs.Addons.{has_name, without_first};
ghost use Rattle.px_core.specs.Answers.{Answering, Failing};
ghost use Rattle.px_core.specs.Drafts.{reply_of};

use px_event::{Hook, Reply};
use px_message::{Flow, Response};
use px_outside::Files;
use px_text::NoMemory;

/// What is to become of a flow that is asked about.
#[derive(Debug, Drop, PartialEq, Eq)]
pub enum Verdict {
    /// It goes on.
    Go,
    /// Its request is answered with this response.
    Respond(Response),
    /// It ends, with its conversation.
    Kill,
    /// The WebSocket's message is dropped.
    Discard,
}

/// A flow as its answer will have it, with the verdict so far. At a head hook, a body above `stream` bytes may be streamed.
#[derive(Debug, Drop, PartialEq, Eq)]
pub struct Draft {
    pub flow: Flow,
    pub stream: Option<u64>,
    pub verdict: Verdict,
}

impl Draft {
    /// The reply that it is.
    pub fn into_reply(self) -> Reply
        ensures { result ≡ reply_of self }
    {
        let Draft {
            flow,
            stream,
            verdict,
        } = self;
        match verdict {
            Verdict::Go => Reply::Go { flow, stream },
            Verdict::Respond(response) => Reply::Respond(response),
            Verdict::Kill => Reply::Kill,
            Verdict::Discard => Reply::Discard,
        }
    }
}

/// The answer to a hook, or the draft of one that waits for the operator.
#[derive(Debug, Drop, PartialEq, Eq)]
pub enum Answer {
    /// The hook is answered.
    Reply(Reply),
    /// The hook waits with this draft.
    Wait(Draft),
}

/// No addon has the name.
#[derive(Debug, Clone, Copy, PartialEq, Eq)]
pub struct NoSuchAddon;

/// Rules, addons or whoever else answers hooks.
pub trait Answerer {
    ghost use Rattle.px_core.specs.Answers.{FilesMeaning};

    /// The states that it can mean.
    ghost State: { Type 0 };

    /// Its state.
    ghost state: { Self → State };

    /// Which answers it gives: a hook, its flow, the state and the files before and after, and the answer.
    ghost answers: { Answering State };

    /// What an answer that ran out of memory does to files: a hook, its flow, the state and the files before, and the files after.
    ghost fails: { Failing State };

    /// The names of its addons, in their order, by its state.
    ghost names: { State → List (List ℕ) };

    /// What taking the first addon of a name away makes of its state: the name, and the states before and after.
    ghost drops: { List ℕ → State → State → Type 0 };

    /// Answers a hook about this flow, or lets it wait. After `NoMemory` the answerer may only be dropped.
    fn answer<F: Files>(
        &mut self,
        hook: Hook,
        flow: Flow,
        files: &mut F,
    ) -> Result<Answer, NoMemory>
        ensures answers { IfOk result (λ answer. answers hook flow
            (state self.old) (record { contents = F.contents files.old; calls = F.calls files.old; misses = F.misses files.old; faults = F.faults files.old; losses = F.losses files.old })
            (state self.new) (record { contents = F.contents files.new; calls = F.calls files.new; misses = F.misses files.new; faults = F.faults files.new; losses = F.losses files.new })
            answer) }
        ensures fails { OnErr result (fails hook flow
            (state self.old) (record { contents = F.contents files.old; calls = F.calls files.old; misses = F.misses files.old; faults = F.faults files.old; losses = F.losses files.old })
            (record { contents = F.contents files.new; calls = F.calls files.new; misses = F.misses files.new; faults = F.faults files.new; losses = F.losses files.new })) };

    /// Takes the first addon of this name away, and leaves the others as they are, in their order. `NoSuchAddon` exactly where
    /// none has the name; then nothing has changed. It takes no memory.
    fn drop_addon(&mut self, name: &str) -> Result<(), NoSuchAddon>
        ensures dropped { OnOk result (drops name.now (state self.old) (state self.new)) }
        ensures names { OnOk result (names (state self.new) ≡ without_first name.now (names (state self.old))) }
        ensures unchanged { OnErr result (state self.new ≡ state self.old) }
        ensures missing { IsErr result ↔ has_name name.now (names (state self.old)) ≡ false };
}
