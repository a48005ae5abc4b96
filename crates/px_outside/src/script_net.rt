//! A network that follows a script.
//!
//! What it hears is the script in its order, and then `End` for ever, with the last moment that was given. Calls of
//! `listen` and `next` are counted together from 0, and the call whose number is listed fails: it gives nothing of the
//! script. A call for which memory runs out adds nothing to the trace, takes nothing of the script and is not counted.
ghost use Rattle.std.specs.Prelude.{◌≡◌, ◌≤◌, ◌↔◌, [], Some, IfOk, OnOk, OnErr, option_copied};
ghost use Rattle.px_event.specs.Trace.{said_in, bytes_to, sent};
ghost use Rattle.px_outside.specs.Count.{Rose, FailsNext};
ghost use Rattle.px_outside.specs.ScriptNet.{next_heard, after_step, after_next, after_fault, after_listen, not_listening};
ghost use Rattle.px_outside.specs.Net.{Adds, idle, failed, at, IsNote};

use crate::plan::FaultPlan;
use crate::{Net, NetError};
use px_event::{Heard, Said, Side, Step};
use px_message::Address;
use px_text::NoMemory;
use std::alloc::Global;
use std::collections::VecDeque;
use std::marker::Model;

/// A network that hears a list of things and keeps its trace.
#[derive(Debug, Drop)]
pub struct ScriptNet {
    script: VecDeque<(u64, Heard)>,
    last: u64,
    trace: Vec<Step>,
    plan: FaultPlan,
    faults: u64,
    listening: Listening,
}

// Whether it was asked to listen, and where it does.
#[derive(Debug, Drop)]
enum Listening {
    Idle,
    Failed,
    At {
        proxy: Address,
        control: Option<Address>,
    },
}

impl Model for ScriptNet {
    ghost use Rattle.px_outside.specs.ScriptNet.{NetState, listening_of};

    ghost Value = { NetState };

    ghost view = { λ n. record { script = n.script.items; last = n.last; trace = n.trace.items; plan = n.plan; faults = n.faults; listening = listening_of n.listening } };
}

impl ScriptNet {
    /// A network that hears this script, a moment with each thing. The calls of these numbers fail.
    pub fn new(alloc: Global, script: Vec<(u64, Heard)>, fails: Vec<u64>) -> ScriptNet
        ensures { result ≡ record { script = script.items; last = 0; trace = []; plan = record { count = 0; fails = fails.items }; faults = 0; listening = idle } }
    {
        ScriptNet {
            script: VecDeque::from(script),
            last: 0,
            trace: Vec::new(alloc),
            plan: FaultPlan::new(fails),
            faults: 0,
            listening: Listening::Idle,
        }
    }

    /// The steps so far.
    pub fn trace(&self) -> &[Step]
        ensures { result.now ≡ self.now.trace }
    {
        self.trace.as_slice()
    }

    /// The joined bytes that were sent to this side of the conversation.
    pub fn sent(&self, conv: u32, side: Side) -> Result<Vec<u8>, NoMemory>
        ensures { IfOk result (λ bytes. bytes.items ≡ sent self.now.trace conv side) }
    {
        let mut bytes = Vec::new(*self.trace.allocator());
        for step in &self.trace {
            bytes.extend_from_slice(sent_by(step, conv, side))?;
        }
        Ok(bytes)
    }

    // What is heard next: the script's first, or its end.
    fn next_heard(&self) -> Result<(u64, Heard), NoMemory>
        ensures { IfOk result (λ given. given ≡ next_heard self.now) }
    {
        match self.script.front() {
            Some((moment, heard)) => Ok((*moment, heard.try_clone()?)),
            None => Ok((self.last, Heard::End)),
        }
    }

    fn fail(&mut self)
        ensures after { self.new ≡ after_fault self.old }
        ensures later { self.old.faults ≤ self.new.faults }
    {
        self.plan.count_call();
        self.faults = self.faults.saturating_add(1);
    }

    fn add(&mut self, step: Step) -> Result<(), NoMemory>
        ensures ok { OnOk result (self.new ≡ after_step self.old step) }
        ensures err { OnErr result (self.new ≡ self.old) }
    {
        self.trace.push(step)?;
        Ok(())
    }
}

impl Net for ScriptNet {
    ghost trace = { λ n. Some n.trace };

    ghost faults = { λ n. n.faults };

    ghost listening = { λ n. n.listening };

    fn listen(&mut self, proxy: &Address, control: Option<&Address>) -> Result<(), NetError>
        requires first { self.old.listening ≡ idle }
        ensures ok { OnOk result (self.new.listening ≡ at proxy.now (option_copied control.entry)) }
        ensures err { OnErr result (self.new.listening ≡ failed) }
        ensures trace { Some self.new.trace ≡ Some self.old.trace }
        ensures later { self.old.faults ≤ self.new.faults }
        ensures fault { result ≡ Err NetError.Fault → Rose self.old.faults self.new.faults }

        // When it fails, and what each answer leaves.
        ensures fails { (result ≡ Err NetError.Fault) ↔ FailsNext self.old.plan }
        ensures after_ok { OnOk result (self.new ≡ after_listen self.old proxy.now (option_copied control.entry)) }
        ensures after_failed { result ≡ Err NetError.Fault → self.new ≡ not_listening (after_fault self.old) }
        ensures after_no_memory { result ≡ Err NetError.NoMemory → self.new ≡ not_listening self.old }
    {
        self.listening = Listening::Failed;
        if self.plan.fails_next() {
            self.fail();
            return Err(NetError::Fault);
        }
        let proxy = proxy.try_clone()?;
        let control = match control {
            Some(address) => Some(address.try_clone()?),
            None => None,
        };
        self.listening = Listening::At { proxy, control };
        self.plan.count_call();
        Ok(())
    }

    fn next(&mut self) -> Result<(u64, Heard), NetError>
        ensures heard { IfOk result (λ r. Adds (Some self.old.trace) (Some self.new.trace) (Step.Heard r.0 r.1)) }
        ensures err { OnErr result (Some self.new.trace ≡ Some self.old.trace) }
        ensures listening { self.new.listening ≡ self.old.listening }
        ensures later { self.old.faults ≤ self.new.faults }
        ensures fault { result ≡ Err NetError.Fault → Rose self.old.faults self.new.faults }

        // When it fails, what it gives, and what each answer leaves.
        ensures fails { (result ≡ Err NetError.Fault) ↔ FailsNext self.old.plan }
        ensures given { IfOk result (λ given. given ≡ next_heard self.old) }
        ensures after_ok { OnOk result (self.new ≡ after_next self.old) }
        ensures after_failed { result ≡ Err NetError.Fault → self.new ≡ after_fault self.old }
        ensures after_no_memory { result ≡ Err NetError.NoMemory → self.new ≡ self.old }
    {
        if self.plan.fails_next() {
            self.fail();
            return Err(NetError::Fault);
        }
        let (moment, heard) = self.next_heard()?;
        let copy = heard.try_clone()?;
        self.add(Step::Heard {
            moment,
            heard: copy,
        })?;
        let _ = self.script.pop_front();
        self.last = moment;
        self.plan.count_call();
        Ok((moment, heard))
    }

    fn say(&mut self, conv: u32, said: Said) -> Result<(), NoMemory>
        ensures said { OnOk result (Adds (Some self.old.trace) (Some self.new.trace) (Step.Said conv said)) }
        ensures err { OnErr result (Some self.new.trace ≡ Some self.old.trace) }
        ensures listening { self.new.listening ≡ self.old.listening }
        ensures faults { self.new.faults ≡ self.old.faults }

        // What each answer leaves.
        ensures after_ok { OnOk result (self.new ≡ after_step self.old (Step.Said conv said)) }
        ensures after_no_memory { OnErr result (self.new ≡ self.old) }
    {
        self.add(Step::Said { conv, said })
    }

    fn note(&mut self, step: &Step) -> Result<(), NoMemory>
        requires note { IsNote step.now }
        ensures noted { OnOk result (Adds (Some self.old.trace) (Some self.new.trace) step.now) }
        ensures err { OnErr result (Some self.new.trace ≡ Some self.old.trace) }
        ensures listening { self.new.listening ≡ self.old.listening }
        ensures faults { self.new.faults ≡ self.old.faults }

        // What each answer leaves.
        ensures after_ok { OnOk result (self.new ≡ after_step self.old step.now) }
        ensures after_no_memory { OnErr result (self.new ≡ self.old) }
    {
        let step = step.try_clone()?;
        self.add(step)
    }
}

// The bytes that the step sends to this side of the conversation.
fn sent_by(step: &Step, conv: u32, side: Side) -> &[u8]
    ensures { result.now ≡ bytes_to side (said_in conv step.now) }
{
    match step {
        Step::Said {
            conv: other,
            said: Said::Send { side: to, bytes },
        } if *other == conv && *to == side => bytes.as_slice(),
        _ => &[],
    }
}
