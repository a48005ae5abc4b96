//! A network.
ghost use Rattle.std.specs.Prelude.{◌≡◌, ◌≤◌, ℕ, Option, IfOk, OnOk, OnErr, option_copied};
ghost use Rattle.px_event.specs.Trace.{Trace};
ghost use Rattle.px_outside.specs.Count.{Rose};
ghost use Rattle.px_outside.specs.Net.{Adds, Listening, idle, failed, at, IsNote};

use px_event::{Heard, Said, Step};
use px_message::Address;
use px_text::NoMemory;
use std::alloc::AllocFailed;

/// Why nothing was heard.
#[derive(Clone, Copy, Debug, PartialEq, Eq)]
pub enum NetError {
    /// The network failed as a whole. One socket that fails is heard as its close.
    Fault,
    /// Memory ran out.
    NoMemory,
}

impl From<NoMemory> for NetError {
    ghost use Rattle.std.specs.Prelude.{◌≡◌};
    ghost use Rattle.px_outside.specs.declared.net.NetError.TheVariants as errors;

    ghost from_gives = { λ _ error. error ≡ errors.NoMemory };

    fn from(_: NoMemory) -> NetError {
        NetError::NoMemory
    }
}

impl<T: Drop> From<AllocFailed<T>> for NetError {
    ghost use Rattle.std.specs.Prelude.{◌≡◌};
    ghost use Rattle.px_outside.specs.declared.net.NetError.TheVariants as errors;

    ghost from_gives = { λ _ error. error ≡ errors.NoMemory };

    fn from(_: AllocFailed<T>) -> NetError {
        NetError::NoMemory
    }
}

/// Where conversations come from, and where what is said to them goes.
pub trait Net {
    /// The steps of the run, where the network tells them.
    ghost trace: { Self → Option Trace };

    /// How often the network failed as a whole.
    ghost faults: { Self → ℕ };

    /// Whether it was asked to listen, and where it does.
    ghost listening: { Self → Listening };

    /// Listens for clients, and for operators where an address is given. It may be called once.
    fn listen(&mut self, proxy: &Address, control: Option<&Address>) -> Result<(), NetError>
        requires first { listening self.old ≡ idle }
        ensures ok { OnOk result (listening self.new ≡ at proxy.now (option_copied control.entry)) }
        ensures err { OnErr result (listening self.new ≡ failed) }
        ensures trace { trace self.new ≡ trace self.old }
        ensures later { faults self.old ≤ faults self.new }
        ensures fault { result ≡ Err NetError.Fault → Rose (faults self.old) (faults self.new) };

    /// Waits for the next thing, and gives it with its moment in microseconds since 1970. A socket that fails is heard
    /// as `Closed`, a dial that fails as `Dialled` with false. After an error nothing was heard.
    fn next(&mut self) -> Result<(u64, Heard), NetError>
        ensures heard { IfOk result (λ r. Adds (trace self.old) (trace self.new) (Step.Heard r.0 r.1)) }
        ensures err { OnErr result (trace self.new ≡ trace self.old) }
        ensures listening { listening self.new ≡ listening self.old }
        ensures later { faults self.old ≤ faults self.new }
        ensures fault { result ≡ Err NetError.Fault → Rose (faults self.old) (faults self.new) };

    /// Says something to a side of the conversation. After an error nothing was said.
    fn say(&mut self, conv: u32, said: Said) -> Result<(), NoMemory>
        ensures said { OnOk result (Adds (trace self.old) (trace self.new) (Step.Said conv said)) }
        ensures err { OnErr result (trace self.new ≡ trace self.old) }
        ensures listening { listening self.new ≡ listening self.old }
        ensures faults { faults self.new ≡ faults self.old };

    /// Notes a step that is neither heard nor said: the beginning of a conversation without a client, an ask, an answer or the
    /// end of a flow. After an error nothing was noted.
    fn note(&mut self, step: &Step) -> Result<(), NoMemory>
        requires note { IsNote step.now }
        ensures noted { OnOk result (Adds (trace self.old) (trace self.new) step.now) }
        ensures err { OnErr result (trace self.new ≡ trace self.old) }
        ensures listening { listening self.new ≡ listening self.old }
        ensures faults { faults self.new ≡ faults self.old };
}
