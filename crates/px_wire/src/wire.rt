//! Sockets that never wait.
ghost use Rattle.std.specs.Prelude.{◌≡◌, ◌<◌, ◌≤◌, ℕ, List, length, take, drop, ◌++◌, Option, Err, IfOk, OnOk, OnErr, option_copied};
ghost use Rattle.px_event.specs.Trace.{Trace};
ghost use Rattle.px_outside.specs.Count.{Rose};
ghost use Rattle.px_outside.specs.Net.{Adds, Listening, idle, failed, at};
ghost use Rattle.px_wire.specs.Calls.{Tells, AsksMore, Agrees, IfTold, IsFree, put_call, got_call, GivesFree, GotWithin, PutWithin};
ghost use Rattle.px_wire.specs.declared.call.WireCall.{WireCall};

use px_event::{Door, Step};
use px_message::Address;
use px_outside::NetError;
use px_text::NoMemory;

/// What a wire is ready for.
#[derive(Drop)]
pub enum Ready {
    /// A connection was accepted at this door; it has this slot.
    Accepted {
        slot: u32,
        door: Door,
        peer: Address,
    },
    /// The slot may have bytes, or its end.
    Readable(u32),
    /// The slot may take bytes.
    Writable(u32),
    /// The slot's dial ended: it is connected, or it is not.
    Dialled(u32, bool),
}

/// What a wire did with bytes that were put.
#[derive(Clone, Copy, PartialEq, Eq)]
pub enum Put {
    /// It took this many of them, at least one, from their front.
    Took(usize),
    /// It can take none at present.
    Blocked,
    /// The socket failed.
    Broken,
}

/// What a wire gave.
#[derive(Clone, Copy, PartialEq, Eq)]
pub enum Got {
    /// This many bytes, at least one, at the front of the room.
    Gave(usize),
    /// Nothing, now and later.
    Ended,
    /// Nothing at present.
    Blocked,
    /// The socket failed.
    Broken,
}

/// Sockets by their slots. No call but `ready` waits. A wire in memory tells its calls; real sockets tell nothing.
pub trait Wire {
    /// The steps that the wire was handed, where it tells them.
    ghost steps: { Self → Option Trace };

    /// The calls with their answers, where the wire tells them. A wire that keeps them and runs out of memory may cease to
    /// tell them.
    ghost calls: { Self → Option (List WireCall) };

    /// Where it tells both, its steps are those of its calls.
    ghost agree: { (wire : Self) → Agrees (steps wire) (calls wire) };

    /// Whether it was asked to listen, and where it does.
    ghost listening: { Self → Listening };

    /// How often the wire failed as a whole.
    ghost faults: { Self → ℕ };

    /// How often `ready` was called and did not run out of memory, where the wire tells that.
    ghost asks: { Self → Option ℕ };

    /// How often a slot could go no further at present.
    ghost blocks: { Self → ℕ };

    /// How often a socket failed.
    ghost breaks: { Self → ℕ };

    /// Listens for clients, and for operators where an address is given. It may be called once.
    fn listen(&mut self, proxy: &Address, control: Option<&Address>) -> Result<(), NetError>
        requires first { listening self.old ≡ idle }
        ensures ok { OnOk result (listening self.new ≡ at proxy.now (option_copied control.entry)) }
        ensures err { OnErr result (listening self.new ≡ failed) }
        ensures steps { steps self.new ≡ steps self.old }
        ensures calls { calls self.new ≡ calls self.old }
        ensures faults { faults self.old ≤ faults self.new }
        ensures fault { result ≡ Err NetError.Fault → Rose (faults self.old) (faults self.new) }
        ensures asks { asks self.new ≡ asks self.old }
        ensures blocks { blocks self.old ≤ blocks self.new }
        ensures breaks { breaks self.old ≤ breaks self.new };

    /// Waits until some slot can go on, and tells it with the moment in microseconds since 1970. The slot of an accepted
    /// connection is none that was given before and is not shut.
    fn ready(&mut self) -> Result<(u64, Ready), NetError>
        ensures told { IfOk result (λ r. Tells (WireCall.Told r.0 r.1) (calls self.old) (calls self.new)) }
        ensures failed { result ≡ Err NetError.Fault → Tells WireCall.NotReady (calls self.old) (calls self.new) }
        ensures no_memory { result ≡ Err NetError.NoMemory → calls self.new ≡ calls self.old }
        ensures free { IfOk result (λ r. IfTold (GivesFree r.1) (calls self.old)) }
        ensures asks { OnOk result (AsksMore 1 (asks self.old) (asks self.new)) }
        ensures asks_failed { result ≡ Err NetError.Fault → AsksMore 1 (asks self.old) (asks self.new) }
        ensures asks_err { result ≡ Err NetError.NoMemory → asks self.new ≡ asks self.old }
        ensures steps { steps self.new ≡ steps self.old }
        ensures listening { listening self.new ≡ listening self.old }
        ensures faults { faults self.old ≤ faults self.new }
        ensures fault { result ≡ Err NetError.Fault → Rose (faults self.old) (faults self.new) }
        ensures blocks { blocks self.old ≤ blocks self.new }
        ensures breaks { breaks self.old ≤ breaks self.new };

    /// Begins to connect to the address, and gives the slot, which is none that was given before and is not shut. The step
    /// is that of the run which says the dial.
    fn dial(&mut self, address: &Address, step: &Step) -> Result<u32, NoMemory>
        ensures told { IfOk result (λ slot. Tells (WireCall.Dialled address.now step.now slot) (calls self.old) (calls self.new)) }
        ensures free { IfOk result (λ slot. IfTold (IsFree slot) (calls self.old)) }
        ensures steps { OnOk result (Adds (steps self.old) (steps self.new) step.now) }
        ensures calls_err { OnErr result (calls self.new ≡ calls self.old) }
        ensures steps_err { OnErr result (steps self.new ≡ steps self.old) }
        ensures listening { listening self.new ≡ listening self.old }
        ensures faults { faults self.new ≡ faults self.old }
        ensures asks { asks self.new ≡ asks self.old }
        ensures blocks { blocks self.old ≤ blocks self.new }
        ensures breaks { breaks self.old ≤ breaks self.new };

    /// Hands bytes to the slot's socket, which takes a part of them.
    fn put(&mut self, slot: u32, bytes: &[u8]) -> Put
        requires some { 0 < length bytes.now }
        ensures told { Tells (put_call slot bytes.now result) (calls self.old) (calls self.new) }
        ensures within { PutWithin (length bytes.now) result }
        ensures steps { steps self.new ≡ steps self.old }
        ensures listening { listening self.new ≡ listening self.old }
        ensures faults { faults self.new ≡ faults self.old }
        ensures asks { asks self.new ≡ asks self.old }
        ensures blocks { blocks self.old ≤ blocks self.new }
        ensures blocked { result ≡ Put.Blocked → Rose (blocks self.old) (blocks self.new) }
        ensures breaks { breaks self.old ≤ breaks self.new }
        ensures broken { result ≡ Put.Broken → Rose (breaks self.old) (breaks self.new) };

    /// Takes bytes of the slot's socket into the front of the room. What the room holds behind them is not told.
    fn get(&mut self, slot: u32, room: &mut [u8]) -> Got
        requires some { 0 < length room.old }
        ensures told { Tells (got_call slot room.new result) (calls self.old) (calls self.new) }
        ensures within { GotWithin (length room.old) result }
        ensures room { length room.new ≡ length room.old }
        ensures steps { steps self.new ≡ steps self.old }
        ensures listening { listening self.new ≡ listening self.old }
        ensures faults { faults self.new ≡ faults self.old }
        ensures asks { asks self.new ≡ asks self.old }
        ensures blocks { blocks self.old ≤ blocks self.new }
        ensures blocked { result ≡ Got.Blocked → Rose (blocks self.old) (blocks self.new) }
        ensures breaks { breaks self.old ≤ breaks self.new }
        ensures broken { result ≡ Got.Broken → Rose (breaks self.old) (breaks self.new) };

    /// Closes the slot's socket. The slot may be given again.
    fn shut(&mut self, slot: u32)
        ensures told { Tells (WireCall.Shut slot) (calls self.old) (calls self.new) }
        ensures steps { steps self.new ≡ steps self.old }
        ensures listening { listening self.new ≡ listening self.old }
        ensures faults { faults self.new ≡ faults self.old }
        ensures asks { asks self.new ≡ asks self.old }
        ensures blocks { blocks self.old ≤ blocks self.new }
        ensures breaks { breaks self.old ≤ breaks self.new };

    /// Takes a step of the run that dials nothing.
    fn note(&mut self, step: &Step) -> Result<(), NoMemory>
        ensures told { OnOk result (Tells (WireCall.Noted step.now) (calls self.old) (calls self.new)) }
        ensures steps { OnOk result (Adds (steps self.old) (steps self.new) step.now) }
        ensures calls_err { OnErr result (calls self.new ≡ calls self.old) }
        ensures steps_err { OnErr result (steps self.new ≡ steps self.old) }
        ensures listening { listening self.new ≡ listening self.old }
        ensures faults { faults self.new ≡ faults self.old }
        ensures asks { asks self.new ≡ asks self.old }
        ensures blocks { blocks self.old ≤ blocks self.new }
        ensures breaks { breaks self.old ≤ breaks self.new };
}
