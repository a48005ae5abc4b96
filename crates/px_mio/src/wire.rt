//! The wire of real sockets.
ghost use Rattle.std.specs.Prelude.{◌≡◌, ◌≤◌, ◌⊎◌, Some, None, Err, IfOk, IfSome, IsSome, OnOk, OnErr, option_copied, option_map};
ghost use Rattle.px_outside.specs.Count.{Rose};
ghost use Rattle.px_outside.specs.Net.{idle, failed, at};
ghost use Rattle.px_mio.specs.Listening.{listening_of, refused_of};

use crate::ListenFault;
use crate::listening::{Listening, listening_at, one_more};
use crate::sockets::Sockets;
use px_event::Step;
use px_message::Address;
use px_outside::NetError;
use px_text::NoMemory;
use px_wire::{Got, Put, Ready, Wire};
use std::alloc::Global;
use std::net::Net;
use std::sync::Wait;
use std::time::Clock;

/// Sockets of the system.
#[derive(Drop)]
pub struct MioWire<R> {
    sockets: Sockets<R>,
    listening: Listening,
    faults: u64,
    blocks: u64,
    breaks: u64,
}

impl<R: Net + Wait + Clock + Alloc<A = Global> + Drop> MioWire<R> {
    /// A wire without a socket. `Fault` where the system refuses to tell readiness.
    pub fn new(rt: R) -> Result<MioWire<R>, NetError>
        ensures { IfOk result (λ wire. listening_of wire.listening ≡ idle) }
    {
        Ok(MioWire {
            sockets: Sockets::new(rt)?,
            listening: Listening::Idle,
            faults: 0,
            blocks: 0,
            breaks: 0,
        })
    }

    /// Why it can't listen, for people: some exactly after `listen` answered `Fault`.
    pub fn why(&self) -> Option<ListenFault>
        ensures why { result ≡ option_map (λ r. r.why) (refused_of self.now.listening) }
        ensures failed { IsSome result → listening_of self.now.listening ≡ failed }
    {
        match &self.listening {
            Listening::Failed(Some(refused)) => Some(refused.why),
            Listening::Failed(None) | Listening::Idle | Listening::At { .. } => None,
        }
    }

    /// The address at which it can't listen: some where `why` is.
    pub fn refused_at(&self) -> Option<&Address>
        ensures address { option_copied result ≡ option_map (λ r. r.address) (refused_of self.now.listening) }
    {
        match &self.listening {
            Listening::Failed(Some(refused)) => Some(&refused.address),
            Listening::Failed(None) | Listening::Idle | Listening::At { .. } => None,
        }
    }

    /// Closes all sockets, as the end of a run does, and waits for nothing. What was put is ended by the end of the connection, also where its
    /// peer sent bytes that nobody read: those that stand there are read before, up to 64 kB for each socket.
    pub fn part(self) {
        let MioWire { mut sockets, .. } = self;
        sockets.part();
    }
}

impl<R: Net + Wait + Clock + Alloc<A = Global> + Drop> Wire for MioWire<R> {
    ghost use Rattle.std.specs.Prelude.{None};
    ghost use Rattle.px_mio.specs.Listening.{listening_of};

    ghost steps = { λ w. None };

    ghost calls = { λ w. None };

    ghost agree = { λ w. tt };

    ghost listening = { λ w. listening_of w.listening };

    ghost faults = { λ w. w.faults };

    ghost asks = { λ w. None };

    ghost blocks = { λ w. w.blocks };

    ghost breaks = { λ w. w.breaks };

    fn listen(&mut self, proxy: &Address, control: Option<&Address>) -> Result<(), NetError>
        requires first { listening_of self.old.listening ≡ idle }
        ensures ok { OnOk result (listening_of self.new.listening ≡ at proxy.now (option_copied control.entry)) }
        ensures err { OnErr result (listening_of self.new.listening ≡ failed) }
        ensures faults { self.old.faults ≤ self.new.faults }
        ensures fault { result ≡ Err NetError.Fault → Rose self.old.faults self.new.faults }
        ensures blocks { self.old.blocks ≤ self.new.blocks }
        ensures breaks { self.old.breaks ≤ self.new.breaks }

        // Why it failed is told after a fault alone, with the address, which is one of those that it was asked for.
        ensures why { result ≡ Err NetError.Fault → IsSome (refused_of self.new.listening) }
        ensures only_why { IsSome (refused_of self.new.listening) → result ≡ Err NetError.Fault }
        ensures asked { IfSome (refused_of self.new.listening) (λ r. (r.address ≡ proxy.now) ⊎ (Some r.address ≡ option_copied control.entry)) }
    {
        self.listening = Listening::Failed(None);
        match self.sockets.listen(proxy, control)? {
            Some(refused) => {
                self.faults = one_more(self.faults);
                self.listening = Listening::Failed(Some(refused));
                Err(NetError::Fault)
            }
            None => {
                self.listening = listening_at(proxy, control)?;
                Ok(())
            }
        }
    }

    fn ready(&mut self) -> Result<(u64, Ready), NetError> {
        match self.sockets.ready() {
            Ok(told) => Ok(told),
            Err(NetError::Fault) => {
                self.faults = one_more(self.faults);
                Err(NetError::Fault)
            }
            Err(NetError::NoMemory) => Err(NetError::NoMemory),
        }
    }

    fn dial(&mut self, address: &Address, _step: &Step) -> Result<u32, NoMemory> {
        self.sockets.dial(address)
    }

    fn put(&mut self, slot: u32, bytes: &[u8]) -> Put {
        let put = self.sockets.put(slot, bytes);
        match put {
            Put::Blocked => self.blocks = one_more(self.blocks),
            Put::Broken => self.breaks = one_more(self.breaks),
            Put::Took(_) => {}
        }
        put
    }

    fn get(&mut self, slot: u32, room: &mut [u8]) -> Got {
        let got = self.sockets.get(slot, room);
        match got {
            Got::Blocked => self.blocks = one_more(self.blocks),
            Got::Broken => self.breaks = one_more(self.breaks),
            Got::Gave(_) | Got::Ended => {}
        }
        got
    }

    fn shut(&mut self, slot: u32) {
        self.sockets.shut(slot);
    }

    fn note(&mut self, _step: &Step) -> Result<(), NoMemory> {
        Ok(())
    }
}
