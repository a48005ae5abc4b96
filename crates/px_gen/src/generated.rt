//! A network in memory that hears generated flows, and nothing else.
//!
//! How many flows is in the type, for proofs alone: so whoever is handed a `Generated<K>` knows what was heard in it, whatever was done
//! with it before. It never fails, and it tells its trace.
ghost use Rattle.std.specs.Prelude.{◌≡◌, ◌<◌, ◌-◌, ◌^◌, ℕ, [], length};
ghost use Rattle.px_outside.specs.Net.{idle};
ghost use Rattle.px_gen.specs.Heard.{Hears};
ghost use Rattle.px_gen.specs.Script.{script};

use px_event::{Heard, Said, Step};
use px_message::Address;
use px_outside::{Net, NetError, ScriptNet};
use px_text::NoMemory;
use std::alloc::Global;
use std::marker::{Brand, Model, PhantomData};

/// For proofs alone: how many flows are generated. A call with `Brand` picks the number.
pub trait Scripted {
    ghost count: { ℕ };
}

impl Scripted for Brand {
    ghost count = { 0 };
}

/// A network that hears the script of so many flows, and then the end for ever.
#[derive(Debug, Drop)]
pub struct Generated<K: Scripted> {
    net: ScriptNet,
    count: PhantomData<K>,
}

impl<K: Scripted> Model for Generated<K> {
    ghost use Rattle.px_gen.specs.Generated.{GeneratedState, IsGenerated, state_of};

    ghost Value = { GeneratedState };

    ghost view = { λ g. state_of g.net };

    ghost invariant = { λ g. IsGenerated K.count g.net };
}

impl<K: Scripted> Generated<K> {
    /// A network that hears these things, which are the script of so many flows.
    pub fn new(alloc: Global, heard: Vec<(u64, Heard)>) -> Generated<K>
        requires script { heard.items ≡ script K.count }
        ensures new { result ≡ record { trace = []; listening = idle } }
    {
        Generated {
            net: ScriptNet::new(alloc, heard, Vec::new(alloc)),
            count: PhantomData,
        }
    }

    /// The steps so far. What was heard in them begins the script with ends behind it, and they are fewer than 2^63 - 1.
    pub fn trace(&self) -> &[Step]
        ensures trace { result.now ≡ self.now.trace }
        ensures hears { Hears K.count self.now.trace }
        ensures few { length self.now.trace < 2 ^ 63 - 1 }
    {
        self.net.trace()
    }
}

impl<K: Scripted> Net for Generated<K> {
    ghost use Rattle.std.specs.Prelude.{Some};

    ghost trace = { λ g. Some g.trace };

    ghost faults = { λ _. 0 };

    ghost listening = { λ g. g.listening };

    fn listen(&mut self, proxy: &Address, control: Option<&Address>) -> Result<(), NetError> {
        self.net.listen(proxy, control)
    }

    fn next(&mut self) -> Result<(u64, Heard), NetError> {
        self.net.next()
    }

    fn say(&mut self, conv: u32, said: Said) -> Result<(), NoMemory> {
        self.net.say(conv, said)
    }

    fn note(&mut self, step: &Step) -> Result<(), NoMemory> {
        self.net.note(step)
    }
}
