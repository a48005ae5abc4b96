//! Where gates before layers come from.
ghost use Rattle.std.specs.Prelude.{◌≡◌, ◌≤◌, ◌<◌, ◌+◌, ℕ, List, [], Option, Some, None, IfOk};
ghost use Rattle.px_message.specs.declared.address.Address.{Address as PeerAddress};
ghost use Rattle.px_event.specs.Layer.{Move};
ghost use Rattle.px_event.specs.Stands.{due_by};
ghost use Rattle.px_core.specs.Calls.{number_end};
ghost use Rattle.px_core.specs.Due.{Due};

use crate::{Maker, Numbered};
use px_gate::Gate;
use px_message::Address;
use px_text::NoMemory;
use std::alloc::Global;

/// Makes the layers of conversations: of accepted connections, and of those that have no client.
pub trait LayerMaker<L: Numbered> {
    /// What is due in the conversation of this number, by where its client is, if it has one, and by its calls. No call changes it.
    ghost due: { Self → Due };

    /// How many layers of conversations without a client it has. No call changes it.
    ghost alone: { Self → ℕ };

    /// A layer of the conversation of this number, whose client is there, that was not called, gave nothing and awaits
    /// nothing.
    fn make(&mut self, conv: u32, peer: &Address) -> Result<L, NoMemory>
        ensures number { IfOk result (λ made. L.number made ≡ conv) }
        ensures stands { IfOk result (λ made. L.stands made made [] []) }
        ensures free { IfOk result (λ made. L.awaited made ≡ None) }
        ensures due { IfOk result (λ made. (moves : List Move) → due_by (L.chain made) (L.start made) moves ≡ due self.old conv (Some peer.now) moves) }
        ensures same { (number : ℕ) (at : Option PeerAddress) (moves : List Move) → due self.new number at moves ≡ due self.old number at moves }
        ensures count { alone self.new ≡ alone self.old };

    /// How many layers of conversations without a client it has: at most 2^31, since theirs are the numbers from there on.
    fn count_alone(&self) -> u32
        ensures count { result ≡ alone self.now }
        ensures few { result ≤ number_end };

    /// The layer of the conversation without a client of this number, that was not called, gave nothing and awaits nothing.
    fn make_alone(&mut self, conv: u32) -> Result<L, NoMemory>
        requires first { number_end ≤ conv }
        requires few { conv < number_end + alone self.old }
        ensures number { IfOk result (λ made. L.number made ≡ conv) }
        ensures stands { IfOk result (λ made. L.stands made made [] []) }
        ensures free { IfOk result (λ made. L.awaited made ≡ None) }
        ensures due { IfOk result (λ made. (moves : List Move) → due_by (L.chain made) (L.start made) moves ≡ due self.old conv None moves) }
        ensures same { (number : ℕ) (at : Option PeerAddress) (moves : List Move) → due self.new number at moves ≡ due self.old number at moves }
        ensures count { alone self.new ≡ alone self.old };
}

/// Makes gates before the layers that this maker makes.
#[derive(Debug, Drop)]
pub struct Gates<K> {
    alloc: Global,
    layers: K,
}

impl<K> Gates<K> {
    /// A maker of gates before these layers.
    pub fn new(alloc: Global, layers: K) -> Gates<K>
        ensures { result.layers ≡ layers }
    {
        Gates { alloc, layers }
    }
}

impl<L: Numbered, K: LayerMaker<L>> Maker<Gate<L>> for Gates<K> {
    ghost due = { λ maker. K.due maker.layers };

    ghost alone = { λ maker. K.alone maker.layers };

    fn count_alone(&self) -> u32 {
        self.layers.count_alone()
    }

    fn make_alone(&mut self, conv: u32) -> Result<Gate<L>, NoMemory> {
        let layer = self.layers.make_alone(conv)?;
        Ok(Gate::new(self.alloc, layer))
    }

    fn make(&mut self, conv: u32, peer: &Address) -> Result<Gate<L>, NoMemory> {
        let layer = self.layers.make(conv, peer)?;
        Ok(Gate::new(self.alloc, layer))
    }
}
