//! Where conversations with clients come from.
ghost use Rattle.std.specs.Prelude.{◌≡◌, ℕ, List, [], Option, Some, None, IfOk};
ghost use Rattle.px_message.specs.declared.address.Address.{Address as PeerAddress};
ghost use Rattle.px_event.specs.Layer.{Move};
ghost use Rattle.px_event.specs.Stands.{due_by};
ghost use Rattle.px_core.specs.Due.{Due};

use px_core::Numbered;
use px_message::Address;
use px_text::NoMemory;

/// Makes the layers of conversations with clients, which `Replays` has those of recorded requests beside.
pub trait ClientMaker<L: Numbered> {
    /// What is due in the conversation of this number, by where its client is and by its calls. No call changes it.
    ghost due: { Self → Due };

    /// A layer of the conversation of this number, whose client is there, that was not called, gave nothing and awaits
    /// nothing.
    fn make(&mut self, conv: u32, peer: &Address) -> Result<L, NoMemory>
        ensures number { IfOk result (λ made. L.number made ≡ conv) }
        ensures stands { IfOk result (λ made. L.stands made made [] []) }
        ensures free { IfOk result (λ made. L.awaited made ≡ None) }
        ensures due { IfOk result (λ made. (moves : List Move) → due_by (L.chain made) (L.start made) moves ≡ due self.old conv (Some peer.now) moves) }
        ensures same { (number : ℕ) (at : Option PeerAddress) (moves : List Move) → due self.new number at moves ≡ due self.old number at moves };
}
