//! Where conversations come from, and where finished flows go.
ghost use Rattle.std.specs.Prelude.{◌≡◌, ◌≤◌, ◌<◌, ◌+◌, ℕ, List, [], ◌∷◌, ◌++◌, Option, Some, None, IfOk, OnOk, OnErr};
ghost use Rattle.px_message.specs.declared.address.Address.{Address as PeerAddress};
ghost use Rattle.px_event.specs.Layer.{Move};
ghost use Rattle.px_message.specs.declared.flow.Flow.{Flow as FinishedFlow};
ghost use Rattle.px_core.specs.Calls.{number_end};
ghost use Rattle.px_core.specs.Due.{Due};

use crate::Owes;
use px_message::{Address, Flow};
use px_text::NoMemory;

/// Makes conversations: those of accepted connections, and those that have no client.
pub trait Maker<C: Owes> {
    /// What is due in the conversation of this number, by where its client is, if it has one, and by its calls. No call changes it.
    ghost due: { Self → Due };

    /// How many conversations without a client it has. No call changes it.
    ghost alone: { Self → ℕ };

    /// A conversation of this number, whose client is there, that was not called, gave nothing and awaits nothing.
    fn make(&mut self, conv: u32, peer: &Address) -> Result<C, NoMemory>
        ensures number { IfOk result (λ made. C.number made ≡ conv) }
        ensures stands { IfOk result (λ made. C.stands made made [] []) }
        ensures free { IfOk result (λ made. C.awaited made ≡ None) }
        ensures due { IfOk result (λ made. (moves : List Move) → C.due made moves ≡ due self.old conv (Some peer.now) moves) }
        ensures same { (number : ℕ) (at : Option PeerAddress) (moves : List Move) → due self.new number at moves ≡ due self.old number at moves }
        ensures count { alone self.new ≡ alone self.old };

    /// How many conversations without a client it has: at most 2^31, since theirs are the numbers from there on.
    fn count_alone(&self) -> u32
        ensures count { result ≡ alone self.now }
        ensures few { result ≤ number_end };

    /// The conversation without a client of this number, that was not called, gave nothing and awaits nothing.
    fn make_alone(&mut self, conv: u32) -> Result<C, NoMemory>
        requires first { number_end ≤ conv }
        requires few { conv < number_end + alone self.old }
        ensures number { IfOk result (λ made. C.number made ≡ conv) }
        ensures stands { IfOk result (λ made. C.stands made made [] []) }
        ensures free { IfOk result (λ made. C.awaited made ≡ None) }
        ensures due { IfOk result (λ made. (moves : List Move) → C.due made moves ≡ due self.old conv None moves) }
        ensures same { (number : ℕ) (at : Option PeerAddress) (moves : List Move) → due self.new number at moves ≡ due self.old number at moves }
        ensures count { alone self.new ≡ alone self.old };
}

/// Takes finished flows.
pub trait Taker {
    /// The flows that it took, in their order.
    ghost taken: { Self → List FinishedFlow };

    /// Takes a finished flow. After `NoMemory` it has not.
    fn done(&mut self, flow: Flow) -> Result<(), NoMemory>
        ensures taken { OnOk result (taken self.new ≡ taken self.old ++ flow ∷ []) }
        ensures err { OnErr result (taken self.new ≡ taken self.old) };
}
