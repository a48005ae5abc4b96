//! The one contract by which every layer is proved.
//!
//! A layer takes events and replies, and gives commands. Its state stands for how it was made, for a list of moves, each
//! an event that it took or a reply that it was given at a moment, and for the list of the commands that it gave. Each
//! call asks that the state stands for something, and says after Ok that the new one stands for the same with one move
//! more and with the commands that the call added. So once out of memory, which says nothing of the state, a layer can
//! only be dropped. What is due of a layer may hang on how it was made (its mode, its flow), and no call changes that.
//!
//! A layer that asked is paused: until the ask is answered no event may be handed to it. Two numbers bound its asks: a
//! reply makes `left` smaller, an event raises it by at most `rate` times its weight, and `rate` never changes; so a loop
//! that answers asks ends.
//!
//! A relation that always holds meets this trait. The strength of a layer is its own public relation, and the clause of
//! its constructor: a new one stands for itself, as it was made, by no moves, and has given nothing.
ghost use Rattle.std.specs.Prelude.{◌≡◌, ◌+◌, ◌-◌, ◌*◌, ◌^◌, ◌<◌, ◌≤◌, ℕ, Bool, true, List, None, Option, OnOk, min};
ghost use Rattle.px_event.specs.Layer.{Move, Took, Replied, IsSound, Goes, AsksOnly, MayAnswer, IsNews, weight};
ghost use Rattle.px_event.specs.declared.command.Command.{Command as GivenCommand};
ghost use Rattle.px_event.specs.declared.ask.Ask.{Ask as AwaitedAsk};

use crate::{Ask, Command, Event, Reply};
use px_text::NoMemory;

/// A layer of a conversation.
pub trait Layer: Drop {
    /// The layer that was made as the first state came by these moves to the second, and gave these commands.
    ghost stands: { Self → Self → List Move → List GivenCommand → Type 0 };

    /// What was asked and is not answered.
    ghost awaited: { Self → Option AwaitedAsk };

    /// How many replies can still be asked for, at most, if nothing more is taken.
    ghost left: { Self → ℕ };

    /// By how much an event's byte can raise that number, at most.
    ghost rate: { Self → ℕ };

    /// The number of bytes that the state keeps, without its flow but for a streamed message's body and trailers, the
    /// addresses, the mask key, queued events and waiting bytes.
    ghost kept: { Self → ℕ };

    /// Whether it keeps no message's body, and awaits nothing: where it stands for something, what it keeps then has a bound.
    ghost keeps_no_body: { Self → Bool };

    /// Whether nothing more will come of it.
    ghost ended: { Self → Bool };

    /// Takes an event that is no answer, at this moment in microseconds since 1970, while nothing is awaited, and appends
    /// the commands that follow. After `NoMemory` the layer may only be dropped.
    fn take(&mut self, moment: u64, event: Event, out: &mut Vec<Command>) -> Result<(), NoMemory>
        requires sound { IsSound stands self.old }
        requires free { awaited self.old ≡ None }
        requires news { IsNews event }
        ensures goes { OnOk result (Goes stands self.old self.new (Took moment event) out.old.items out.new.items) }
        ensures sound { OnOk result (IsSound stands self.new) }
        ensures asks { OnOk result (AsksOnly (awaited self.new) out.old.items out.new.items) }
        ensures left { OnOk result (left self.new ≤ left self.old + rate self.old * weight event) }
        ensures rate { OnOk result (rate self.new ≡ rate self.old) };

    /// Takes the reply to what is awaited. After `NoMemory` the layer may only be dropped.
    fn resume(&mut self, moment: u64, reply: Reply, out: &mut Vec<Command>) -> Result<(), NoMemory>
        requires sound { IsSound stands self.old }
        requires answers { MayAnswer (awaited self.old) reply }
        ensures goes { OnOk result (Goes stands self.old self.new (Replied moment reply) out.old.items out.new.items) }
        ensures sound { OnOk result (IsSound stands self.new) }
        ensures asks { OnOk result (AsksOnly (awaited self.new) out.old.items out.new.items) }
        ensures left { OnOk result (left self.new < left self.old) }
        ensures rate { OnOk result (rate self.new ≡ rate self.old) };

    /// What is awaited.
    fn waiting(&self) -> Option<Ask>
        ensures { result ≡ awaited self.now };

    /// How many bytes it keeps, or 2^64 - 1 where that is more: at most twice 65,536 + 1,024 where it keeps no body.
    fn kept(&self) -> usize
        ensures kept { result ≡ min (kept self.now) (2 ^ 64 - 1) }
        ensures bound { IsSound stands self.now → keeps_no_body self.now ≡ true → kept self.now ≤ 133120 };

    /// Whether nothing more will come of it: its conversation has ended, or another layer follows.
    fn ended(&self) -> bool
        ensures { result ≡ ended self.now };
}
