//! The one contract of conversations.
//!
//! A conversation takes events at any time, and answers as events too. Its state stands for how it was made, for the list
//! of its calls, each an event that it took or a reply that it was given, and for the commands that it gave, as a
//! layer's does. What it adds to a layer: its number, which is that of the flows it names; an event may come while
//! something is awaited; and an answer that is not awaited changes nothing.
ghost use Rattle.std.specs.Prelude.{◌≡◌, ◌≢◌, ◌+◌, ◌-◌, ◌*◌, ◌^◌, ◌<◌, ◌≤◌, ℕ, Bool, true, List, Some, Option, IsOk, OnOk, min};
ghost use Rattle.px_event.specs.Layer.{Move, Took, Replied, IsSound, Goes, AsksOnly, IsNews, weight};
ghost use Rattle.px_event.specs.declared.command.Command.{Command as GivenCommand};
ghost use Rattle.px_event.specs.declared.ask.Ask.{Ask as AwaitedAsk};
ghost use Rattle.px_event.specs.declared.reply.Reply.{Reply as GivenReply};
ghost use Rattle.px_core.specs.Conversation.{MayTake, AsksWhile, NamesOnly};

use px_event::{Ask, Command, Event};
use px_text::NoMemory;

/// A conversation.
pub trait Conversation: Drop {
    /// Its number. No call changes it.
    ghost number: { Self → ℕ };

    /// The conversation that was made as the first state came by these calls to the second, and gave these commands.
    ghost stands: { Self → Self → List Move → List GivenCommand → Type 0 };

    /// What was asked and is not answered.
    ghost awaited: { Self → Option AwaitedAsk };

    /// How many replies can still be asked for, at most, if nothing more is taken.
    ghost left: { Self → ℕ };

    /// By how much an event's byte can raise that number, at most.
    ghost rate: { Self → ℕ };

    /// The number of bytes that the state keeps, as a layer's.
    ghost kept: { Self → ℕ };

    /// Whether it keeps no message's body, and awaits nothing.
    ghost keeps_no_body: { Self → Bool };

    /// Whether nothing more will come of it.
    ghost ended: { Self → Bool };

    /// Takes an event, at this moment in microseconds since 1970, and appends the commands that follow. An answer that is
    /// not awaited changes nothing and gives nothing. After `NoMemory` the conversation may only be dropped.
    fn take(&mut self, moment: u64, event: Event, out: &mut Vec<Command>) -> Result<(), NoMemory>
        requires sound { IsSound stands self.old }
        requires may { MayTake event }
        ensures goes { IsNews event → OnOk result (Goes stands self.old self.new (Took moment event) out.old.items out.new.items) }
        ensures answered { (ask : AwaitedAsk) (reply : GivenReply) → event ≡ Event.Answered ask reply → awaited self.old ≡ Some ask → OnOk result (Goes stands self.old self.new (Replied moment reply) out.old.items out.new.items) }
        ensures not_awaited { (ask : AwaitedAsk) (reply : GivenReply) → event ≡ Event.Answered ask reply → awaited self.old ≢ Some ask → IsOk result × (self.new ≡ self.old) × (out.new ≡ out.old) }
        ensures sound { OnOk result (IsSound stands self.new) }
        ensures asks { IsNews event → OnOk result (AsksWhile (awaited self.old) (awaited self.new) out.old.items out.new.items) }
        ensures answer_asks { (ask : AwaitedAsk) (reply : GivenReply) → event ≡ Event.Answered ask reply → awaited self.old ≡ Some ask → OnOk result (AsksOnly (awaited self.new) out.old.items out.new.items) }
        ensures names { OnOk result (NamesOnly (number self.old) out.old.items out.new.items) }
        ensures number { OnOk result (number self.new ≡ number self.old) }
        ensures left { IsNews event → OnOk result (left self.new ≤ left self.old + rate self.old * weight event) }
        ensures answer_left { (ask : AwaitedAsk) (reply : GivenReply) → event ≡ Event.Answered ask reply → awaited self.old ≡ Some ask → OnOk result (left self.new < left self.old) }
        ensures rate { OnOk result (rate self.new ≡ rate self.old) };

    /// What is awaited.
    fn waiting(&self) -> Option<Ask>
        ensures { result ≡ awaited self.now };

    /// How many bytes it keeps, or 2^64 - 1 where that is more: at most twice 65,536 + 1,024 where it keeps no body.
    fn kept(&self) -> usize
        ensures kept { result ≡ min (kept self.now) (2 ^ 64 - 1) }
        ensures bound { IsSound stands self.now → keeps_no_body self.now ≡ true → kept self.now ≤ 133120 };

    /// Whether nothing more will come of it.
    fn ended(&self) -> bool
        ensures { result ≡ ended self.now };
}
