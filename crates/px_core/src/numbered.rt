//! Layers that tell the number of their conversation.
ghost use Rattle.std.specs.Prelude.{◌≡◌, ℕ, List};
ghost use Rattle.px_event.specs.Layer.{Move};
ghost use Rattle.px_event.specs.Stands.{due_by};
ghost use Rattle.px_event.specs.declared.command.Command.{Command as GivenCommand};
ghost use Rattle.px_core.specs.Conversation.{AllNamed};

use px_event::Chained;

/// A layer whose due is a chain, and which tells the number of its conversation. So a gate before it is a conversation.
pub trait Numbered: Chained {
    /// The number of its conversation.
    ghost number: { Self → ℕ };

    /// No move changes it.
    ghost keeps_number: { (made state : Self) (moves : List Move) (given : List GivenCommand) → Self.stands made state moves given → number state ≡ number made };

    /// What is due names flows of that conversation alone.
    ghost names: { (made : Self) (moves : List Move) → AllNamed (number made) (due_by (Self.chain made) (Self.start made) moves) };
}
