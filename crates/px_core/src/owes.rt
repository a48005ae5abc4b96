//! What is due of a conversation, as a function of how it was made and of its calls.
//!
//! Six laws carry every theorem on runs: in each view a state gave what is due by its calls; one call more takes nothing back;
//! a state has ended exactly where its calls say so; there nothing is awaited; and where calls say so no call behind them
//! changes what is due, nor that it is over.
ghost use Rattle.std.specs.Prelude.{◌≡◌, Bool, true, List, [], ◌∷◌, ◌++◌, None};
ghost use Rattle.px_text.specs.Prefix.{IsPrefixOf};
ghost use Rattle.px_event.specs.Layer.{Move};
ghost use Rattle.px_event.specs.View.{View, seen_of};
ghost use Rattle.px_event.specs.declared.command.Command.{Command as GivenCommand};

use crate::Conversation;

/// A conversation whose due is a function of its calls.
pub trait Owes: Conversation {
    /// What is due of a conversation that was made so, by these calls.
    ghost due: { Self → List Move → List GivenCommand };

    /// What a state gave is what is due.
    ghost gave: { (made state : Self) (moves : List Move) (given : List GivenCommand) → Self.stands made state moves given →
        (view : View) → seen_of view given ≡ seen_of view (due made moves) };

    /// One call more takes nothing back.
    ghost grows: { (made : Self) (moves : List Move) (move : Move) (view : View) →
        IsPrefixOf (seen_of view (due made moves)) (seen_of view (due made (moves ++ move ∷ []))) };

    /// Whether a conversation that was made so is over by these calls: nothing more is looked for, and nothing awaited.
    ghost is_over: { Self → List Move → Bool };

    /// A state has ended exactly where it is over by its calls.
    ghost ends: { (made state : Self) (moves : List Move) (given : List GivenCommand) → Self.stands made state moves given → Self.ended state ≡ is_over made moves };

    /// Where it is over no call changes what is due.
    ghost over: { (made : Self) (moves : List Move) → is_over made moves ≡ true → (more : List Move) (view : View) →
        seen_of view (due made (moves ++ more)) ≡ seen_of view (due made moves) };

    /// Where it is over it stays over, whatever is called.
    ghost lasts: { (made : Self) (moves : List Move) → is_over made moves ≡ true → (more : List Move) → is_over made (moves ++ more) ≡ true };

    /// Where a state has ended it awaits nothing.
    ghost rests: { (made state : Self) (moves : List Move) (given : List GivenCommand) → Self.stands made state moves given → Self.ended state ≡ true →
        Self.awaited state ≡ None };
}
