//! Laws of what is generated and what is counted. Each function does nothing; what it ensures is the law.
ghost use Rattle.std.specs.Prelude.{◌≡◌, ◌≤◌, ◌+◌, ◌*◌, ℕ, List, All, length, true, false};
ghost use Rattle.px_text.specs.Prefix.{IsPrefixOf};
ghost use Rattle.px_event.specs.Trace.{Trace, sent};
ghost use Rattle.px_event.specs.declared.side.Side.TheVariants.{Client as ToClient};
ghost use Rattle.px_gen.specs.Counts.{IsOfOne, bytes_to_client};
ghost use Rattle.px_gen.specs.Heard.{Hears, all_heard, heard_in, is_ended};
ghost use Rattle.px_gen.specs.Script.{ArePiecesOf, pieces_of, script};

/// In a run that says something in one conversation alone, the bytes counted to the client are those that were sent to its client.
pub fn client_bytes_are_those_sent()
    ensures sent { (conv : ℕ) (trace : Trace) → All (IsOfOne conv) trace → bytes_to_client trace ≡ length (sent trace conv ToClient) }
{}

/// A text is its pieces, one behind the other. Each has 1,000 bytes but the last, and the last is not empty.
pub fn pieces_are_the_text()
    ensures pieces { (text : List ℕ) → ArePiecesOf text (pieces_of text) }
{}

/// Where the last thing heard is the end, what was heard but for the ends is the script: all of it, each thing once, in its order.
pub fn an_ended_run_heard_the_script()
    ensures heard { (count : ℕ) (trace : Trace) → Hears count trace → is_ended trace ≡ true → heard_in trace ≡ script count }
{}

/// Where the last thing heard is not the end, all that was heard begins the script; so it is four things for each flow at most, and two.
pub fn an_unended_run_heard_a_beginning()
    ensures begun { (count : ℕ) (trace : Trace) → Hears count trace → is_ended trace ≡ false → IsPrefixOf (all_heard trace) (script count) }
    ensures few { (count : ℕ) (trace : Trace) → Hears count trace → is_ended trace ≡ false → length (all_heard trace) ≤ 4 * count + 2 }
{}
