//! Laws of what a server is sent and says, each the contract of a function that does nothing.
ghost use Rattle.std.specs.Prelude.{ℕ, List};
ghost use Rattle.px_event.specs.Layer.{Move};
ghost use Rattle.px_event.specs.Stands.{due_by, events_in};
ghost use Rattle.px_event.specs.View.{bytes_in, line, seen_of};
ghost use Rattle.px_event.specs.declared.side.Side.TheVariants.{Server as TheServer};
ghost use Rattle.px_exchange.specs.declared.terms.Terms.{Terms as Made};
ghost use Rattle.px_chain.specs.Chain.{IsOnward, begin, http_chain};
ghost use Rattle.px_chain.specs.Silent.{ParkedBelow};
ghost use Rattle.px_chain.specs.Stages.{At, Stage, idle};
ghost use Rattle.px_turns.specs.Turns.{IsHeardBehind, IsInTurn, heard_in, heard_of};

/// Each server is sent requests to one address, and each request but the first only where the whole answer to the one before stands: at the front of what the
/// server says, behind the answers to those before. Of the servers that were connected before the conversation only the one whose side is parked is sent something, and the address is that side's. What a server
/// says is all that comes of it behind the answer that connects it, and so all that comes, where nothing comes in front (`heard`).
pub fn a_server_is_sent_each_request_behind_the_answer_to_the_one_before()
    ensures in_turn { (onward : Stage → Stage) (made : Made) (at : At) (server : ℕ) (moves : List Move) → IsOnward onward → ParkedBelow at.parked at.dials →
        IsInTurn made.place at.parked at.dials server
        (bytes_in (seen_of (line (TheServer server)) (due_by (http_chain onward made) (begin (idle at)) moves)))
        (heard_of onward made at server moves) }
    ensures heard { (onward : Stage → Stage) (made : Made) (at : At) (server : ℕ) (moves : List Move) → IsHeardBehind server (heard_in onward made at server moves) (events_in 1 moves) }
{}
