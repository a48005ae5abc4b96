//! What follows of the definitions, each the contract of a function that does nothing.
ghost use Rattle.std.specs.Prelude.{◌≡◌, ℕ, List, [], Option};
ghost use Rattle.px_event.specs.Layer.{Move};
ghost use Rattle.px_event.specs.View.{bytes_in, line, seen_of};
ghost use Rattle.px_event.specs.declared.side.Side.TheVariants.{Client, Server};
ghost use Rattle.px_core.specs.Ordered.{AsksBeforeEnds};
ghost use Rattle.px_chain.specs.Silent.{NoAnswer};
ghost use Rattle.px_message.specs.declared.address.Address.{Address};
ghost use Rattle.px_message.specs.declared.request.Request.{Request};
ghost use Rattle.px_resend.specs.Dialled.{AllFinish, IsFirstAlone, dials_in};
ghost use Rattle.px_resend.specs.Due.{resend_due};

/// No hook of a flow is asked behind the flow's end in what is due of a request that is sent again.
pub fn no_hook_is_asked_behind_its_end()
    ensures { (proxy : Option Address) (conv : ℕ) (request : Option Request) (moves : List Move) → AsksBeforeEnds (resend_due proxy conv request moves) }
{}

/// No byte is due to a server before its dial was answered with the connection, and nothing at all before the first call.
pub fn servers_hear_nothing_early()
    ensures silent { (proxy : Option Address) (conv : ℕ) (request : Option Request) (server : ℕ) (moves : List Move) → NoAnswer server moves →
        bytes_in (seen_of (line (Server server)) (resend_due proxy conv request moves)) ≡ [] }
    ensures before_all { (proxy : Option Address) (conv : ℕ) (request : Option Request) → resend_due proxy conv request [] ≡ [] }
{}

/// No byte is due to a client, and no close: its line has nothing but flows that are finished.
pub fn nothing_is_said_to_a_client()
    ensures bytes { (proxy : Option Address) (conv : ℕ) (request : Option Request) (moves : List Move) → bytes_in (seen_of (line Client) (resend_due proxy conv request moves)) ≡ [] }
    ensures finishes { (proxy : Option Address) (conv : ℕ) (request : Option Request) (moves : List Move) → AllFinish (seen_of (line Client) (resend_due proxy conv request moves)) }
{}

/// What is due dials one server at most, and that is server 0.
pub fn dials_one_server()
    ensures { (proxy : Option Address) (conv : ℕ) (request : Option Request) (moves : List Move) → IsFirstAlone (dials_in (resend_due proxy conv request moves)) }
{}
