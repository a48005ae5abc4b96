//! What follows of the definitions, each the contract of a function that does nothing.
ghost use Rattle.std.specs.Prelude.{◌≡◌, ℕ, Bool, true, false, List, [], ◌++◌, Option};
ghost use Rattle.px_event.specs.Laws.{Settles, SoFarGrows};
ghost use Rattle.px_event.specs.Layer.{Move};
ghost use Rattle.px_event.specs.View.{View, bytes_in, line, seen_of};
ghost use Rattle.px_event.specs.declared.side.Side.TheVariants.{Server};
ghost use Rattle.px_core.specs.Ordered.{AsksBeforeEnds};
ghost use Rattle.px_chain.specs.Silent.{NoAnswer};
ghost use Rattle.px_exchange.specs.declared.mode.Mode.{Mode};
ghost use Rattle.px_exchange.specs.declared.mode.Mode.TheVariants.{Upstream};
ghost use Rattle.px_message.specs.declared.address.Address.{Address};
ghost use Rattle.px_stack.specs.Chain.{stack_chain};
ghost use Rattle.px_stack.specs.Decides.{decided, is_http, is_raw, still};
ghost use Rattle.px_stack.specs.Modes.{mode_due};
ghost use Rattle.px_stack.specs.Proxies.{HasNotAnswered, IsOneRequest, said_of};
ghost use Rattle.px_stack.specs.Stages.{Visitor};

/// At one prefix passing settles at once, and in each view what a stage owes while it waits only grows.
pub fn what_is_due_only_grows()
    ensures settles { (conv : ℕ) (client : Visitor) → Settles (stack_chain conv client) }
    ensures grows { (conv : ℕ) (client : Visitor) (view : View) → SoFarGrows (stack_chain conv client) (seen_of view) }
{}

/// In every mode, with every key, no byte is due to a server before its dial was answered with the connection, and nothing at all
/// before the first call.
pub fn servers_hear_nothing_early()
    ensures silent { (mode : Mode) (key : List ℕ) (conv : ℕ) (peer : Option Address) (server : ℕ) (moves : List Move) → NoAnswer server moves →
        bytes_in (seen_of (line (Server server)) (mode_due mode key conv peer moves)) ≡ [] }
    ensures before_all { (mode : Mode) (key : List ℕ) (conv : ℕ) (peer : Option Address) → mode_due mode key conv peer [] ≡ [] }
{}

/// No hook of a flow is asked behind the flow's end in what is due of a conversation, in every mode and with every key.
pub fn no_hook_is_asked_behind_its_end()
    ensures { (mode : Mode) (key : List ℕ) (conv : ℕ) (peer : Option Address) (moves : List Move) → AsksBeforeEnds (mode_due mode key conv peer moves) }
{}

/// What the first bytes behind a CONNECT say is HTTP stays so, whatever follows; what the client's bytes alone say is none stays so;
/// and a byte of the server decides.
pub fn first_bytes_decide()
    ensures http { (text more : List ℕ) (answered later : Bool) → decided text answered ≡ is_http → decided (text ++ more) later ≡ is_http }
    ensures raw { (text more : List ℕ) (later : Bool) → decided text false ≡ is_raw → decided (text ++ more) later ≡ is_raw }
    ensures answered { (text : List ℕ) → decided text true ≡ still → ⊥ }
{}

/// In mode `upstream:` a server that has not answered was sent one request at most: one for a tunnel, or one whose target is in absolute form.
/// Where that one is streamed, it was sent what came of it.
/// So no byte of a client goes to a proxy behind a CONNECT that it has not granted, and no request from inside a tunnel to a proxy that was
/// asked for none. A server of which no byte has come has not answered.
pub fn proxies_answer_first()
    ensures one { (proxy : Address) (peer : Option Address) (key : List ℕ) (conv server : ℕ) (moves : List Move) → HasNotAnswered server moves →
        IsOneRequest (bytes_in (seen_of (line (Server server)) (mode_due (Upstream proxy) key conv peer moves))) }
    ensures unheard { (server : ℕ) (moves : List Move) → said_of server moves ≡ [] → HasNotAnswered server moves }
{}
