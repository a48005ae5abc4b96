//! Laws of the chain of a conversation, each the contract of a function that does nothing.
ghost use Rattle.std.specs.Prelude.{◌≡◌, ◌≤◌, ◌+◌, ◌++◌, ◌∷◌, [], ℕ, List, length, Option, Some, true, false};
ghost use Rattle.px_event.specs.Chain.{Asks, Ends, Timed};
ghost use Rattle.px_event.specs.Laws.{Settles, SoFarGrows};
ghost use Rattle.px_event.specs.Layer.{Move};
ghost use Rattle.px_event.specs.Stands.{due_by};
ghost use Rattle.px_event.specs.View.{View, bytes_in, line, seen_of};
ghost use Rattle.px_event.specs.declared.reply.Reply.{Reply as Answer};
ghost use Rattle.px_event.specs.declared.command.Command.{Command};
ghost use Rattle.px_event.specs.declared.command.Command.TheVariants.{Done, Send};
ghost use Rattle.px_event.specs.declared.side.Side.TheVariants.{Client as TheClient, Server as TheServer};
ghost use Rattle.px_message.specs.declared.fault.Fault.{Fault};
ghost use Rattle.px_message.specs.declared.flow.Flow.{Flow};
ghost use Rattle.px_message.specs.declared.response.Response.{Response as TheResponse};
ghost use Rattle.px_read.specs.Items.{Body as Content, bad_body, complete};
ghost use Rattle.px_read.specs.declared.head.ResponseHead.{ResponseHead as ReadHead};
ghost use Rattle.px_exchange.specs.Requests.{is_head};
ghost use Rattle.px_exchange.specs.Endings.{shut_all, with_error, without_response};
ghost use Rattle.px_exchange.specs.EndOrder.{EndsInOrder, FoundInOrder, OnlyCloses};
ghost use Rattle.px_exchange.specs.declared.terms.Terms.{Terms as Made};
ghost use Rattle.px_read.specs.Items.{request_item};
ghost use Rattle.px_read.specs.declared.head.RequestHead.{RequestHead};
ghost use Rattle.px_event.specs.declared.ask.Hook.TheVariants.{RequestBody};
ghost use Rattle.px_exchange.specs.declared.place.Place.{Place};
ghost use Rattle.px_exchange.specs.Flows.{ask_of, with_end, with_returned};
ghost use Rattle.px_exchange.specs.Places.{form_at};
ghost use Rattle.px_exchange.specs.Replies.{taken_at_response_body};
ghost use Rattle.px_exchange.specs.Texts.{interim_commands, returned_text};
ghost use Rattle.px_exchange.specs.declared.taken.Taken.TheVariants.{GoesOn};
ghost use Rattle.px_parts.specs.Texts.{left_of};
ghost use Rattle.px_write.specs.Error.{error_text, fault_message};
ghost use Rattle.px_write.specs.ReadBack.{read_request_head};
ghost use Rattle.px_chain.specs.Chain.{Connect, IsOnward, begin, behind, connect_in, find, goes_to, goes_up_by, going_at, gone, http_chain, look, parked_for, pass, sight_past, so_far, turn};
ghost use Rattle.px_chain.specs.Going.{framed_up, goes_up, going_text, is_going_up, sending_on, whole_in, with_whole};
ghost use Rattle.px_chain.specs.Keeping.{unspoilt_at};
ghost use Rattle.px_chain.specs.Sent.{IsSentInTurn, IsSentOnce};
ghost use Rattle.px_chain.specs.Sights.{Sight, answers_in, left_by, request_in, server_in};
ghost use Rattle.px_chain.specs.Silent.{NoAnswer, ParkedBelow, SaysNothing, connections};
ghost use Rattle.px_chain.specs.Coming.{Came, came_in, coming_text, framed_as, streaming, streams_in};
ghost use Rattle.px_chain.specs.ReadBack.{MayGoUp, MayPass, ReadsAs};
ghost use Rattle.px_chain.specs.Stages.{At, Doing, Sent, Stage, all_sent, busy, coming_down, going_up, idle, next, over, request_body, response_body, response_head};

use px_message::settle_laws::streamed_is_framed_as_read;

/// In one sight passing settles at once.
pub fn passing_settles()
    ensures { (onward : Stage → Stage) (made : Made) → IsOnward onward → Settles (http_chain onward made) }
{}

/// In each view what a stage owes while it waits only grows.
pub fn waiting_grows()
    ensures { (onward : Stage → Stage) (made : Made) (view : View) → IsOnward onward → SoFarGrows (http_chain onward made) (seen_of view) }
{}

/// A server is sent nothing before its dial was answered with the connection, and nothing is due before the first move. A conversation
/// that begins with a parked side, among so many servers that were connected before, sends nothing to a server that the answers do not reach.
pub fn servers_hear_nothing_early()
    ensures silent { (onward : Stage → Stage) (made : Made) (at : At) (server : ℕ) (moves : List Move) → IsOnward onward → at.parked ≡ None → at.dials ≡ 0 → NoAnswer server moves →
        bytes_in (seen_of (line (TheServer server)) (due_by (http_chain onward made) (begin (idle at)) moves)) ≡ [] }
    ensures parked { (onward : Stage → Stage) (made : Made) (at : At) (server : ℕ) (moves : List Move) → IsOnward onward → ParkedBelow at.parked at.dials →
        at.dials + connections moves ≤ server →
        bytes_in (seen_of (line (TheServer server)) (due_by (http_chain onward made) (begin (idle at)) moves)) ≡ [] }
    ensures before_all { (onward : Stage → Stage) (made : Made) (at : At) → IsOnward onward → due_by (http_chain onward made) (begin (idle at)) [] ≡ [] }
{}

/// A server of which nothing was heard is sent the text of one request at most. One that was connected before the conversation began is that of its
/// parked side, and the request is one that goes there.
pub fn a_server_is_sent_one_request()
    ensures { (onward : Stage → Stage) (made : Made) (at : At) (server : ℕ) (moves : List Move) → IsOnward onward → ParkedBelow at.parked at.dials → SaysNothing server moves →
        IsSentOnce made.place at.parked at.dials server
        (bytes_in (seen_of (line (TheServer server)) (due_by (http_chain onward made) (begin (idle at)) moves))) }
{}

/// Each server is sent the texts of whole requests, one behind the other, and at the end at most one that is streamed and did not come whole.
pub fn a_server_is_sent_requests_in_turn()
    ensures { (onward : Stage → Stage) (made : Made) (at : At) (server : ℕ) (moves : List Move) → IsOnward onward → ParkedBelow at.parked at.dials →
        IsSentInTurn made.place (bytes_in (seen_of (line (TheServer server)) (due_by (http_chain onward made) (begin (idle at)) moves))) }
{}

/// Where a request is awaited, the end is found with nothing owed exactly where a CONNECT stands that asks for a tunnel here, and then it is
/// whole: behind it nothing is read as HTTP. (A client's close is an end too, where nothing else is found.)
pub fn tunnels_end_http()
    ensures found { (made : Made) (at : At) (seen : Sight) → find made (idle at) seen ≡ Ends [] →
        (connect : Connect) × (connect_in made.place (request_in seen) ≡ Some connect) }
    ensures there { (made : Made) (at : At) (seen : Sight) (connect : Connect) → connect_in made.place (request_in seen) ≡ Some connect →
        find made (idle at) seen ≡ Ends [] }
{}

/// What a reply or a passage brings, and what is owed at an end, is bytes, then the end of at most one flow, then closes, in this order. What is owed
/// behind an ask, before its reply, is closes alone.
pub fn bytes_come_before_ends()
    ensures replies { (made : Made) (stage : Stage) (seen : Sight) (answer : Timed Answer) → EndsInOrder (turn made stage seen answer).owed }
    ensures passes { (made : Made) (stage : Stage) (seen : Sight) → EndsInOrder (pass made stage seen).owed }
    ensures ends { (made : Made) (stage : Stage) (seen : Sight) → FoundInOrder (look made stage seen) }
    ensures asks { (stage : Stage) (seen : Sight) → OnlyCloses (behind stage seen) }
{}

/// A request that is streamed is sent as it comes: what its stage owes its server, where it passes and while it waits, is its text as far as it
/// came, behind what earlier asks owed of that, and nothing else (`sent`). It is streamed from where the bytes that came say so, to a parked
/// side whose keeping has not ended by then, or its server is dialled; until then it is kept (`streams`, `keeps`). The hook of its body is not asked (`asks`).
pub fn a_streamed_request_is_sent_as_it_comes()
    ensures sent { (made : Made) (at : At) (flow : Flow) (doing : Doing) (server : ℕ) (seen : Sight) → going_at doing ≡ Some server →
        let on = pass made (busy at flow doing) seen in
        bytes_in (seen_of (line (TheServer server)) (on.owed ++ so_far made on.stage (sight_past made (busy at flow doing) seen)))
        ≡ left_of seen.told (going_text made.place flow seen) }
    ensures streams { (made : Made) (at : At) (flow : Flow) (most : Option ℕ) (seen : Sight) → goes_up most seen ≡ true →
        pass made (busy at flow (request_body None most)) seen
        ≡ pass made (goes_up_by (parked_for made.place flow.request (unspoilt_at at seen).parked) made.place at (sending_on flow)) seen }
    ensures keeps { (made : Made) (at : At) (flow : Flow) (most : Option ℕ) (seen : Sight) → goes_up most seen ≡ false →
        pass made (busy at flow (request_body None most)) seen ≡ goes_to (busy at flow (request_body None most)) }
    ensures asks { (made : Made) (at : At) (flow asked : Flow) (doing : Doing) (seen : Sight) → is_going_up doing ≡ true →
        look made (busy at flow doing) seen ≡ Asks (ask_of asked RequestBody) → ⊥ }
{}

/// What was sent of a streamed request that is whole is read back as that request: the head that was sent, the sender's chunks and bytes, and the
/// trailers; and what follows it as what follows it.
pub fn a_streamed_request_reads_back()
    ensures { (place : Place) (flow : Flow) (seen : Sight) (head : RequestHead) (body : Content) (trailers : List (List ℕ × List ℕ)) (used : ℕ) →
        request_in seen ≡ complete head body trailers used → MayGoUp place head flow.request trailers →
        (rest : List ℕ) → let text = going_text place flow seen in
        request_item (text ++ rest) ≡ complete (read_request_head (framed_up head flow.request) (form_at place)) body trailers (length text) }
{
    streamed_is_framed_as_read();
}

/// A bad body of a request that goes up ends its flow and its conversation at its byte, whatever of the response has come: with the error's text as long as the client was sent
/// no byte of a final response (`awaited`, `kept`), and without one behind the first, where the flow has the error and its response, and the close tells (`behind`). Before that text
/// the client is said interim responses alone (`interim`, `unsaid`). Nothing passes first where the response's head is awaited, as behind the answer to its dial (`at_once`), nor anywhere
/// else where nothing did and more of the client alone is seen: so nothing of its response comes before it (`at_its_byte`). Nothing else of the request changes what is found (`otherwise`).
pub fn a_bad_request_ends_its_flow()
    ensures awaited { (made : Made) (at : At) (flow : Flow) (side : ℕ) (seen : Sight) (fault : Fault) (head : RequestHead) (body : Content) →
        request_in seen ≡ bad_body fault head body → look made (busy at flow (response_head side going_up)) seen
        ≡ Ends (Send TheClient (error_text fault (is_head flow.request.method)) ∷ Done (with_error (without_response flow) (fault_message fault) seen.now) ∷ shut_all (server_in side seen) seen.closed) }
    ensures kept { (made : Made) (at : At) (flow : Flow) (side : ℕ) (most : Option ℕ) (seen : Sight) (fault : Fault) (head : RequestHead) (body : Content) →
        request_in seen ≡ bad_body fault head body → look made (busy at flow (response_body side going_up most)) seen
        ≡ Ends (Send TheClient (error_text fault (is_head flow.request.method)) ∷ Done (with_error (without_response flow) (fault_message fault) seen.now) ∷ shut_all (server_in side seen) seen.closed) }
    ensures behind { (made : Made) (at : At) (flow : Flow) (side : ℕ) (seen : Sight) (fault : Fault) (head : RequestHead) (body : Content) →
        request_in seen ≡ bad_body fault head body → look made (busy at flow (coming_down side going_up)) seen
        ≡ Ends (Done (with_error flow (fault_message fault) seen.now) ∷ shut_all (server_in side seen) seen.closed) }
    ensures interim { (made : Made) (at : At) (flow : Flow) (side : ℕ) (seen : Sight) →
        bytes_in (seen_of (line TheClient) (so_far made (busy at flow (response_head side going_up)) seen))
        ≡ bytes_in (seen_of (line TheClient) (interim_commands flow.request (answers_in flow.request seen).interim)) }
    ensures unsaid { (made : Made) (at : At) (flow : Flow) (side : ℕ) (most : Option ℕ) (seen : Sight) →
        bytes_in (seen_of (line TheClient) (so_far made (busy at flow (response_body side going_up most)) seen)) ≡ [] }
    ensures at_once { (made : Made) (at : At) (flow : Flow) (side : ℕ) (seen : Sight) (fault : Fault) (head : RequestHead) (body : Content) →
        request_in seen ≡ bad_body fault head body → pass made (busy at flow (response_head side going_up)) seen ≡ goes_to (busy at flow (response_head side going_up)) }
    ensures at_its_byte { (made : Made) (at : At) (flow : Flow) (doing : Doing) (side : ℕ) (seen more : Sight) (fault : Fault) (head : RequestHead) (body : Content) → going_at doing ≡ Some side →
        pass made (busy at flow doing) seen ≡ goes_to (busy at flow doing) → more.server ≡ seen.server → more.shut ≡ seen.shut →
        request_in more ≡ bad_body fault head body → pass made (busy at flow doing) more ≡ goes_to (busy at flow doing) }
    ensures otherwise { (made : Made) (at : At) (flow : Flow) (doing : Doing) (seen : Sight) →
        ((fault : Fault) (head : RequestHead) (body : Content) → request_in seen ≡ bad_body fault head body → ⊥) →
        look made (busy at flow doing) seen ≡ look made (busy at flow (gone doing)) seen }
{}

/// A response that is complete while its request is not ends the conversation, and nothing is cut off it. One that is kept does so whatever its last hook is answered, of code 101
/// too (`kept`); where that goes on, its text is said, its flow is done without an error, and all sides are closed (`said`). One that is streamed does so without a question: what came of
/// the request, the response's whole text, the flow and the closes are owed (`streamed`), also where it is found to be streamed in that sight (`begun`). So no request follows one that is
/// not whole (`last`). One that is whole in the same sight is as one that was sent before (`whole`).
pub fn an_early_response_ends_the_conversation()
    ensures kept { (made : Made) (at : At) (flow : Flow) (side : ℕ) (most : Option ℕ) (seen : Sight) (answer : Timed Answer) →
        (turn made (busy at flow (response_body side going_up most)) seen answer).stage ≡ over }
    ensures said { (made : Made) (at : At) (flow : Flow) (side : ℕ) (most : Option ℕ) (seen : Sight) (answer : Timed Answer) (head : ReadHead) (body : Content)
        (trailers : List (List ℕ × List ℕ)) (used : ℕ) (asked response : TheResponse) → (answers_in flow.request seen).final ≡ complete head body trailers used →
        let whole = with_returned flow body.content trailers seen.now in
        whole.response ≡ Some asked → taken_at_response_body asked answer.value ≡ GoesOn response →
        turn made (busy at flow (response_body side going_up most)) seen answer
        ≡ record { owed = Send TheClient (returned_text flow.request response) ∷ Done (record whole { response = Some response }) ∷ shut_all (server_in side seen) seen.closed; stage = over } }
    ensures streamed { (made : Made) (at : At) (flow : Flow) (side : ℕ) (seen : Sight) (came : Came) → whole_in seen ≡ None → came_in flow seen ≡ Some came →
        pass made (busy at flow (coming_down side going_up)) seen
        ≡ record { owed = Send (TheServer side) (left_of seen.told (going_text made.place flow seen)) ∷ Send TheClient (coming_text flow seen) ∷ Done (with_end flow seen.now) ∷ shut_all (server_in side seen) seen.closed; stage = over } }
    ensures begun { (made : Made) (at : At) (flow : Flow) (side : ℕ) (most : Option ℕ) (seen : Sight) (came : Came) → streams_in flow most seen ≡ true → whole_in seen ≡ None →
        came_in (streaming flow) seen ≡ Some came →
        pass made (busy at flow (response_body side going_up most)) seen
        ≡ record { owed = Send (TheServer side) (left_of seen.told (going_text made.place flow seen)) ∷ Send TheClient (coming_text (streaming flow) seen) ∷ Done (with_end (streaming flow) seen.now) ∷ shut_all (server_in side seen) seen.closed; stage = over } }
    ensures last { (made : Made) (at other : At) (flow : Flow) (doing : Doing) (side : ℕ) (seen : Sight) → going_at doing ≡ Some side → whole_in seen ≡ None →
        (pass made (busy at flow doing) seen).stage ≡ next other → ⊥ }
    ensures whole { (made : Made) (at : At) (flow : Flow) (doing : Doing) (side : ℕ) (seen : Sight) (size : ℕ) → going_at doing ≡ Some side → whole_in seen ≡ Some size →
        (pass made (busy at flow doing) seen).stage
        ≡ (pass made (busy at (with_whole flow seen.now) (gone doing)) (record seen { client = left_by (request_in seen) seen.client })).stage }
{}

/// A response that is streamed is sent as it comes: what its stage owes the client, where it passes and while it waits, is its text as far as it
/// came, and nothing else (`sent`). It is streamed from where the bytes that came say so, and until then it is kept (`streams`, `keeps`). No hook is
/// asked of it (`asks`), and where it ends by a fault or the client's close nothing more is said to the client (`ends`).
pub fn a_streamed_response_is_sent_as_it_comes()
    ensures sent { (made : Made) (at : At) (flow : Flow) (side : ℕ) (how : Sent) (seen : Sight) →
        let on = pass made (busy at flow (coming_down side how)) seen in
        bytes_in (seen_of (line TheClient) (on.owed ++ so_far made on.stage (sight_past made (busy at flow (coming_down side how)) seen)))
        ≡ coming_text flow seen }
    ensures streams { (made : Made) (at : At) (flow : Flow) (side : ℕ) (how : Sent) (most : Option ℕ) (seen : Sight) → streams_in flow most seen ≡ true →
        pass made (busy at flow (response_body side how most)) seen ≡ pass made (busy at (streaming flow) (coming_down side how)) seen }
    ensures keeps { (made : Made) (at : At) (flow : Flow) (side : ℕ) (most : Option ℕ) (seen : Sight) → streams_in flow most seen ≡ false →
        pass made (busy at flow (response_body side all_sent most)) seen ≡ goes_to (busy at flow (response_body side all_sent most)) }
    ensures keeps_both { (made : Made) (at : At) (flow : Flow) (side : ℕ) (most : Option ℕ) (seen : Sight) → streams_in flow most seen ≡ false →
        whole_in seen ≡ None → pass made (busy at flow (response_body side going_up most)) seen ≡ goes_to (busy at flow (response_body side going_up most)) }
    ensures asks { (made : Made) (at : At) (flow : Flow) (side : ℕ) (how : Sent) (seen : Sight) (ask : Command) →
        look made (busy at flow (coming_down side how)) seen ≡ Asks ask → ⊥ }
    ensures ends { (made : Made) (at : At) (flow : Flow) (side : ℕ) (how : Sent) (seen : Sight) (owed : List Command) →
        look made (busy at flow (coming_down side how)) seen ≡ Ends owed → bytes_in (seen_of (line TheClient) owed) ≡ [] }
{}

/// What was sent of a streamed response that is whole is read back as that response: the head that was sent, the sender's chunks and bytes, and the
/// trailers; and what follows it as what follows it.
pub fn a_streamed_response_reads_back()
    ensures { (flow : Flow) (seen : Sight) (response : TheResponse) (head : ReadHead) (body : Content) (trailers : List (List ℕ × List ℕ)) (used : ℕ) →
        flow.response ≡ Some response → (answers_in flow.request seen).final ≡ complete head body trailers used → MayPass (is_head flow.request.method) head response trailers →
        ReadsAs (is_head flow.request.method) (coming_text flow seen) (framed_as head response) body trailers }
{
    streamed_is_framed_as_read();
}
