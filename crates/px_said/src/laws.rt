//! Laws of the closed form and of what was read, each the contract of a function that does nothing.
ghost use Rattle.std.specs.Prelude.{◌≡◌, ◌≤◌, ◌++◌, ◌∷◌, ℕ, List, length, true, false};
ghost use Rattle.px_text.specs.Prefix.{IsPrefixOf};
ghost use Rattle.px_message.specs.declared.flow.Flow.{Flow};
ghost use Rattle.px_event.specs.Layer.{Move};
ghost use Rattle.px_event.specs.Stands.{due_by};
ghost use Rattle.px_event.specs.View.{View, seen_of};
ghost use Rattle.px_event.specs.declared.ask.Ask.TheVariants.{Hook};
ghost use Rattle.px_event.specs.declared.ask.Hook.TheVariants.{RequestHead};
ghost use Rattle.px_event.specs.declared.command.Command.{Command};
ghost use Rattle.px_event.specs.declared.command.Command.TheVariants.{Ask as Question};
ghost use Rattle.px_exchange.specs.declared.terms.Terms.{Terms as Made};
ghost use Rattle.px_chain.specs.Chain.{http_chain, sequence};
ghost use Rattle.px_chain.specs.Sights.{Standing};
ghost use Rattle.px_chain.specs.Stages.{At, idle};
ghost use Rattle.px_chain.specs.Streams.{client_closed};
ghost use Rattle.px_said.specs.ClosedForm.{GoesOn, first_flows, said, said_of_flows};
ghost use Rattle.px_said.specs.Lines.{AllGoOn, sent_of_flows};
ghost use Rattle.px_said.specs.Walks.{ComesBy, FlowBegins, Walk, answered, by_moves, due_from, heard, point_at, start_at};
ghost use Rattle.px_said.specs.WhatCame.{OneRequestComes, OneResponseComes, SayWhatCame, messages_came};
ghost use Rattle.px_said.specs.WhatWasRead.{OneRequestIsSaid, OneResponseIsSaid, SayWhatWasRead, messages_read};

use px_message::settle_laws::streamed_stays;

/// Where every reply to the first so many flows from a place on goes on with the flow as it was asked and allows no body to be streamed, and their dials are answered by the connection or refused:
/// the texts that are sent for them and their dials, in order, begin those of the closed form, which are said of the client's stream, one request behind the other,
/// and of what each server sent. Where no question of them waits, and the client has not closed, they are all of them. The place is any one of any walk where a
/// request is awaited, whatever the flows before were answered, and with a parked side or none; and what is replied behind those flows makes no difference. So each
/// flow is sent on by itself (`flows` is 1), and a conversation whose flows all go on as a whole (where `flows` is large).
pub fn what_goes_on_is_sent_on()
    ensures begins { (made : Made) (here : Walk) (at : At) (flows : ℕ) → here.place.stage ≡ idle at →
        GoesOn true (first_flows flows (due_from made here)) (answered here) →
        IsPrefixOf (said (first_flows flows (due_from made here))) (said_of_flows made (heard here) (point_at at here) flows) }
    ensures all { (made : Made) (here : Walk) (at : At) (flows : ℕ) → here.place.stage ≡ idle at →
        GoesOn false (first_flows flows (due_from made here)) (answered here) →
        client_closed (heard here) ≡ false →
        said (first_flows flows (due_from made here)) ≡ said_of_flows made (heard here) (point_at at here) flows }
{}

/// Where every reply to the first so many flows from a place on goes on with the flow as it was asked, whatever size it allows, and their dials are answered by the connection or refused: what is
/// sent for them and dialled is, in each view, the beginning of `sent_of_flows`, of any place as in the law before. So each side's line has at every moment a beginning of the texts of the messages that went on to that
/// side, one behind the other: of a message that is kept its text once it is whole, and of one that is streamed its head, its marks and its end as they came, requests and responses, alone and both at once. Where no
/// question of those flows waits, and the client has not closed, it is all of them.
pub fn what_goes_on_is_sent_on_as_it_comes()
    ensures begins { (made : Made) (here : Walk) (at : At) (flows : ℕ) (view : View) → here.place.stage ≡ idle at →
        AllGoOn true (first_flows flows (due_from made here)) (answered here) →
        IsPrefixOf (seen_of view (said (first_flows flows (due_from made here)))) (seen_of view (sent_of_flows made (heard here) (start_at at here) flows)) }
    ensures all { (made : Made) (here : Walk) (at : At) (flows : ℕ) (view : View) → here.place.stage ≡ idle at →
        AllGoOn false (first_flows flows (due_from made here)) (answered here) →
        client_closed (heard here) ≡ false →
        seen_of view (said (first_flows flows (due_from made here))) ≡ seen_of view (sent_of_flows made (heard here) (start_at at here) flows) }
{}

/// What is due from a place on is what is due by the time that the walk comes by another place, and then what is due from there on: so what is said of the flows
/// from a place on is said of a part of what is due. By the moves of a conversation it is what is due by them. Each flow that is asked about begins where the walk
/// comes by a place where its request is awaited; in front of its question stands what that place owes while it waits, the close of a parked side of which a byte came. The first flows of what is due are all of it where they
/// are as many as its commands.
pub fn what_is_due_goes_on_from_each_place()
    ensures on { (made : Made) (here there : Walk) (due : List Command) → ComesBy made here there due → due_from made here ≡ due ++ due_from made there }
    ensures moves { (made : Made) (place : Standing) (moves : List Move) → due_by (http_chain sequence made) place moves ≡ due_from made (by_moves place moves) }
    ensures flows { (made : Made) (here : Walk) (before behind : List Command) (number : ℕ) (flow : Flow) →
        due_from made here ≡ before ++ Question (Hook number RequestHead) flow ∷ behind → FlowBegins made here before number }
    ensures whole { (flows : ℕ) (due : List Command) → length due ≤ flows → first_flows flows due ≡ due }
{}

/// Where every reply to the first so many flows from a place on, any one of any walk where a request is awaited, goes on with the flow as it was asked and allows no body to be streamed, and their
/// dials are answered by the connection or refused: the texts that are sent for them, but for the proxy's own, say the requests of the client's stream and what
/// their servers answered, in order and without a gap. Whoever gets a request reads its method, path, version, fields, body and trailers as they were read, and
/// whoever gets a response its version, status, reason, fields, body and trailers.
pub fn what_is_sent_says_what_was_read()
    ensures in_order { (made : Made) (here : Walk) (at : At) (flows : ℕ) → here.place.stage ≡ idle at →
        GoesOn true (first_flows flows (due_from made here)) (answered here) →
        SayWhatWasRead made.place (said (first_flows flows (due_from made here))) (messages_read made.place (heard here) (point_at at here) flows) }
{}

/// What is sent of flows whose replies all go on, over any size that they allow, says what was read: the requests of the client's stream and what their servers answered, in order and without a gap, each
/// whole, or streamed and as far as it came (`in_order`). So by the law of what goes on each side's line is read, at every moment, as the beginning of what was read: of a request its method, path,
/// version and fields, of a response its version, status, reason and fields, then the body, in the sender's chunks where it is streamed, and the trailers.
pub fn what_is_sent_says_what_came()
    ensures in_order { (made : Made) (here : Walk) (at : At) (flows : ℕ) →
        SayWhatCame made.place (sent_of_flows made (heard here) (start_at at here) flows) (messages_came made (heard here) (start_at at here) flows) }
{
    streamed_stays();
}

/// A text says one message alone: what differs from it in a name, a value, the order of its fields or a byte of its body is not what the text says; nor, where it is streamed, what differs in its chunks.
pub fn a_text_says_one_message()
    ensures requests { OneRequestIsSaid }
    ensures responses { OneResponseIsSaid }
    ensures streamed_requests { OneRequestComes }
    ensures streamed_responses { OneResponseComes }
{}
