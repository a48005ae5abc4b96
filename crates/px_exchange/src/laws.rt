//! Laws of ends, each the contract of a function that does nothing.
ghost use Rattle.std.specs.Prelude.{ℕ, Bool, List, ◌++◌};
ghost use Rattle.px_event.specs.declared.reply.Reply.{Reply as Answer};
ghost use Rattle.px_message.specs.declared.fault.Fault.{Fault as Wrong};
ghost use Rattle.px_message.specs.declared.flow.Flow.{Flow as Told};
ghost use Rattle.px_message.specs.declared.response.Response.{Response as Answered};
ghost use Rattle.px_read.specs.Items.{Item};
ghost use Rattle.px_read.specs.declared.head.RequestHead.{RequestHead as ReadRequest};
ghost use Rattle.px_read.specs.declared.head.ResponseHead.{ResponseHead as ReadResponse};
ghost use Rattle.px_exchange.specs.Dials.{dial_owes};
ghost use Rattle.px_exchange.specs.EndOrder.{EndsInOrder, FoundInOrder};
ghost use Rattle.px_exchange.specs.Endings.{ends_by_fault, ends_early, finished, refuses, shut_unless};
ghost use Rattle.px_exchange.specs.Finds.{look_answer, look_body, look_head, look_returned};
ghost use Rattle.px_exchange.specs.declared.ending.Used.{Used as Use};
ghost use Rattle.px_exchange.specs.declared.place.Place.{Place as At};
ghost use Rattle.px_exchange.specs.declared.terms.Terms.{Terms as Made};

/// What is owed at an end is bytes, then the end of at most one flow, then closes, in this order.
pub fn ends_are_in_order()
    ensures early { (flow : Told) (message : List ℕ) (moment : ℕ) (used : Use) (closed : Bool) → EndsInOrder (ends_early flow message moment used closed) }
    ensures fault { (flow : Told) (fault : Wrong) (moment : ℕ) (used : Use) (closed : Bool) → EndsInOrder (ends_by_fault flow fault moment used closed) }
    ensures refused { (fault : Wrong) (asked_head : Bool) (parked : Use) (closed : Bool) → EndsInOrder (refuses fault asked_head parked closed) }
    ensures finished { (flow : Told) (response : Answered) (used parked : Use) (stays closed : Bool) →
        EndsInOrder (finished flow response used ++ shut_unless stays parked closed) }
    ensures dial { (place : At) (flow : Told) (server : ℕ) (answer : Answer) (moment : ℕ) (closed : Bool) → EndsInOrder (dial_owes place flow server answer moment closed) }
{}

/// So is each end that is found where a message is awaited.
pub fn finds_are_in_order()
    ensures head { (terms : Made) (index : ℕ) (item : Item ReadRequest) (moment : ℕ) (parked : Use) (closed : Bool) → FoundInOrder (look_head terms index item moment parked closed) }
    ensures body { (flow : Told) (item : Item ReadRequest) (moment : ℕ) (parked : Use) (closed : Bool) → FoundInOrder (look_body flow item moment parked closed) }
    ensures answer { (flow : Told) (item : Item ReadResponse) (moment : ℕ) (used : Use) (closed : Bool) → FoundInOrder (look_answer flow item moment used closed) }
    ensures returned { (flow : Told) (item : Item ReadResponse) (moment : ℕ) (used : Use) (closed : Bool) → FoundInOrder (look_returned flow item moment used closed) }
{}
