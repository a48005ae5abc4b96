//! Laws of how much a reader of a message keeps once it gave all that had come, each the contract of a function that does nothing.
ghost use Rattle.std.specs.Prelude.{◌≡◌, ◌≤◌, ◌<◌, ◌++◌, ℕ, Bool, List};
ghost use Rattle.px_read.specs.Chunking.{LineHasRoom};
ghost use Rattle.px_read.specs.Chunks.{ChunkPlace, goes_on, hear_all};
ghost use Rattle.px_read.specs.Marks.{Mark, marks_of};
ghost use Rattle.px_read.specs.Reader.{HasRoom, IsNext, Message, Reads, State, behind_end, keeps, to_come};
ghost use Rattle.px_read.specs.Readings.{only};
ghost use Rattle.px_read.specs.declared.part.Part.TheVariants.{More};
ghost use Rattle.px_bounds.specs.Bounds.{kept_below, most_trailers};

/// A reader that has nothing to give, and whose message goes on, keeps fewer than 66,560 bytes, whatever was fed (`waits`); so it does behind `More` (`more`). A chunk line that has begun
/// has room for one byte more: it is empty at the front of a chunked body, and from a place where it has room all bytes lead to such places (`room`).
pub fn a_reader_that_waits_keeps_little()
    ensures waits { (state : State) → HasRoom state.place → to_come state ≡ only goes_on → keeps state < kept_below }
    ensures more { (message : Message) (told : List Mark) (fed : List ℕ) (closed : Bool) (old new : State) →
        Reads message told fed closed old → IsNext More (to_come old) → Reads message (told ++ marks_of More) fed closed new →
        HasRoom new.place → keeps new < kept_below }
    ensures room { (place : ChunkPlace) (bytes : List ℕ) → LineHasRoom place → LineHasRoom (hear_all place bytes).place }
{}

/// Behind a whole message a reader keeps the names and the values of its trailers alone: at most 65,533 bytes, whatever was fed behind the message.
pub fn a_whole_message_keeps_its_trailers()
    ensures { (message : Message) (told : List Mark) (fed : List ℕ) (closed : Bool) (state : State) (trailers : List (List ℕ × List ℕ)) →
        Reads message told fed closed state → state.place ≡ behind_end trailers → keeps state ≤ most_trailers }
{}
