//! A reader that is fed the bytes of one message and gives its parts.
//!
//! It keeps what was fed and not used, and where in the message these bytes begin; of what it gave it keeps nothing. So its
//! state says what is to come of it, and the parts that it gave are the first of what the bytes tell
//! (`specs/Reader.antt`, `Reads`): each call keeps this, so it holds for every cut.
ghost use Rattle.std.specs.Prelude.{◌≡◌, ℕ, ◌-◌, ◌^◌, ◌++◌, min, Bool, true, false, List, [], IfOk, OnOk};
ghost use Rattle.px_read.specs.Marks.{Mark, marks_of};
ghost use Rattle.px_read.specs.Reader.{Message, request, response, Reads, IsLongest, is_clients, opened, IsNext, HasStopped, has_stopped, keeps, to_come, before_all, behind_end, HasRoom};

mod body;
mod head;
mod pending;
mod stage;

use crate::Part;
use crate::kept::fields_kept;
use pending::Pending;
use px_head::HeadReader;
use px_message::{Fault, Fields};
use px_text::{Bytes, NoMemory};
use stage::{MessageStage, take_turn};
use std::alloc::Global;
use std::marker::Model;
use std::mem;

/// A reader of one request or one response, interim or final. In a contract it is where in the message the next byte stands,
/// the bytes that were fed and not used, and whether its sender has closed.
///
/// A message costs a small multiple of its bytes, however they are cut, where the parts of a piece are taken before the next
/// piece is fed. The parts share its bytes with who fed them: a piece of a body is not copied. After `NoMemory` the reader
/// may only be dropped.
#[derive(Debug, Drop)]
pub struct MessageReader {
    alloc: Global,
    stage: MessageStage,
    rest: Pending,
    closed: bool,
}

impl Model for MessageReader {
    ghost use Rattle.px_read.specs.Reader.{State};
    ghost use Rattle.px_read.specs.Stages.{IsStage, StandOnce, seen_as};

    ghost Value = { State };

    ghost view = { λ r. seen_as r.stage r.rest r.closed };

    ghost invariant = { λ r. IsStage r.stage × StandOnce r.stage r.rest };
}

impl MessageReader {
    /// A reader of a request. A CONNECT ends with its head, whatever its fields say of a length (RFC 9110 section 9.3.6).
    pub fn request(alloc: Global) -> MessageReader
        ensures state { result ≡ before_all request [] false }
        ensures reads { Reads request [] [] false result }
    {
        MessageReader {
            alloc,
            stage: MessageStage::Request(HeadReader::new(alloc)),
            rest: Pending::new(Bytes::empty()),
            closed: false,
        }
    }

    /// A reader of a response, to a HEAD or not.
    pub fn response(alloc: Global, asked_head: bool) -> MessageReader
        ensures state { result ≡ before_all (response asked_head) [] false }
        ensures reads { Reads (response asked_head) [] [] false result }
    {
        MessageReader {
            alloc,
            stage: MessageStage::Response {
                asked_head,
                reader: HeadReader::new(alloc),
            },
            rest: Pending::new(Bytes::empty()),
            closed: false,
        }
    }

    /// A reader behind a whole message that others have read, without trailers: what it is fed waits, and it keeps nothing.
    pub fn behind(alloc: Global) -> MessageReader
        ensures { result ≡ record { place = behind_end []; rest = []; closed = false } }
    {
        MessageReader {
            alloc,
            stage: MessageStage::Ended(Fields::new(alloc)),
            rest: Pending::new(Bytes::empty()),
            closed: false,
        }
    }

    /// Adds a piece of the sender's bytes behind those that came before. None comes behind a server's close; a client's changes
    /// nothing, so of a request they may.
    pub fn feed(&mut self, bytes: &Bytes) -> Result<(), NoMemory>
        requires before_close { is_clients self.old.place ≡ false → self.old.closed ≡ false }
        ensures state { OnOk result (self.new ≡ record self.old { rest = self.old.rest ++ bytes.now }) }
        ensures reads { (message : Message) (told : List Mark) (fed : List ℕ) → Reads message told fed false self.old → OnOk result (Reads message told (fed ++ bytes.now) false self.new) }
    {
        match &mut self.stage {
            MessageStage::Request(reader) => reader.feed_shared(bytes),
            MessageStage::Response { reader, .. } => reader.feed_shared(bytes),
            _ => self.rest.feed(self.alloc, bytes),
        }
    }

    /// The sender has closed. It changes nothing of a request; a response up to the close is whole, and any other that is not
    /// whole is refused, for `ServerClosed`, when all that came of it is given.
    pub fn close(&mut self)
        ensures state { self.new ≡ record self.old { closed = true } }
        ensures reads { (message : Message) (told : List Mark) (fed : List ℕ) (closed : Bool) → Reads message told fed closed self.old → Reads message told fed true self.new }
    {
        self.closed = true;
    }

    /// The next part of what was fed.
    ///
    /// `More` comes exactly where nothing further is told and the message goes on, `End` where nothing further is told and
    /// it is whole, and `Bad` where it is refused: then nothing changes any more, and the same part is given for ever. A
    /// piece is as long as what is there of its content: it ends with that, or with what was fed. A head is given before a fault of the body behind it, and before a fault of its length too where it is a request's. Each
    /// fault of a response is `BadResponse`, but for `ServerClosed`.
    pub fn next(&mut self) -> Result<Part, NoMemory>
        ensures next { IfOk result (λ part. IsNext part (to_come self.old)) }
        ensures reads { (message : Message) (told : List Mark) (fed : List ℕ) (closed : Bool) → Reads message told fed closed self.old → IfOk result (λ part. Reads message (told ++ marks_of part) fed closed self.new) }
        ensures unclosed { is_clients self.old.place ≡ true → (told : List Mark) (fed : List ℕ) → Reads request told fed false (opened self.old) → IfOk result (λ part. Reads request (told ++ marks_of part) fed false (opened self.new)) }
        ensures client { is_clients self.old.place ≡ true → OnOk result (is_clients self.new.place ≡ true) }
        ensures longest { IfOk result (λ part. IsLongest part (to_come self.new)) }
        ensures stopped { IfOk result (λ part. HasStopped part self.new) }
        ensures closed { OnOk result (self.new.closed ≡ self.old.closed) }
        ensures again { has_stopped self.old.place ≡ true → OnOk result (self.new ≡ self.old) }
    {
        let stage = mem::replace(&mut self.stage, MessageStage::Refused(Fault::BadResponse));
        let rest = mem::replace(&mut self.rest, Pending::new(Bytes::empty()));
        let turn = take_turn(self.alloc, stage, rest, self.closed)?;
        self.stage = turn.stage;
        self.rest = turn.rest;
        Ok(turn.part)
    }

    /// How many bytes it keeps, or 2^64 - 1 where that is more: all that it holds but the bytes behind the message, which wait
    /// for whoever reads on.
    ///
    /// Those are the bytes that were fed and not used, and those of a chunk line or of trailers that have begun; of a body by
    /// length no more of them than are to come; and of a whole message its trailers alone. While it is not known where the
    /// message ends, because a head or a chunked body goes on, all that was fed and not used counts; so where bytes behind the
    /// message came together with it, they count until `next` has told `End`.
    pub fn kept(&self) -> usize
        ensures kept { result ≡ min (keeps self.now) (2 ^ 64 - 1) }
        ensures room { HasRoom self.now.place }
    {
        match &self.stage {
            MessageStage::Request(reader) => reader.unused(),
            MessageStage::Response { reader, .. } => reader.unused(),
            MessageStage::Counted { left, .. } => least(*left, self.rest.len()),
            MessageStage::Chunked { reader, .. } => reader.kept().saturating_add(self.rest.len()),
            MessageStage::ToClose { .. } => self.rest.len(),
            MessageStage::Ended(trailers) => fields_kept(trailers),
            MessageStage::Refused(_) => self.rest.len(),
        }
    }

    /// The bytes that were fed and not used. After `End` they are those behind the message.
    pub fn into_rest(self) -> Result<Bytes, NoMemory>
        ensures { IfOk result (λ rest. rest ≡ self.rest) }
    {
        let MessageReader { stage, rest, .. } = self;
        match stage {
            MessageStage::Request(reader) => reader.into_rest(),
            MessageStage::Response { reader, .. } => reader.into_rest(),
            _ => Ok(rest.into_bytes()),
        }
    }
}

// How many bytes of a body are there, of those that are to come.
fn least(left: u64, there: usize) -> usize
    ensures { result ≡ min left there }
{
    if there as u64 <= left {
        there
    } else {
        left as usize
    }
}
