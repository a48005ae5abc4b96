//! A reader that is fed the bytes of a connection and gives the heads that stand in them, one after the other.
//!
//! It keeps the bytes that were fed and not yet used (`held.rt`). No byte is moved for a head that stands in a piece which came
//! when nothing waited, nor for what stands behind it: many heads in one piece cost no more than their bytes.
ghost use Rattle.std.specs.Prelude.{◌≡◌, ◌≤◌, ◌++◌, IfOk, OnErr, OnOk, drop, length};

use crate::front::{Found, Front, Kind, Refusal, read_front};
use crate::held::Held;
use crate::place::Marks;
use px_text::{Bytes, NoMemory};
use std::alloc::Global;
use std::marker::Model;

/// A reader of heads. In a contract it is the bytes that were fed and not used, what it has failed with, if it has, and how
/// far these bytes were searched for the end of a head.
///
/// A search goes on where the last one stopped, so a head costs a small multiple of its bytes, in whatever pieces it comes.
/// A piece that others share is held only while bytes of it wait, and none behind `Partial`; its buffer has at most twice as
/// many bytes as `unused` tells. After `NoMemory` it is as it was before the call.
#[derive(Debug, Drop)]
pub struct HeadReader {
    held: Held,
    marks: Marks,
    refusal: Option<Refusal>,
}

impl Model for HeadReader {
    ghost use Rattle.px_head.specs.Marks.{AreMarks};
    ghost use Rattle.px_head.specs.Reader.{Reader};

    ghost Value = { Reader };

    ghost view = { λ r. record { rest = r.held; failed = r.refusal; marks = r.marks } };

    ghost invariant = { λ r. AreMarks r.held r.marks };
}

impl HeadReader {
    ghost use Rattle.px_head.specs.Reader.{after, answer, new_reader, seen};

    /// A reader of no bytes.
    pub fn new(alloc: Global) -> HeadReader
        ensures { result ≡ new_reader }
    {
        HeadReader {
            held: Held::new(alloc),
            marks: Marks::NONE,
            refusal: None,
        }
    }

    /// Adds a piece of the bytes behind those that came before.
    pub fn feed(&mut self, bytes: &[u8]) -> Result<(), NoMemory>
        ensures ok { OnOk result (self.new ≡ record self.old { rest = self.old.rest ++ bytes.now }) }
        ensures err { OnErr result (self.new ≡ self.old) }
    {
        self.held.feed(bytes)
    }

    /// The same, of bytes that are shared: they are not copied where nothing waits.
    pub fn feed_shared(&mut self, bytes: &Bytes) -> Result<(), NoMemory>
        ensures ok { OnOk result (self.new ≡ record self.old { rest = self.old.rest ++ bytes.now }) }
        ensures err { OnErr result (self.new ≡ self.old) }
    {
        self.held.feed_shared(bytes)
    }

    /// The head of a request at the front: the empty lines before it are skipped (RFC 9112 section 2.2).
    ///
    /// After `Head` the reader stands behind the head. `Partial` leaves all bytes searched. `TooLong` and `BadHead` are answered
    /// again for ever, to every kind of head.
    pub fn take_request(&mut self) -> Result<Found, NoMemory>
        ensures found { IfOk result (λ found. found ≡ answer (seen Kind.Request self.old)) }
        ensures state { OnOk result (self.new ≡ after (seen Kind.Request self.old) self.old) }
        ensures err { OnErr result (self.new ≡ self.old) }
    {
        self.take(Kind::Request)
    }

    /// The head of a response at the front, as `take_request`; a code below 100 is `BadHead`.
    pub fn take_response(&mut self) -> Result<Found, NoMemory>
        ensures found { IfOk result (λ found. found ≡ answer (seen Kind.Response self.old)) }
        ensures state { OnOk result (self.new ≡ after (seen Kind.Response self.old) self.old) }
        ensures err { OnErr result (self.new ≡ self.old) }
    {
        self.take(Kind::Response)
    }

    /// The trailers at the front (RFC 9112 section 7.1.2), as `take_request`: a line end at once is trailers without a
    /// field, and no line is skipped.
    pub fn take_trailers(&mut self) -> Result<Found, NoMemory>
        ensures found { IfOk result (λ found. found ≡ answer (seen Kind.Trailers self.old)) }
        ensures state { OnOk result (self.new ≡ after (seen Kind.Trailers self.old) self.old) }
        ensures err { OnErr result (self.new ≡ self.old) }
    {
        self.take(Kind::Trailers)
    }

    /// How many bytes were fed and not used.
    pub fn unused(&self) -> usize
        ensures { result ≡ length self.now.rest }
    {
        self.held.len()
    }

    /// The bytes that were fed and not used, which are not moved.
    pub fn into_rest(self) -> Result<Bytes, NoMemory>
        ensures { IfOk result (λ rest. rest ≡ self.rest) }
    {
        self.held.into_bytes()
    }

    fn take(&mut self, kind: Kind) -> Result<Found, NoMemory>
        ensures found { IfOk result (λ found. found ≡ answer (seen kind self.old)) }
        ensures state { OnOk result (self.new ≡ after (seen kind self.old) self.old) }
        ensures err { OnErr result (self.new ≡ self.old) }
    {
        match self.refusal {
            Some(Refusal::TooLong) => return Ok(Found::TooLong),
            Some(Refusal::BadHead) => return Ok(Found::BadHead),
            None => {}
        }
        let alloc = self.held.allocator();
        let mut marks = self.marks;
        match read_front(alloc, self.held.as_slice(), &mut marks, kind)? {
            Front::Nothing => {
                self.held.own()?;
                self.marks = marks;
                Ok(Found::Partial)
            }
            Front::TooLong => {
                self.refusal = Some(Refusal::TooLong);
                Ok(Found::TooLong)
            }
            Front::BadHead => {
                self.refusal = Some(Refusal::BadHead);
                Ok(Found::BadHead)
            }
            Front::Stands(raw, used) => {
                self.held.skip(used);
                self.marks = Marks::NONE;
                Ok(Found::Head(raw))
            }
        }
    }
}
