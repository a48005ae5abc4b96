//! What stands at the front of the bytes, and what a reader answers of it.
//!
//! First the place of the block, then the grammar on the block: the definition's own two steps. The marks only save
//! work, so no answer depends on them, nor on how the bytes were cut.
ghost use Rattle.std.specs.Prelude.{◌≡◌, IfOk, OnErr, length};
ghost use Rattle.px_head.specs.Front as spec;
ghost use Rattle.px_head.specs.Marks.{AreMarks, left_by, noted, searched};
ghost use Rattle.px_head.specs.Within.{IsFrontWithin, IsPlaceWithin};

use crate::block::{read_request, read_response, read_trailers};
use crate::place::{BlockPlace, Marks, head_place, trailers_place};
use crate::raw::RawHead;
use px_text::NoMemory;
use std::alloc::Global;

/// The kinds of a head.
#[derive(Clone, Copy, Debug, PartialEq, Eq)]
pub enum Kind {
    Request,
    Response,
    Trailers,
}

/// What stands at the front of a list of bytes: no whole head yet, too many bytes without one, a block that is no
/// head, or a head and the number of bytes that it uses, the skipped lines among them.
#[derive(Debug, Drop)]
pub enum Front {
    Nothing,
    TooLong,
    BadHead,
    Stands(RawHead, usize),
}

/// What a reader has failed with.
#[derive(Clone, Copy, Debug, PartialEq, Eq)]
pub enum Refusal {
    TooLong,
    BadHead,
}

/// What a reader answers.
#[derive(Debug, Drop)]
pub enum Found {
    /// No block ends in the bytes so far, and they are fewer than 65,536.
    Partial,
    /// The head that stood at the front.
    Head(RawHead),
    /// 65,536 bytes or more came, and no block ends within the first 65,536.
    TooLong,
    /// The block at the front is no head.
    BadHead,
}

/// What stands at the front of the bytes, for a kind of head.
pub fn read_front(
    alloc: Global,
    bytes: &[u8],
    marks: &mut Marks,
    kind: Kind,
) -> Result<Front, NoMemory>
    requires { AreMarks bytes.now marks.old }
    ensures value { IfOk result (λ front. front ≡ spec.front kind bytes.now) }
    ensures within { IfOk result (λ front. IsFrontWithin (length bytes.now) front) }
    ensures marks { IfOk result (λ front. marks.new ≡ left_by front (searched bytes.now marks.old) marks.old) }
    ensures err { OnErr result (marks.new ≡ marks.old) }
{
    match find_place(bytes, marks, kind) {
        BlockPlace::Missing => Ok(Front::Nothing),
        BlockPlace::Exceeded => Ok(Front::TooLong),
        BlockPlace::Block(start, end) => match read_block(alloc, &bytes[start..end], kind)? {
            Some(raw) => Ok(Front::Stands(raw, end)),
            None => Ok(Front::BadHead),
        },
    }
}

fn find_place(bytes: &[u8], marks: &mut Marks, kind: Kind) -> BlockPlace
    requires { AreMarks bytes.now marks.old }
    ensures value { result ≡ spec.place kind bytes.now }
    ensures within { IsPlaceWithin (length bytes.now) result }
    ensures marks { marks.new ≡ noted result (searched bytes.now marks.old) marks.old }
{
    match kind {
        Kind::Request => head_place(bytes, marks),
        Kind::Response => head_place(bytes, marks),
        Kind::Trailers => trailers_place(bytes, marks),
    }
}

fn read_block(alloc: Global, block: &[u8], kind: Kind) -> Result<Option<RawHead>, NoMemory>
    ensures { IfOk result (λ raw. raw ≡ spec.read_as kind block.now) }
{
    match kind {
        Kind::Request => read_request(alloc, block),
        Kind::Response => read_response(alloc, block),
        Kind::Trailers => read_trailers(alloc, block),
    }
}
