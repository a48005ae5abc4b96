//! The body of a message, as far as it has come.
ghost use Rattle.std.specs.Prelude.{◌≡◌, ◌++◌, IfOk, OnOk};
ghost use Rattle.px_read.specs.Marks.{marks_of};
ghost use Rattle.px_exchange.specs.Bodies.{HasRead, IsReading, content_of, stop_of};

use crate::content::Content;
use px_message::{Fault, Fields};
use px_read::{MessageReader, Part};
use px_text::NoMemory;

/// A body, as far as it has come.
#[derive(Debug, Drop)]
pub enum Progress {
    Missing,
    Whole(Fields),
    Bad(Fault),
}

/// Reads the body of a message whose head was read, and adds what came to it.
pub fn read_body(reader: &mut MessageReader, body: &mut Content) -> Result<Progress, NoMemory>
    requires reads { IsReading reader.old }
    ensures { IfOk result (λ progress. HasRead progress reader.old body.old reader.new body.new) }
{
    'parts: loop {
        let part = reader.next()?;
        if let Some(progress) = hear_part(part, body)? {
            return Ok(progress);
        }
    }
}

// Adds the content of a part; how the message stands, where it has no further part.
fn hear_part(part: Part, body: &mut Content) -> Result<Option<Progress>, NoMemory>
    ensures stops { IfOk result (λ stop. stop ≡ stop_of part) }
    ensures body { OnOk result (body.new ≡ body.old ++ content_of (marks_of part)) }
{
    match part {
        Part::More => Ok(Some(Progress::Missing)),
        Part::End(trailers) => Ok(Some(Progress::Whole(trailers))),
        Part::Bad(fault) => Ok(Some(Progress::Bad(fault))),
        Part::Piece(bytes) => {
            body.push(&bytes)?;
            Ok(None)
        }
        Part::ChunkStart(_) => Ok(None),
        Part::ChunkEnd => Ok(None),
        Part::Request(_) => Ok(None),
        Part::Response(_) => Ok(None),
    }
}
