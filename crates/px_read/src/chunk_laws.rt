//! Laws of what the bytes tell of a chunked body, each the contract of a function that does nothing.
//!
//! They tie the reading of bytes (`specs/Chunks.antt`) to the relation between a text and its chunks
//! (`specs/Chunked.antt`), and say what may be relied on whatever bytes follow.
ghost use Rattle.px_read.specs.ChunkLaws as law;

/// Bytes behind others are heard from the place to which those led.
pub fn hearing_resumes()
    ensures { law.HearingResumes }
{}

/// A body that goes on is read further from where it stands.
pub fn reading_resumes()
    ensures { law.ReadingResumes }
{}

/// A body that is whole or refused stays as it is, whatever follows, and uses the same bytes.
pub fn finish_stays()
    ensures { law.FinishStays }
{}

/// What is told only grows.
pub fn marks_grow()
    ensures { law.MarksGrow }
{}

/// Two pieces leave a reader as both at once do, and tell the same: no cut shows.
pub fn cuts_do_not_show()
    ensures { law.CutsDoNotShow }
{}

/// A body is ended by at least one byte, and by none that is not there.
pub fn used_is_within()
    ensures { law.ChunksUsedIsWithin }
{}

/// A chunked body is read with its contents and its trailers, whatever follows it.
pub fn chunked_is_read()
    ensures { law.ChunkedIsRead }
{}

/// What is read as whole is a chunked body with these contents and trailers.
pub fn read_is_chunked()
    ensures { law.ReadIsChunked }
{}

/// Bytes begin with one chunked body at most, and it is read in one way only.
pub fn chunked_is_unique()
    ensures { law.ChunkedIsUnique }
{}

/// Bytes that are refused begin no chunked body.
pub fn refused_is_not_chunked()
    ensures { law.RefusedIsNotChunked }
{}
