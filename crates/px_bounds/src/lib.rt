//! How much a reader of a message keeps once it gave all that had come: laws of `px_read`'s definitions. Nothing here runs; `px_stream` stands on it for how much a stream keeps.
//!
//! A reader keeps what was fed and not used; of what was used a chunk line or trailers that have begun; and of a whole message its trailers (`px_read`, `specs/Reader.antt`: `keeps`). Between two calls that may be all that was fed. But whoever
//! feeds a piece takes its parts before it feeds the next one, up to `More`, `End` or `Bad`, and then little is left, however long the message is and however it was cut.
//!
//! Behind `More` nothing of what is kept tells anything. Before a head these are fewer than 65,536 bytes without the end of a block, since one byte more ends the head or makes it too long. Of a body by length, or up to the close, each byte is told
//! as it comes, so none is left. Of a chunked body (RFC 9112 section 7.1) there is a chunk line that has begun; or the CR behind a content; or the chunk line of size 0, of at most 1,024 bytes, and fewer than 65,536 bytes of
//! trailers behind it. The last is the most: `0;`, an extension of 1,020 bytes, CRLF, and 65,535 bytes without a line end, which are 66,559 bytes at once.
//!
//! A state is any place in a message with any bytes behind it, so there are some that no reader is in: in a chunk line of a million bytes, say. Nothing that follows tells that one from a line of 1,023 bytes that no LF completes: the
//! next byte breaks the body, whichever it is. So even a state that has to come what its bytes tell (`Reads`) may have such a line, and the law asks that a line which has begun has room for one byte more (`HasRoom`). It has room wherever the bytes of a chunked body
//! lead to, and in each `ChunkReader`, as an invariant of the type.
//!
//! Behind `End` the trailers are kept: those of a block of at most 65,536 bytes, in which a colon and a line end stand beside each name and value, and a line end behind the last field. So they have at most 65,533 bytes: a name of one
//! byte, a colon, a value of 65,532 bytes, and two LF are such a block. Behind `Bad` no law bounds what is kept, since the bytes that were not used count: whoever hears it lets go of the reader.
#![tactic(auto)]

pub mod laws;
