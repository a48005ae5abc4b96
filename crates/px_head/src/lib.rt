//! The heads of HTTP messages, read from bytes that come in any pieces.
//!
//! A head is a block of lines that ends at its first empty line (RFC 9112 section 2.1). Empty lines in front of a
//! start line are skipped (section 2.2); trailers (section 7.1.2) have no start line, and an empty line at once is
//! trailers without a field. The skipped lines and the block have together at most 65,536 bytes. The block is a head
//! exactly where the grammar of `httparse` reads it whole with at most 100 fields; a response's code is 100 or more.
//!
//! What stands at the front of a list of bytes is a function of that list (`specs/Front.antt`), with the number of
//! bytes that it uses. `HeadReader` is fed pieces and answers that function of the bytes that were fed and not used:
//! the search for the block's end goes on where it stopped, and the grammar is asked once a block.
#![tactic(auto)]

mod block;
mod buffer;
mod front;
mod held;
pub mod laws;
mod place;
mod raw;
mod reader;

pub use front::Found;
pub use raw::{RawHead, RawPairs};
pub use reader::HeadReader;
