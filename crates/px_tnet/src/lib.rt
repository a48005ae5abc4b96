//! Tnetstrings: trees of bytes, texts, numbers, lists and dictionaries, each with one spelling.
//!
//! An item is the length of its payload in decimal digits, a colon, the payload, and a byte that tells its kind
//! (`specs/Frame.antt`, `Kinds.antt`). The payload of a list is items one behind the other, that of a dictionary keys and items in turn.
//! So an item says where it ends before its payload begins, and items stand in one another without a mark
//! that could be forged. docs/flow-files.md has the format for people.
//!
//! What an item is, is a relation between a text, a tree and the rest behind it, by recursion on how deep lists and
//! dictionaries may still stand inside one another (`specs/Items.antt`); no reader is copied. Beside it stands why a text
//! begins with no item, the causes in the order in which they are judged: the text ends too early, the length is none, the
//! kind is unknown, the item is too deep, an item in it is refused, the payload is none of its kind, a key stands twice.
//! `read` answers exactly these two relations, and the laws say that they leave nothing open: each text has at most one
//! tree or one refusal, each tree has one text, and what is written is read back, whatever follows it.
//!
//! A stated length takes no memory before its bytes are there, depth is counted, and blobs are shared parts of the bytes
//! that are read; so a hostile text costs no more than its length.
#![tactic(auto)]

mod dict;
mod error;
mod frame;
mod kind;
mod laws;
mod length;
mod reading;
mod scalar;
mod tree;
mod writing;

pub use error::{TnetError, WriteError};
pub use laws::{
    cut_is_refused_as_cut, each_text_has_one_refusal, each_text_has_one_tree,
    each_tree_has_one_spelling, what_is_read_is_not_refused, written_is_read,
};
pub use reading::read;
pub use tree::{Tnet, TnetDict, TnetKey, TnetList};
pub use writing::write;
