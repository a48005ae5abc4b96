//! Flow files: flows as dictionaries, one behind the other in a file.
//!
//! A dictionary is told by a table (`specs/FlowTable.antt`, `Asked.antt`, `Answered.antt`, `Ends.antt`): a line for each key, with the kind of its value and
//! what of the flow it holds. Writer and reader go by the same table. A kind (`specs/Kind.antt`) says how a value is written as a tree, which
//! trees are read as which value, and why a tree is refused; kinds are put together from a few: values of one shape of tree, nothing in place of a
//! value, a list of values, a dictionary by a table. So `Meets` says that each key of a table is there, in whatever order, and is read as what the whole
//! holds, and `IsRefusedBy` which line is the first that is missing or refused. docs/flow-files.md has the tables for people.
//!
//! The code reads each line by itself, and joins the answers: the first line that is refused tells (`both`). Nothing of a hostile file halts it: depth
//! and lengths are bounded below, in px_tnet, and each key is looked up once. A flow's bodies are parts of the bytes that were read.
//!
//! Laws: a tree is loaded as one flow at most, or refused for one cause, and never both; and the tree of a flow is loaded as the same flow, with its other
//! pairs in their order and kind.
#![tactic(auto)]

mod answered;
mod asked;
mod both;
mod ends;
mod entry;
mod error;
mod fault;
mod field_list;
mod find;
mod flow;
mod form;
mod held;
mod id;
mod key;
mod laws;
mod message;
mod others;
mod plain;
mod put;
mod put_message;
mod put_socket;
mod reader;
mod request;
mod response;
mod simple;
mod socket;
mod sockets;
mod unknown;
mod write;
mod write_parts;

pub use entry::{Entry, read_flow};
pub use error::FlowFileError;
pub use fault::{ReadCause, ReadFault};
pub use key::Key;
pub use laws::{
    each_tree_has_one_flow, each_tree_has_one_refusal, first_text_is_read, flow_tree_is_sound,
    loaded_is_loadable, loaded_is_not_refused, written_entry_is_read, written_flow_is_read,
    written_is_loaded,
};
pub use others::Others;
pub use plain::plain_flow_is_loadable;
pub use reader::FlowReader;
pub use write::write_flow;
