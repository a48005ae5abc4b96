//! What an operator's lines make of a flow that waits.
//!
//! A flow that waits at a hook has a draft: the flow as rules and addons left it, and as lines changed it since. A line is read
//! as an `Edit`, by its words (`specs/Changes.antt`): it keeps them as they were said. Whether they are a method, a URL or a value is judged
//! at the draft, behind whether the change is there to be made at all; so a line that asks for something that the hook is not about is
//! refused for that, whatever its words are.
//!
//! What a change makes of a draft is one function of both (`specs/Edits.antt`), and many lines are that function folded over them. An `Edited` is
//! three things: what the hook is, the flow, and what the last line gave, a field or a body, which is still open: bytes that `more` adds go
//! there. What is open stands beside the flow, and is put into it where the flow is asked for, or where another line comes. So a long body that
//! comes in many lines is copied once for each doubling of its length, and a line that adds to a field says what one with the whole value would
//! have said: that is a law.
//!
//! A hook is about one message: the request, the response, or a message of a WebSocket. All that lines change is in that message. A
//! change is made at the hooks that take it back (`Reply`): a body changes where the message is whole, and is held here.
//!
//! Bytes stand in a line as base64, in the alphabet with `+` and `/`, padded, without bits that are left over (RFC 4648 sections 3.5 and 4): so each
//! list of bytes has one text, and each text at most one list of bytes.
//!
//! Which flows wait, and what the answers of lines are, is told elsewhere: this crate knows one draft at a time.
#![tactic(auto)]

mod content;
mod edit;
mod edited;
mod error;
mod fields;
mod given;
mod laws;
mod messages;
mod rows;
mod subject;
mod words;

pub use edit::{Edit, ReadError, read_edit};
pub use edited::Edited;
pub use error::EditError;
pub use laws::{
    base64_is_read, changes_stay_at_their_message, lines_follow, no_change_is_the_flow,
    pieces_make_one, refusal_changes_nothing,
};
pub use rows::drafts_are_changed;
