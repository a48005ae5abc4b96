//! The entry of a flow, in parts.
//!
//! What there is to see of a flow is its entry of HAR 1.2, as px_har has it, one object of JSON without blanks between its parts; where a message of a WebSocket is asked
//! about, a blank stands behind the object, and then that message's payload in base64 (RFC 4648 section 4). A text of JSON ends with its object, so
//! whoever reads it knows where that is; and a payload without bytes leaves the blank, so that it can be told from no message at all.
//! The text has no line feed, and each part of it is a line.
//!
//! A part is what stands from one byte on, up to 65,536 bytes: so no part is larger than that, whatever a body has. Parts that follow each
//! other make the text, and at its end they are empty: that is a law. A part may end in the middle of a character.
#![tactic(auto)]

mod laws;
mod part;

pub use laws::parts_make_the_entry;
pub use part::write_part;
