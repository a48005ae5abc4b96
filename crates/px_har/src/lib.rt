//! An export of flows in the format HAR 1.2, which browsers' tools read: one object of JSON with an entry for each flow.
//!
//! What an export is, is a tree of JSON (`specs/Entry.antt`, `specs/Export.antt`), and its text is the one that serde_json has for that tree:
//! no blanks, and the members of each object in the order of their keys. The code makes no tree: it gives json's writer one token after
//! the other, so that an entry takes the memory of its text. An export may be written in parts, one entry at a time. That serde_json reads
//! the text back as the tree is a law: the numbers fit 64 bits, the keys of each object rise, and all of it is UTF-8.
//!
//! JSON has no bytes and no moments, so each has a text. Bytes stand as the characters of the same numbers. A response's body stands as it
//! is where it is UTF-8, and else as base64 in the alphabet with `+` and `/`, padded (RFC 4648 section 4): the padding tells how long the
//! last group is, and each list of bytes has one text.
//!
//! A moment is a number of microseconds since 1970, and its text has milliseconds: `1970-01-02T00:00:00.001Z` (RFC 3339, in UTC). It is
//! rounded down, so that of two moments the earlier one never has the later text. The text has four digits for the year: so a moment
//! behind the year 9999 is taken as its last one. The date is said by the calendar alone (`specs/Moment.antt`, `date_after`): it is the one
//! that one comes to from 1970-01-01 by so many steps to the following day. It is found through the day numbers of jiff's calendar: a
//! date has the number of days that it is behind 1970-01-01, and two dates with one number are the same.
#![tactic(auto)]

mod entry;
mod export;
mod laws;
mod message;
mod moment;
mod request;
mod response;
mod text;
mod times;
mod values;

pub use export::{Place, begin_har, end_har, write_entry, write_entry_at, write_har};
pub use laws::{characters_tell_the_bytes, export_is_read, parts_make_the_export, rows_hold};
pub use moment::push_moment;
pub use text::push_base64;
