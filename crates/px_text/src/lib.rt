//! Small text: the shared byte list that every type above holds, and the error of a call that is out of memory.
//!
//! Each call equals its definition in `specs/`. Numbers are decimal or hexadecimal digits without a sign (RFC 9110
//! section 8.6, RFC 9112 section 7.1); letters are compared as ASCII (RFC 9110 section 5.1).
#![tactic(auto)]

mod ascii;
mod blank;
mod no_memory;
mod number;
mod shared;

pub use ascii::eq_ignore_case;
pub use blank::find_blank;
pub use no_memory::NoMemory;
pub use number::{push_decimal, push_hex, read_decimal, read_hex};
pub use shared::Bytes;
