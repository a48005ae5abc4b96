//! What inputs and answers are made of.
use px_message::{Address, Host};
use px_rows::{RowError, Shown, read_u32};
use std::alloc::Global;

/// What is there before the calls, up to ` | `, where there is such a part; and the calls.
pub(crate) fn halves(input: &str) -> (&str, &str) {
    match input.split_once(" | ") {
        Some(halves) => halves,
        None => ("", input),
    }
}

/// The first word, and what stands behind it.
pub(crate) fn word_of(text: &str) -> (&str, &str) {
    match text.split_once(' ') {
        Some(halves) => halves,
        None => (text, ""),
    }
}

/// The numbers, with `, ` between them.
pub(crate) fn push_numbers(text: &str, numbers: &mut Vec<u64>) -> Result<(), RowError> {
    for number in text.split(", ") {
        numbers.push(u64::from(read_u32(number)?))?;
    }
    Ok(())
}

/// The address `h:80`.
pub(crate) fn address(alloc: Global) -> Result<Address, RowError> {
    match Host::try_new(alloc, Vec::from_slice(alloc, b"h")?) {
        Ok(host) => Ok(Address { host, port: 80 }),
        Err(_) => Err(RowError::NoMemory),
    }
}

/// Begins the answer of a further call.
pub(crate) fn begin_answer(out: &mut Shown) {
    if !out.is_empty() {
        out.text("; ");
    }
}

/// Answers with bytes.
pub(crate) fn show_bytes(out: &mut Shown, bytes: &[u8]) {
    out.text("<");
    out.bytes(bytes);
    out.text(">");
}
