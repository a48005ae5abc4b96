//! Texts in which others stand many times, and numbers.
use crate::{RowError, Shown};
use std::alloc::Global;

/// The text so often.
pub(crate) fn repeat(alloc: Global, unit: &str, count: usize) -> Result<String, RowError> {
    let mut out = Shown::new(alloc);
    for _ in 0..count {
        out.text(unit);
    }
    out.finish()
}

/// The text with another one in each of these places.
pub(crate) fn fill(alloc: Global, text: &str, place: &str, unit: &str) -> Result<String, RowError> {
    let mut filled = Shown::new(alloc);
    let mut first = true;
    for part in text.split(place) {
        if !first {
            filled.text(unit);
        }
        first = false;
        filled.text(part);
    }
    filled.finish()
}

/// The text with the number in each place `{}`.
pub(crate) fn fill_number(alloc: Global, text: &str, number: usize) -> Result<String, RowError> {
    let mut unit = Shown::new(alloc);
    unit.number(number as u64);
    let unit = unit.finish()?;
    fill(alloc, text, "{}", unit.as_str())
}

pub(crate) fn read_usize(text: &str) -> Result<usize, RowError> {
    match text.parse::<usize>() {
        Ok(number) => Ok(number),
        Err(_) => Err(RowError::Bad),
    }
}

/// The number that the text is.
pub fn read_u32(text: &str) -> Result<u32, RowError> {
    match text.parse::<u32>() {
        Ok(number) => Ok(number),
        Err(_) => Err(RowError::Bad),
    }
}
