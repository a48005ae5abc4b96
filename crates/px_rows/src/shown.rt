//! Texts that are written.
use crate::RowError;
use std::alloc::Global;
use std::fmt;

/// A text that is written step by step. No step fails: where memory runs out, `finish` tells so.
#[derive(Drop)]
pub struct Shown {
    text: String,
    is_spent: bool,
}

impl Shown {
    /// Nothing is written yet.
    pub fn new(alloc: Global) -> Shown {
        Shown {
            text: String::new(alloc),
            is_spent: false,
        }
    }

    /// Whether nothing is written.
    pub fn is_empty(&self) -> bool {
        self.text.is_empty()
    }

    /// Appends the text.
    pub fn text(&mut self, text: &str) {
        if self.text.push_str(text).is_err() {
            self.is_spent = true;
        }
    }

    /// Appends the number in decimal digits.
    pub fn number(&mut self, number: u64) {
        if write!(self.text, "{number}").is_err() {
            self.is_spent = true;
        }
    }

    /// Appends the value as it is shown in source text.
    pub fn debug<T: fmt::Debug>(&mut self, value: &T) {
        if write!(self.text, "{value:?}").is_err() {
            self.is_spent = true;
        }
    }

    /// Appends the bytes as a text in which `\r`, `\n`, `\t`, `\\` and `\xHH` stand for bytes.
    pub fn bytes(&mut self, bytes: &[u8]) {
        for byte in bytes {
            self.byte(*byte);
        }
    }

    fn byte(&mut self, byte: u8) {
        match byte {
            b'\r' => self.text("\\r"),
            b'\n' => self.text("\\n"),
            b'\t' => self.text("\\t"),
            b'\\' => self.text("\\\\"),
            b' '..=b'~' => self.character(char::from(byte)),
            other => self.hex(other),
        }
    }

    fn character(&mut self, character: char) {
        if self.text.push(character).is_err() {
            self.is_spent = true;
        }
    }

    fn hex(&mut self, byte: u8) {
        if write!(self.text, "\\x{byte:02X}").is_err() {
            self.is_spent = true;
        }
    }

    /// Notes that memory ran out over what is to be shown.
    pub fn spend(&mut self) {
        self.is_spent = true;
    }

    /// The text, unless memory ran out over it.
    pub fn finish(self) -> Result<String, RowError> {
        if self.is_spent {
            return Err(RowError::NoMemory);
        }
        Ok(self.text)
    }
}
