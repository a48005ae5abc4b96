//! The lines of control connections, cut from their bytes.
//!
//! A line ends in LF, and one CR directly in front of it is dropped. So many bytes without a line feed are too long a line, and
//! behind one the connection has no other. What is kept of a connection is what came behind its last line feed, and no more.
//! Bytes may come in any pieces, those of many connections in between.
ghost use Rattle.std.specs.Prelude.{◌≡◌, ◌≢◌, ◌<◌, ◌++◌, ◌∷◌, [], ℕ, true, length, OnOk, OnErr};
ghost use Rattle.px_text.specs.Prefix.{IsPrefixOf};
ghost use Rattle.px_view.specs.declared.desk.Line.TheVariants.{Text as TextOf, TooLong};
ghost use Rattle.px_view.specs.Desk.{ends_in_return, fresh, stand, stand_by, stand_of, stands, told, told_by, without_return};

use px_text::{Bytes, NoMemory};
use std::alloc::Global;
use std::collections::HashMap;

/// What a connection said.
#[derive(Debug, Drop, PartialEq, Eq)]
pub enum Line {
    /// A whole line, without its end.
    Text(Bytes),
    /// A line had too many bytes. Nothing follows.
    TooLong,
}

// So many bytes without a line feed are too long a line.
const LIMIT: usize = 1024;

/// What is kept of a connection.
#[derive(Debug, Drop)]
pub(crate) struct Kept {
    // What came behind its last line feed.
    pub(crate) line: Vec<u8>,
    // A line was too long.
    pub(crate) is_stopped: bool,
}

/// The connections of which something is kept, by their numbers.
#[derive(Debug, Drop)]
pub struct Desk {
    kept: HashMap<u32, Kept>,
    alloc: Global,
}

impl Desk {
    /// No byte has come.
    pub fn new(alloc: Global) -> Desk
        ensures empty { (conv : ℕ) → stand_of result conv ≡ fresh }
    {
        Desk {
            kept: HashMap::new(alloc),
            alloc,
        }
    }

    /// Takes bytes of a connection, and pushes the lines that they complete. After `NoMemory` some of these lines were pushed, and
    /// the connection is forgotten.
    pub fn take(&mut self, conv: u32, bytes: &[u8], out: &mut Vec<Line>) -> Result<(), NoMemory>
        ensures lines { OnOk result (out.new.items ≡ out.old.items ++ told bytes.now (stand_of self.old conv)) }
        ensures stands { OnOk result (stand_of self.new conv ≡ stands bytes.now (stand_of self.old conv)) }
        ensures others { (other : ℕ) → other ≢ conv → stand_of self.new other ≡ stand_of self.old other }
        ensures some { OnErr result (IsPrefixOf out.new.items (out.old.items ++ told bytes.now (stand_of self.old conv))) }
        ensures before { OnErr result (IsPrefixOf out.old.items out.new.items) }
        ensures forgets { OnErr result (stand_of self.new conv ≡ fresh) }
    {
        let mut kept = self.release(conv);
        kept.take(bytes, out)?;
        self.keep(conv, kept)
    }

    /// Forgets a connection, which has closed.
    pub fn forget(&mut self, conv: u32)
        ensures forgets { stand_of self.new conv ≡ fresh }
        ensures others { (other : ℕ) → other ≢ conv → stand_of self.new other ≡ stand_of self.old other }
    {
        self.kept.remove(&conv);
    }

    // Hands out what is kept of a connection.
    fn release(&mut self, conv: u32) -> Kept
        ensures kept { stand result ≡ stand_of self.old conv }
        ensures forgets { stand_of self.new conv ≡ fresh }
        ensures others { (other : ℕ) → other ≢ conv → stand_of self.new other ≡ stand_of self.old other }
    {
        match self.kept.remove(&conv) {
            Some(kept) => kept,
            None => Kept {
                line: Vec::new(self.alloc),
                is_stopped: false,
            },
        }
    }

    // Keeps what is to be kept of a connection of which nothing is.
    fn keep(&mut self, conv: u32, kept: Kept) -> Result<(), NoMemory>
        requires { stand_of self.old conv ≡ fresh }
        ensures stands { OnOk result (stand_of self.new conv ≡ stand kept) }
        ensures others { (other : ℕ) → other ≢ conv → stand_of self.new other ≡ stand_of self.old other }
        ensures forgets { OnErr result (stand_of self.new conv ≡ fresh) }
    {
        if !kept.is_stopped && kept.line.is_empty() {
            return Ok(());
        }
        drop(self.kept.insert(conv, kept)?);
        Ok(())
    }
}

impl Kept {
    fn take(&mut self, bytes: &[u8], out: &mut Vec<Line>) -> Result<(), NoMemory>
        ensures lines { OnOk result (out.new.items ≡ out.old.items ++ told bytes.now (stand self.old)) }
        ensures stands { OnOk result (stand self.new ≡ stands bytes.now (stand self.old)) }
        ensures some { OnErr result (IsPrefixOf out.new.items (out.old.items ++ told bytes.now (stand self.old))) }
        ensures before { OnErr result (IsPrefixOf out.old.items out.new.items) }
    {
        for byte in bytes {
            self.take_byte(*byte, out)?;
        }
        Ok(())
    }

    fn take_byte(&mut self, byte: u8, out: &mut Vec<Line>) -> Result<(), NoMemory>
        ensures lines { OnOk result (out.new.items ≡ out.old.items ++ told_by (stand self.old) byte) }
        ensures stands { OnOk result (stand self.new ≡ stand_by (stand self.old) byte) }
        ensures err { OnErr result (out.new.items ≡ out.old.items) }
    {
        if self.is_stopped {
            return Ok(());
        }
        if byte == b'\n' {
            return self.end_line(out);
        }
        if self.line.len() >= LIMIT - 1 {
            return self.stop(out);
        }
        self.line.push(byte)?;
        Ok(())
    }

    // Pushes the line that a line feed ends.
    fn end_line(&mut self, out: &mut Vec<Line>) -> Result<(), NoMemory>
        ensures lines { OnOk result (out.new.items ≡ out.old.items ++ TextOf (without_return self.old.line.items) ∷ []) }
        ensures kept { OnOk result (self.new.line.items ≡ []) }
        ensures stays { self.new.is_stopped ≡ self.old.is_stopped }
        ensures err { OnErr result (out.new.items ≡ out.old.items) }
    {
        let text = Bytes::copied(*self.line.allocator(), without_return(&self.line))?;
        out.push(Line::Text(text))?;
        self.line.clear();
        Ok(())
    }

    // Tells that the line is too long, and lets go of it.
    fn stop(&mut self, out: &mut Vec<Line>) -> Result<(), NoMemory>
        ensures lines { OnOk result (out.new.items ≡ out.old.items ++ TooLong ∷ []) }
        ensures stops { OnOk result (self.new.is_stopped ≡ true) }
        ensures kept { OnOk result (self.new.line.items ≡ []) }
        ensures err { OnErr result (out.new.items ≡ out.old.items) }
    {
        out.push(Line::TooLong)?;
        self.line = Vec::new(*self.line.allocator());
        self.is_stopped = true;
        Ok(())
    }
}

// The text without a carriage return at its end.
fn without_return(text: &[u8]) -> &[u8]
    ensures { result.now ≡ without_return text.now }
{
    if ends_in_return(text) {
        &text[..text.len() - 1]
    } else {
        text
    }
}

fn ends_in_return(text: &[u8]) -> bool
    ensures value { result ≡ ends_in_return text.now }
    ensures some { result ≡ true → 0 < length text.now }
{
    0 < text.len() && text[text.len() - 1] == b'\r'
}
