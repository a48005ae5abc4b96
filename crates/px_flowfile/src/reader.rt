//! Files of flows: entries one behind the other.
ghost use Rattle.std.specs.Prelude.{◌≡◌, ◌≢◌, ◌≤◌, ◌-◌, length, drop, [], None, Some, Ok, Err, IfOk, IfErr, IfSome, OnOk, OnErr};
ghost use Rattle.px_tnet.specs.Items.{IsItem, most_deep};
ghost use Rattle.px_tnet.specs.View.{view};
ghost use Rattle.px_flowfile.specs.Reader.{BeginsWith, ComesNext, IsNoEntry};

use crate::{Entry, ReadCause, ReadFault, read_flow};
use px_text::Bytes;
use px_tnet::{Tnet, each_tree_has_one_spelling, read};
use std::alloc::Global;

/// The entries of a file, from its front. A fault is answered again for ever.
#[derive(Debug, Drop)]
pub struct FlowReader {
    alloc: Global,
    len: usize,
    rest: Bytes,
    fault: Option<ReadFault>,
    ghost within: { length rest ≤ len },
}

impl FlowReader {
    /// Reads these bytes, which are shared. It takes no memory.
    pub fn new(alloc: Global, bytes: Bytes) -> FlowReader
        ensures rest { result.rest ≡ bytes }
        ensures len { result.len ≡ length bytes }
        ensures fault { result.fault ≡ None }
    {
        FlowReader {
            alloc,
            len: bytes.len(),
            rest: bytes,
            fault: None,
        }
    }

    /// The next entry, or nothing exactly at the end of the file, where no fault comes. A place that has no entry is a fault, with the
    /// number of bytes in front of it; it is answered again for ever, out of memory too.
    pub fn next(&mut self) -> Result<Option<Entry>, ReadFault>
        ensures again { IfSome self.old.fault (λ fault. (result ≡ Err fault) × (self.new ≡ self.old)) }
        ensures ok { self.old.fault ≡ None → IfOk result (λ r. ComesNext self.old.rest (Ok r) self.new.rest) }
        ensures err { self.old.fault ≡ None → IfErr result (λ f. IsNoEntry self.old.rest f.cause
            × (f.offset ≡ self.old.len - length self.old.rest)) }
        ensures some { self.old.fault ≡ None → OnErr result (self.old.rest ≢ []) }
        ensures told { IfErr result (λ f. self.new.fault ≡ Some f) }
        ensures going { OnOk result (self.new.fault ≡ None) }
        ensures len { self.new.len ≡ self.old.len }
    {
        if let Some(fault) = self.fault {
            return Err(fault);
        }
        match next_entry(self.alloc, &mut self.rest) {
            Ok(entry) => Ok(entry),
            Err(cause) => {
                let fault = ReadFault {
                    offset: self.len - self.rest.len(),
                    cause,
                };
                self.fault = Some(fault);
                Err(fault)
            }
        }
    }
}

// Takes the next entry off the text.
fn next_entry(alloc: Global, rest: &mut Bytes) -> Result<Option<Entry>, ReadCause>
    ensures next { ComesNext rest.old result rest.new }
    ensures some { OnErr result (rest.old ≢ []) }
    ensures less { length rest.new ≤ length rest.old }
{
    if rest.is_empty() {
        return Ok(None);
    }
    match first_entry(alloc, rest) {
        Ok((entry, used)) => {
            rest.advance(used);
            Ok(Some(entry))
        }
        Err(cause) => Err(cause),
    }
}

// The entry at the front of the text, and how many bytes its text has.
fn first_entry(alloc: Global, text: &Bytes) -> Result<(Entry, usize), ReadCause>
    ensures ok { IfOk result (λ r. (r.1 ≤ length text.now) × BeginsWith r.0 text.now (drop r.1 text.now)) }
    ensures err { IfErr result (λ e. IsNoEntry text.now e) }
{
    match read(alloc, text) {
        Ok((tree, used)) => entry_of(alloc, text, tree, used),
        Err(e) => Err(ReadCause::Tnet(e)),
    }
}

// The entry that the tree is, which was read from the text.
fn entry_of(
    alloc: Global,
    text: &Bytes,
    tree: Tnet,
    used: usize,
) -> Result<(Entry, usize), ReadCause>
    requires used { used ≤ length text.now }
    requires item { IsItem most_deep (view tree) text.now (drop used text.now) }
    ensures ok { IfOk result (λ r. (r.1 ≤ length text.now) × BeginsWith r.0 text.now (drop r.1 text.now)) }
    ensures err { IfErr result (λ e. IsNoEntry text.now e) }
{
    each_tree_has_one_spelling();
    match read_flow(alloc, &tree) {
        Ok(entry) => Ok((entry, used)),
        Err(e) => Err(ReadCause::Flow(e)),
    }
}
