//! Files of flows that are judged whole, before anything is made of them.
//!
//! A file is gone through twice: a first time to its end or to its first bad place, keeping nothing, and then once more from its front, one entry at a time.
//! In the second pass no bad place comes, since each text begins with one entry at most and one that begins with an entry is not refused.
ghost use Rattle.std.specs.Prelude.{◌≡◌, ◌≢◌, ◌-◌, ℕ, List, [], length, None, Ok, IfOk, IfErr, OnOk};
ghost use Rattle.px_flowfile.specs.Reader.{ComesNext, IsNoEntry};
ghost use Rattle.px_words.specs.Whole.{HasNoNext, IsNotWhole, IsWhole, made_code};

use crate::flows::wants_memory;
use crate::stop::NO_MEMORY;
use px_flowfile::{Entry, FlowReader, ReadFault, loaded_is_not_refused};
use px_text::{Bytes, NoMemory};
use px_tnet::{each_text_has_one_tree, what_is_read_is_not_refused};
use std::alloc::Global;

/// Why a file of flows is not gone through to its end.
#[derive(Clone, Copy, Debug, PartialEq, Eq)]
pub enum NotWhole {
    /// Something stands behind so many bytes, and it begins with no entry.
    BadPlace(usize),
    /// Memory ran out.
    NoMemory,
}

impl From<NoMemory> for NotWhole {
    ghost use Rattle.std.specs.Prelude.{◌≡◌};
    ghost use Rattle.px_words.specs.declared.whole.NotWhole.TheVariants as faults;

    ghost from_gives = { λ _ error. error ≡ faults.NoMemory };

    fn from(_: NoMemory) -> NotWhole {
        NotWhole::NoMemory
    }
}

/// Why not all is there of what is made of a file's flows.
#[derive(Clone, Copy, Debug, PartialEq, Eq)]
pub enum Unfinished {
    /// A write or an append failed.
    Failed,
    /// Memory ran out.
    NoMemory,
}

impl From<NoMemory> for Unfinished {
    ghost use Rattle.std.specs.Prelude.{◌≡◌};
    ghost use Rattle.px_words.specs.declared.whole.Unfinished.TheVariants as breaks;

    ghost from_gives = { λ _ error. error ≡ breaks.NoMemory };

    fn from(_: NoMemory) -> Unfinished {
        Unfinished::NoMemory
    }
}

/// The status of a run that made all, or that broke off.
pub(crate) fn status_of(made: Result<(), Unfinished>) -> u8
    ensures code { result ≡ made_code made }
{
    match made {
        Ok(()) => 0,
        Err(Unfinished::Failed) => 7,
        Err(Unfinished::NoMemory) => NO_MEMORY,
    }
}

/// Goes through a file of these bytes from its front to its end, or to its first bad place. Its entries are let go of.
pub(crate) fn judge(alloc: Global, bytes: &Bytes) -> Result<(), NotWhole>
    ensures ok { OnOk result (IsWhole bytes.now) }
    ensures err { IfErr result (λ e. IsNotWhole bytes.now e) }
{
    let mut reader = FlowReader::new(alloc, bytes.try_clone()?);
    while let Some(entry) = next_entry(&mut reader)? {
        drop(entry);
    }
    Ok(())
}

/// The next entry of a file that is whole, or none at its end. Only memory may be wanting.
pub(crate) fn next_of_whole(reader: &mut FlowReader) -> Result<Option<Entry>, NoMemory>
    requires going { reader.old.fault ≡ None }
    requires whole { IsWhole reader.old.rest }
    ensures ok { IfOk result (λ entry. ComesNext reader.old.rest (Ok entry) reader.new.rest) }
    ensures going { OnOk result (reader.new.fault ≡ None) }
    ensures whole { OnOk result (IsWhole reader.new.rest) }
{
    each_text_has_one_tree();
    what_is_read_is_not_refused();
    loaded_is_not_refused();
    match next_entry(reader) {
        Ok(entry) => Ok(entry),
        Err(NotWhole::NoMemory) => Err(NoMemory),
        Err(NotWhole::BadPlace(_)) => unreachable!(),
    }
}

// The next entry of a file, or none at its end.
fn next_entry(reader: &mut FlowReader) -> Result<Option<Entry>, NotWhole>
    requires going { reader.old.fault ≡ None }
    ensures ok { IfOk result (λ entry. ComesNext reader.old.rest (Ok entry) reader.new.rest) }
    ensures err { IfErr result (λ e. HasNoNext reader.old.len reader.old.rest e) }
    ensures going { OnOk result (reader.new.fault ≡ None) }
    ensures len { reader.new.len ≡ reader.old.len }
{
    match reader.next() {
        Ok(entry) => Ok(entry),
        Err(fault) => Err(no_next(fault)),
    }
}

// What a fault of the reader is: a bad place, or out of memory.
fn no_next(fault: ReadFault) -> NotWhole
    ensures stops { (len : ℕ) (rest : List ℕ) → IsNoEntry rest fault.cause → rest ≢ [] → fault.offset ≡ len - length rest → HasNoNext len rest result }
{
    if wants_memory(fault.cause) {
        return NotWhole::NoMemory;
    }
    NotWhole::BadPlace(fault.offset)
}
