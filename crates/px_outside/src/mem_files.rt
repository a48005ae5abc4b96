//! Files in memory.
//!
//! Reads, and appends of at least one byte, are counted together from 0; the call whose number is listed fails. A
//! failed append puts the first half of its bytes at the file's end. Each call is listed with its answer. A call for
//! which memory runs out is neither listed nor counted, and changes nothing.
ghost use Rattle.std.specs.Prelude.{◌≡◌, ◌≢◌, ◌≤◌, ◌<◌, ◌↔◌, [], Some, None, IfOk, OnOk, OnErr, length};
ghost use Rattle.px_outside.specs.Count.{Rose, FailsNext};
ghost use Rattle.px_outside.specs.Files.{Appends, AppendsPart, SameContents, Told, Stands, Lists};
ghost use Rattle.px_outside.specs.MemFiles.{stored_of, contents_of, AppendFails};
ghost use Rattle.px_outside.specs.MemFiles.{after_listing, after_read, after_miss, after_fault, after_put, after_append, after_loss};

use crate::plan::FaultPlan;
use crate::{FileCall, FileError, Files, stored};
use px_text::{Bytes, NoMemory};
use std::alloc::Global;
use std::marker::Model;

/// Files that are kept in memory with the list of their calls, and fail at the calls that they are told to.
#[derive(Debug, Drop)]
pub struct MemFiles {
    alloc: Global,
    files: Vec<(String, Vec<u8>)>,
    listed: Vec<FileCall>,
    plan: FaultPlan,
    misses: u64,
    faults: u64,
    losses: u64,
}

impl Model for MemFiles {
    ghost use Rattle.px_outside.specs.MemFiles.{FilesState, stored_of};

    ghost Value = { FilesState };

    ghost view = { λ f. record { stored = stored_of f.files.items; listed = f.listed.items; plan = f.plan; misses = f.misses; faults = f.faults; losses = f.losses } };
}

impl MemFiles {
    /// These files; of two with one path the first counts. The calls of these numbers fail.
    pub fn new(alloc: Global, files: Vec<(String, Vec<u8>)>, fails: Vec<u64>) -> MemFiles
        ensures { result ≡ record { stored = stored_of files.items; listed = []; plan = record { count = 0; fails = fails.items }; misses = 0; faults = 0; losses = 0 } }
    {
        MemFiles {
            alloc,
            files,
            listed: Vec::new(alloc),
            plan: FaultPlan::new(fails),
            misses: 0,
            faults: 0,
            losses: 0,
        }
    }

    /// The calls so far, each with its path and answer.
    pub fn calls(&self) -> &[FileCall]
        ensures { result.now ≡ self.now.listed }
    {
        self.listed.as_slice()
    }

    // Lists a call and counts it.
    fn list(&mut self, call: FileCall) -> Result<(), NoMemory>
        ensures ok { OnOk result (self.new ≡ after_listing self.old call) }
        ensures err { OnErr result (self.new ≡ self.old) }
    {
        self.listed.push(call)?;
        self.plan.count_call();
        Ok(())
    }

    // Puts the bytes at the path's end and lists the call: both or neither.
    fn put(&mut self, path: &str, bytes: &[u8], call: FileCall) -> Result<(), NoMemory>
        ensures ok { OnOk result (self.new ≡ after_put self.old path.now bytes.now call) }
        ensures err { OnErr result (self.new ≡ self.old) }
    {
        self.listed.try_reserve(1)?;
        stored::append(&mut self.files, path, bytes)?;
        self.listed.push(call)?;
        Ok(())
    }

    fn copy(&self, bytes: &[u8]) -> Result<Bytes, NoMemory>
        ensures { IfOk result (λ copy. copy ≡ bytes.now) }
    {
        Bytes::copied(self.alloc, bytes)
    }
}

impl Files for MemFiles {
    ghost contents = { λ f. Some (contents_of f.stored) };

    ghost calls = { λ f. Some f.listed };

    ghost misses = { λ f. f.misses };

    ghost faults = { λ f. f.faults };

    ghost losses = { λ f. f.losses };

    fn read(&mut self, path: &str) -> Result<Vec<u8>, FileError>
        ensures ok { IfOk result (λ bytes. Stands path.now (Some bytes.items) (Some (contents_of self.old.stored))) }
        ensures absent { result ≡ Err FileError.Absent → Stands path.now None (Some (contents_of self.old.stored)) }
        ensures contents { Told SameContents (Some (contents_of self.old.stored)) (Some (contents_of self.new.stored)) }
        ensures listed { IfOk result (λ bytes. Lists (FileCall.Read path.now bytes.items) (Some self.old.listed) (Some self.new.listed)) }
        ensures listed_absent { result ≡ Err FileError.Absent → Lists (FileCall.Missed path.now) (Some self.old.listed) (Some self.new.listed) }
        ensures listed_failed { result ≡ Err FileError.Failed → Lists (FileCall.ReadFailed path.now) (Some self.old.listed) (Some self.new.listed) }
        ensures not_listed { result ≡ Err FileError.NoMemory → Some self.new.listed ≡ Some self.old.listed }
        ensures missed { result ≡ Err FileError.Absent → Rose self.old.misses self.new.misses }
        ensures failed { result ≡ Err FileError.Failed → Rose self.old.faults self.new.faults }
        ensures later_misses { self.old.misses ≤ self.new.misses }
        ensures later_faults { self.old.faults ≤ self.new.faults }
        ensures losses { self.new.losses ≡ self.old.losses }

        // Which reads fail, and what each answer leaves.
        ensures fails { result ≢ Err FileError.NoMemory → ((result ≡ Err FileError.Failed) ↔ FailsNext self.old.plan) }
        ensures after_ok { IfOk result (λ bytes. self.new ≡ after_read self.old path.now bytes.items) }
        ensures after_absent { result ≡ Err FileError.Absent → self.new ≡ after_miss self.old path.now }
        ensures after_failed { result ≡ Err FileError.Failed → self.new ≡ after_fault self.old path.now }
        ensures after_no_memory { result ≡ Err FileError.NoMemory → self.new ≡ self.old }
    {
        let name = self.copy(path.as_bytes())?;
        if self.plan.fails_next() {
            self.list(FileCall::ReadFailed { path: name })?;
            self.faults = self.faults.saturating_add(1);
            return Err(FileError::Failed);
        }
        let Some(bytes) = stored::find(&self.files, path) else {
            self.list(FileCall::Missed { path: name })?;
            self.misses = self.misses.saturating_add(1);
            return Err(FileError::Absent);
        };
        let given = Vec::from_slice(self.alloc, bytes)?;
        let bytes = self.copy(bytes)?;
        self.list(FileCall::Read { path: name, bytes })?;
        Ok(given)
    }

    fn append(&mut self, path: &str, bytes: &[u8]) -> Result<(), FileError>
        ensures ok { OnOk result (Told (Appends path.now bytes.now) (Some (contents_of self.old.stored)) (Some (contents_of self.new.stored))) }
        ensures part { result ≡ Err FileError.Failed → Told (AppendsPart path.now bytes.now) (Some (contents_of self.old.stored)) (Some (contents_of self.new.stored)) }
        ensures no_memory { result ≡ Err FileError.NoMemory → Told SameContents (Some (contents_of self.old.stored)) (Some (contents_of self.new.stored)) }
        ensures never_absent { result ≢ Err FileError.Absent }
        ensures listed { OnOk result (Lists (FileCall.Appended path.now bytes.now) (Some self.old.listed) (Some self.new.listed)) }
        ensures listed_failed { result ≡ Err FileError.Failed → Lists (FileCall.AppendFailed path.now) (Some self.old.listed) (Some self.new.listed) }
        ensures not_listed { result ≡ Err FileError.NoMemory → Some self.new.listed ≡ Some self.old.listed }
        ensures lost { result ≡ Err FileError.Failed → Rose self.old.losses self.new.losses }
        ensures not_empty { result ≡ Err FileError.Failed → 0 < length bytes.now }
        ensures later_losses { self.old.losses ≤ self.new.losses }
        ensures misses { self.new.misses ≡ self.old.misses }
        ensures faults { self.new.faults ≡ self.old.faults }

        // Which appends fail, and what each answer leaves.
        ensures fails { result ≢ Err FileError.NoMemory → ((result ≡ Err FileError.Failed) ↔ AppendFails self.old bytes.now) }
        ensures after_ok { OnOk result (self.new ≡ after_append self.old path.now bytes.now) }
        ensures after_failed { result ≡ Err FileError.Failed → self.new ≡ after_loss self.old path.now bytes.now }
        ensures after_no_memory { result ≡ Err FileError.NoMemory → self.new ≡ self.old }
    {
        let name = self.copy(path.as_bytes())?;
        if !bytes.is_empty() && self.plan.fails_next() {
            let half = &bytes[..bytes.len() / 2];
            self.put(path, half, FileCall::AppendFailed { path: name })?;
            self.plan.count_call();
            self.losses = self.losses.saturating_add(1);
            return Err(FileError::Failed);
        }
        let added = self.copy(bytes)?;
        self.put(
            path,
            bytes,
            FileCall::Appended {
                path: name,
                bytes: added,
            },
        )?;
        if !bytes.is_empty() {
            self.plan.count_call();
        }
        Ok(())
    }
}
