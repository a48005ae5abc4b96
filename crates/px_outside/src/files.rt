//! Files.
ghost use Rattle.std.specs.Prelude.{◌≡◌, ◌≢◌, ◌≤◌, ◌<◌, ℕ, List, Some, None, Option, IfOk, OnOk, length};
ghost use Rattle.px_outside.specs.Count.{Rose};

use px_text::{Bytes, NoMemory};
use std::alloc::AllocError;

/// Why a file was not read or not written.
#[derive(Clone, Copy, Debug, PartialEq, Eq)]
pub enum FileError {
    /// Nothing stands under the path.
    Absent,
    /// The read or write failed.
    Failed,
    /// Memory ran out.
    NoMemory,
}

impl From<NoMemory> for FileError {
    ghost use Rattle.std.specs.Prelude.{◌≡◌};
    ghost use Rattle.px_outside.specs.declared.files.FileError.TheVariants as errors;

    ghost from_gives = { λ _ error. error ≡ errors.NoMemory };

    fn from(_: NoMemory) -> FileError {
        FileError::NoMemory
    }
}

impl From<AllocError> for FileError {
    ghost use Rattle.std.specs.Prelude.{◌≡◌};
    ghost use Rattle.px_outside.specs.declared.files.FileError.TheVariants as errors;

    ghost from_gives = { λ _ error. error ≡ errors.NoMemory };

    fn from(_: AllocError) -> FileError {
        FileError::NoMemory
    }
}

/// One call of `Files`, as it is listed: its path, and what it answered. A call that answers `NoMemory` is not listed.
#[derive(Clone, Debug, Drop, PartialEq, Eq)]
pub enum FileCall {
    /// A read that gave these bytes.
    Read { path: Bytes, bytes: Bytes },
    /// A read of a path under which nothing stood.
    Missed { path: Bytes },
    /// A read that failed.
    ReadFailed { path: Bytes },
    /// These bytes were put at the file's end.
    Appended { path: Bytes, bytes: Bytes },
    /// An append that failed.
    AppendFailed { path: Bytes },
}

/// Where files are read and appended to.
pub trait Files {
    ghost use Rattle.px_outside.specs.declared.files.FileCall.{FileCall as Call};
    ghost use Rattle.px_outside.specs.Files.{Contents, Appends, AppendsPart, SameContents, Told, Stands, Lists};

    /// What stands under each path, where the files tell it.
    ghost contents: { Self → Option Contents };

    /// The calls so far, where the files tell them.
    ghost calls: { Self → Option (List Call) };

    /// How often nothing stood under a path that was read.
    ghost misses: { Self → ℕ };

    /// How often a read failed.
    ghost faults: { Self → ℕ };

    /// How often an append failed.
    ghost losses: { Self → ℕ };

    /// The whole file. It changes no file.
    fn read(&mut self, path: &str) -> Result<Vec<u8>, FileError>
        ensures ok { IfOk result (λ bytes. Stands path.now (Some bytes.items) (contents self.old)) }
        ensures absent { result ≡ Err FileError.Absent → Stands path.now None (contents self.old) }
        ensures contents { Told SameContents (contents self.old) (contents self.new) }
        ensures listed { IfOk result (λ bytes. Lists (FileCall.Read path.now bytes.items) (calls self.old) (calls self.new)) }
        ensures listed_absent { result ≡ Err FileError.Absent → Lists (FileCall.Missed path.now) (calls self.old) (calls self.new) }
        ensures listed_failed { result ≡ Err FileError.Failed → Lists (FileCall.ReadFailed path.now) (calls self.old) (calls self.new) }
        ensures not_listed { result ≡ Err FileError.NoMemory → calls self.new ≡ calls self.old }
        ensures missed { result ≡ Err FileError.Absent → Rose (misses self.old) (misses self.new) }
        ensures failed { result ≡ Err FileError.Failed → Rose (faults self.old) (faults self.new) }
        ensures later_misses { misses self.old ≤ misses self.new }
        ensures later_faults { faults self.old ≤ faults self.new }
        ensures losses { losses self.new ≡ losses self.old };

    /// Puts the bytes at the file's end; an absent path counts as empty. After `Failed` a prefix of the bytes may stand
    /// there. An append of no bytes never fails. No other path changes.
    fn append(&mut self, path: &str, bytes: &[u8]) -> Result<(), FileError>
        ensures ok { OnOk result (Told (Appends path.now bytes.now) (contents self.old) (contents self.new)) }
        ensures part { result ≡ Err FileError.Failed → Told (AppendsPart path.now bytes.now) (contents self.old) (contents self.new) }
        ensures no_memory { result ≡ Err FileError.NoMemory → Told SameContents (contents self.old) (contents self.new) }
        ensures never_absent { result ≢ Err FileError.Absent }
        ensures listed { OnOk result (Lists (FileCall.Appended path.now bytes.now) (calls self.old) (calls self.new)) }
        ensures listed_failed { result ≡ Err FileError.Failed → Lists (FileCall.AppendFailed path.now) (calls self.old) (calls self.new) }
        ensures not_listed { result ≡ Err FileError.NoMemory → calls self.new ≡ calls self.old }
        ensures lost { result ≡ Err FileError.Failed → Rose (losses self.old) (losses self.new) }
        ensures not_empty { result ≡ Err FileError.Failed → 0 < length bytes.now }
        ensures later_losses { losses self.old ≤ losses self.new }
        ensures misses { misses self.new ≡ misses self.old }
        ensures faults { faults self.new ≡ faults self.old };
}
