//! The file that the words name first.
ghost use Rattle.std.specs.Prelude.{◌≡◌, ◌∷◌, [], IfErr, IfOk, OnOk};
ghost use Rattle.px_outside.specs.Count.{Rose};
ghost use Rattle.px_outside.specs.declared.files.FileCall.TheVariants.{Read as WasRead};
ghost use Rattle.px_core.specs.Answers.{files_meaning};
ghost use Rattle.px_map.specs.Reads.{Made, seen};
ghost use Rattle.px_words.specs.Converts.{Taken, takes_of};
ghost use Rattle.px_words.specs.Outside.{outside};
ghost use Rattle.px_words.specs.Takes.{StopsUnread};

use crate::stop::{NO_MEMORY, refuse_file};
use px_outside::{FileError, Files, Net, Sink};
use std::alloc::Global;

/// The bytes of the file of this path, which is read once. Where it is not read, that is printed, and the exit status is answered.
pub(crate) fn take_file<N: Net, F: Files, S: Sink, T: Sink>(
    alloc: Global,
    path: &str,
    net: &N,
    files: &mut F,
    out: &mut S,
    notes: &mut T,
) -> Result<Vec<u8>, u8>
    ensures ok { IfOk result (λ bytes. Made (WasRead path.now bytes.items ∷ []) (seen F.contents F.calls F.misses F.faults F.losses files.old) (seen F.contents F.calls F.misses F.faults F.losses files.new)) }
    ensures same_out { OnOk result (out.new ≡ out.old) }
    ensures same_notes { OnOk result (notes.new ≡ notes.old) }
    ensures losses { F.losses files.new ≡ F.losses files.old }
    ensures err { IfErr result (λ status. (what : Taken) × Made (takes_of path.now what) (seen F.contents F.calls F.misses F.faults F.losses files.old) (seen F.contents F.calls F.misses F.faults F.losses files.new)
        × StopsUnread (net.now ≡ net.now) (Rose (S.faults out.old) (S.faults out.new)) (Rose (T.faults notes.old) (T.faults notes.new)) path.now what
        (files_meaning F.contents F.calls F.misses F.faults F.losses files.new)
        (outside N.trace N.listening F.contents F.calls F.misses F.faults F.losses S.written T.written net.now files.old out.old notes.old)
        (outside N.trace N.listening F.contents F.calls F.misses F.faults F.losses S.written T.written net.now files.new out.new notes.new) status) }
{
    match files.read(path) {
        Ok(bytes) => Ok(bytes),
        Err(FileError::Absent) => Err(refuse_file(alloc, path, out, notes)),
        Err(FileError::Failed) => Err(refuse_file(alloc, path, out, notes)),
        Err(FileError::NoMemory) => Err(NO_MEMORY),
    }
}
