//! The entries of a file on which a filter holds, written anew: the words `pick FILE FILTER OUT`.
//!
//! The filter is judged first; then all is as `convert` has it, of those entries. So what is sent again, or answers in a server's place, can be picked from a file of many flows.
ghost use Rattle.std.specs.Prelude.{◌≡◌};
ghost use Rattle.px_outside.specs.Count.{Rose};
ghost use Rattle.px_outside.specs.Files.{Told};
ghost use Rattle.px_words.specs.Keeps.{KeepsFront};
ghost use Rattle.px_words.specs.Picks.{Picked, PicksFile};
ghost use Rattle.px_words.specs.Outside.{outside};

use crate::converting::copy_file;
use crate::flows::refuse_filter;
use px_filter::Filter;
use px_outside::{Files, Net, Sink};
use std::alloc::Global;

/// Puts the text of each entry of the file at `path` on which the filter holds at the end of the file at `to`, in their order, each with the pairs that no table has; an entry whose text
/// is too long for a length adds nothing. The text is judged before the file is read; a text that is no filter is told by a line with its place, and by a note that shows it, and no file
/// is touched. The file is read whole and judged first: behind a place that has no entry nothing is appended, and its line is printed. Whatever comes of the run, what stood in the file at `to` stays in front, and no other
/// file is changed.
/// Nothing is asked of `net`. Answers the exit status: 0; 2 where the text is no filter; 3 where the file was not read; 4 at a place of the file that has no entry; 7 where an append
/// failed, behind which nothing more is appended; 8 where memory ran out.
pub fn pick<N: Net, F: Files, S: Sink, T: Sink>(
    alloc: Global,
    path: &str,
    text: &str,
    to: &str,
    net: &N,
    files: &mut F,
    out: &mut S,
    notes: &mut T,
) -> u8
    ensures picks { (what : Picked) × PicksFile (net.now ≡ net.now) (Rose (S.faults out.old) (S.faults out.new)) (Rose (F.losses files.old) (F.losses files.new)) (Rose (T.faults notes.old) (T.faults notes.new)) path.now text.now to.now what
        (outside N.trace N.listening F.contents F.calls F.misses F.faults F.losses S.written T.written net.now files.old out.old notes.old)
        (outside N.trace N.listening F.contents F.calls F.misses F.faults F.losses S.written T.written net.now files.new out.new notes.new) result }
    ensures keeps { Told (KeepsFront to.now) (F.contents files.old) (F.contents files.new) }
{
    match Filter::parse(alloc, text) {
        Ok(filter) => {
            let chosen = Some(filter);
            copy_file(alloc, path, &chosen, to, net, files, out, notes)
        }
        Err(error) => refuse_filter(alloc, text, error, out, notes),
    }
}
