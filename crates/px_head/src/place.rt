//! Where the block at the front stands, and how far the search for it has come.
//!
//! Bytes come in pieces, and each piece is looked at once: the empty lines that were skipped stay skipped, and the
//! search for the block's end goes on two bytes before the place where it stopped, since an end shows in three bytes.
//! The marks keep both. They are facts on the bytes so far, and more bytes behind them change none of these facts. Beside
//! them they say how many bytes the last search looked at that found nothing, so that one which begins anew is told from it.
ghost use Rattle.std.specs.Prelude.{◌≡◌, ◌≤◌, ◌+◌, ◌-◌, max, List, ℕ, drop, length};
ghost use Rattle.px_text.specs.Blank.{blank_end};
ghost use Rattle.px_head.specs.Front as spec;
ghost use Rattle.px_head.specs.Marks.{AreMarks, HasNoEnd, noted, searched};

use px_text::find_blank;

/// The most bytes that skipped lines and a block may have together.
const LIMIT: usize = 65_536;

/// No block yet, none within the limit, or the block from a start to an end.
#[derive(Clone, Copy, Debug, PartialEq, Eq)]
pub enum BlockPlace {
    Missing,
    Exceeded,
    Block(usize, usize),
}

/// How far the search at the front has come: the bytes of the empty lines that were skipped, the place up to which no
/// block ends that begins behind them, and how many bytes the last search looked at that found nothing.
#[derive(Clone, Copy, Debug)]
pub struct Marks {
    pub skipped: usize,
    pub reached: usize,
    pub looked: usize,
}

impl Marks {
    /// Nothing was looked at.
    pub const NONE: Marks = Marks {
        skipped: 0,
        reached: 0,
        looked: 0,
    };
}

/// The end of a block, if it ends, and how many bytes the search looked at.
#[derive(Clone, Copy, Debug)]
struct Search {
    end: Option<usize>,
    looked: usize,
}

/// Where the block of a start line stands.
pub fn head_place(bytes: &[u8], marks: &mut Marks) -> BlockPlace
    requires { AreMarks bytes.now marks.old }
    ensures place { result ≡ spec.head_place bytes.now }
    ensures marks { marks.new ≡ noted result (searched bytes.now marks.old) marks.old }
{
    let width = skip_blank(&bytes[marks.skipped..]);
    let start = marks.skipped + width;
    let search = find_end(bytes, start, marks.reached);
    let place = place_at(bytes, start, search.end);
    let found = Marks {
        skipped: start,
        reached: bytes.len(),
        looked: width + search.looked,
    };
    note(marks, place, found);
    place
}

/// Where the block of trailers stands.
pub fn trailers_place(bytes: &[u8], marks: &mut Marks) -> BlockPlace
    requires { AreMarks bytes.now marks.old }
    ensures place { result ≡ spec.trailers_place bytes.now }
    ensures marks { marks.new ≡ noted result (searched bytes.now marks.old) marks.old }
{
    let width = line_end(bytes);
    if width > 0 {
        return place_at(bytes, 0, Some(width));
    }
    let search = find_end(bytes, 0, marks.reached);
    let place = place_at(bytes, 0, search.end);
    let found = Marks {
        skipped: 0,
        reached: bytes.len(),
        looked: search.looked,
    };
    note(marks, place, found);
    place
}

// Keeps how far a search has come that found nothing.
fn note(marks: &mut Marks, place: BlockPlace, found: Marks)
    ensures { marks.new ≡ noted place found marks.old }
{
    if let BlockPlace::Missing = place {
        *marks = found;
    }
}

fn place_at(bytes: &[u8], start: usize, end: Option<usize>) -> BlockPlace
    ensures { result ≡ spec.place_at bytes.now start end }
{
    match end {
        Some(end) => {
            if end > LIMIT {
                BlockPlace::Exceeded
            } else {
                BlockPlace::Block(start, end)
            }
        }
        None => {
            if bytes.len() >= LIMIT {
                BlockPlace::Exceeded
            } else {
                BlockPlace::Missing
            }
        }
    }
}

// The end of the block that begins at `start`, where none stands up to `reached`: it goes on there.
fn find_end(bytes: &[u8], start: usize, reached: usize) -> Search
    requires start { start ≤ length bytes.now }
    requires within { reached ≤ length bytes.now }
    requires none { HasNoEnd bytes.now start reached }
    ensures end { result.end ≡ blank_end bytes.now start }
    ensures looked { result.looked ≡ length bytes.now - max start (reached - 2) }
{
    let from = start.max(reached.saturating_sub(2));
    search_from(bytes, from)
}

// The end of the block that begins at `from`, if it ends.
fn search_from(bytes: &[u8], from: usize) -> Search
    requires { from ≤ length bytes.now }
    ensures end { result.end ≡ blank_end bytes.now from }
    ensures looked { result.looked ≡ length bytes.now - from }
{
    Search {
        end: find_blank(bytes, from),
        looked: bytes.len() - from,
    }
}

// How many bytes the empty lines at the front have.
fn skip_blank(bytes: &[u8]) -> usize
    ensures value { result ≡ spec.blank_lines bytes.now }
    ensures within { result ≤ length bytes.now }
{
    let mut at = 0;
    loop {
        let width = line_end(&bytes[at..]);
        if width == 0 {
            return at;
        }
        at += width;
    }
}

// How many bytes the line end at the front has, 0 where none stands there.
fn line_end(bytes: &[u8]) -> usize
    ensures value { result ≡ spec.line_end bytes.now }
    ensures within { result ≤ length bytes.now }
{
    match bytes {
        [b'\n', ..] => 1,
        [b'\r', b'\n', ..] => 2,
        _ => 0,
    }
}
