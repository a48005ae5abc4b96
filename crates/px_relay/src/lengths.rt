//! The lengths of a message's fragments, in less than a byte for each byte of their frames.
//!
//! Neighbours that are equal are one run. The last run is a length and how often it stands; those before it are pairs of bytes (`specs/Lengths.antt`), in room for at most
//! twice as many. A frame has a head of two bytes and its payload, so the pairs of a run are no more bytes than its first frame; and the last run has no pairs.
//! So fragments of one length, empty ones among them, take no memory however many they are, and nor does a message of one frame.
ghost use Rattle.std.specs.Prelude.{◌≡◌, ◌≤◌, ◌<◌, ◌+◌, ◌++◌, ℕ, suc, List, ◌∷◌, [], None, Some, IfOk, OnOk, MatchOption, length, replicate};
ghost use Rattle.px_relay.specs.Lengths.{AreWhole, Say, Yields, heard, lengths_behind, longer};

use px_frame::SnugBytes;
use px_text::NoMemory;
use std::alloc::Global;
use std::marker::Model;
use std::mem;

/// The lengths of fragments, of one at least. In a contract they are the list of them.
#[derive(Debug, Drop)]
pub(crate) struct Lengths {
    // the runs before the last one
    pairs: SnugBytes,
    // the length of the last run, and how many fragments it has
    length: usize,
    times: usize,
}

impl Model for Lengths {
    ghost use Rattle.std.specs.Prelude.{List, ℕ, ◌++◌, replicate};
    ghost use Rattle.px_relay.specs.Lengths.{AreKept, lengths_behind};

    ghost Value = { List ℕ };

    ghost view = { λ l. lengths_behind 0 l.pairs ++ replicate l.times l.length };

    ghost invariant = { λ l. AreKept l.pairs l.times };
}

impl Lengths {
    /// That of one fragment.
    pub(crate) fn new(alloc: Global, length: usize) -> Lengths
        ensures { result ≡ length ∷ [] }
    {
        Lengths {
            pairs: SnugBytes::new(alloc),
            length,
            times: 1,
        }
    }

    /// Adds that of one fragment more.
    pub(crate) fn push(&mut self, length: usize) -> Result<(), NoMemory>
        ensures { OnOk result (self.new ≡ self.old ++ (length ∷ [])) }
    {
        if length == self.length && self.times < usize::MAX {
            self.times += 1;
            return Ok(());
        }
        let alloc = self.pairs.allocator();
        let pairs = mem::replace(&mut self.pairs, SnugBytes::new(alloc));
        self.pairs = with_run(pairs, self.length, self.times)?;
        self.length = length;
        self.times = 1;
        Ok(())
    }

    /// All of them, from the first on.
    pub(crate) fn walk(&self) -> Walk<'_>
        ensures { result ≡ self.now }
    {
        Walk {
            length: 0,
            times: 0,
            pairs: self.pairs.as_slice(),
            last: self.length,
            last_times: self.times,
        }
    }

    /// How many bytes are kept beside the last run: fewer than its frames have.
    pub(crate) fn kept(&self) -> usize
        ensures { result < heard self.now }
    {
        self.pairs.len()
    }
}

// Pairs, and those of a run behind them.
fn with_run(pairs: SnugBytes, length: usize, times: usize) -> Result<SnugBytes, NoMemory>
    requires some { 1 ≤ times }
    requires whole { AreWhole pairs }
    ensures whole { IfOk result AreWhole }
    ensures run { IfOk result (λ made. lengths_behind 0 made ≡ lengths_behind 0 pairs ++ replicate times length) }
{
    let mut made = pairs;
    push_run(&mut made, length, times)?;
    Ok(made)
}

// Adds a run: in one pair, or in as many as say each 255 times.
fn push_run(pairs: &mut SnugBytes, length: usize, times: usize) -> Result<(), NoMemory>
    requires { 1 ≤ times }
    ensures { OnOk result ((counts : List ℕ) → Say counts 0 pairs.old → Say (counts ++ replicate times length) 0 pairs.new) }
{
    let mut left = times;
    'runs: while left > 255 {
        push_pairs(pairs, length, 254)?;
        left -= 255;
    }
    push_pairs(pairs, length, (left - 1) as u8)
}

// Adds the pairs of a length that stands so many times more than once: in one pair, or behind as many as say 255 bytes of it each.
fn push_pairs(pairs: &mut SnugBytes, length: usize, more: u8) -> Result<(), NoMemory>
    requires { more < 255 }
    ensures { OnOk result ((counts : List ℕ) → Say counts 0 pairs.old → Say (counts ++ replicate (suc more) length) 0 pairs.new) }
{
    let mut left = length;
    'parts: while left > 255 {
        pairs.add(&[255, 255])?;
        left -= 255;
    }
    pairs.add(&[more, left as u8])
}

/// Lengths that are gone through. In a contract they are those that are still to come.
#[derive(Debug, Drop)]
pub(crate) struct Walk<'a> {
    // a run that has begun
    length: usize,
    times: usize,
    // those behind it
    pairs: &'a [u8],
    // and the last one
    last: usize,
    last_times: usize,
}

impl<'a> Model for Walk<'a> {
    ghost use Rattle.std.specs.Prelude.{List, ℕ, ◌++◌, replicate};
    ghost use Rattle.px_relay.specs.Lengths.{lengths_behind};

    ghost Value = { List ℕ };

    ghost view = { λ w. replicate w.times w.length ++ (lengths_behind 0 w.pairs.now ++ replicate w.last_times w.last) };
}

impl<'a> Walk<'a> {
    /// The next one.
    pub(crate) fn next(&mut self) -> Option<usize>
        ensures { Yields result self.old self.new }
    {
        if self.times > 0 {
            self.times -= 1;
            return Some(self.length);
        }
        match next_run(self.pairs) {
            Some(run) => {
                self.length = run.length;
                self.times = run.more;
                self.pairs = run.behind;
                Some(run.length)
            }
            None => {
                if self.last_times == 0 {
                    return None;
                }
                self.last_times -= 1;
                Some(self.last)
            }
        }
    }
}

// A run that pairs say first: its length, how many more than one it has, and the pairs behind it.
#[derive(Clone, Copy, Debug)]
struct Run<'a> {
    length: usize,
    more: usize,
    behind: &'a [u8],
}

fn next_run<'a>(pairs: &'a [u8]) -> Option<Run<'a>>
    ensures { MatchOption result (lengths_behind 0 pairs.now ≡ []) (λ run. lengths_behind 0 pairs.now ≡ replicate (suc run.more) run.length ++ lengths_behind 0 run.behind.now) }
{
    let mut part = 0usize;
    let mut rest = pairs;
    'parts: while let [more, count, behind @ ..] = rest {
        let length = part.saturating_add(usize::from(*count));
        if *more != 255 {
            return Some(Run {
                length,
                more: usize::from(*more),
                behind,
            });
        }
        part = length;
        rest = behind;
    }
    None
}
