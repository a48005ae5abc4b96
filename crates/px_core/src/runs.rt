//! Numbers as runs of neighbours.
//!
//! The numbers of conversations and of servers count up, and are asked for by number alone. So a set of them is kept by
//! its runs: they ascend, none is empty, and between two of them at least one number is missing (`AreRuns`).
ghost use Rattle.std.specs.Prelude.{◌≡◌, ℕ, ◌+◌, ◌^◌, ◌<◌, ◌≤◌, ◌==◌, ◌||◌, false, [], Some, None, IfSome, OnOk, OnErr};
ghost use Rattle.std.specs.Ordering.{nat_cmp};
ghost use Rattle.std.specs.BTreeMap.{get as last_at, IsOrdered};
ghost use Rattle.px_core.specs.Runs.{has, AreRuns, IsRunAt, IsFirstOf, IsLastOf};

use px_text::NoMemory;
use std::alloc::Global;
use std::collections::BTreeMap;
use std::marker::Model;

/// Numbers that were added. It keeps runs of neighbours, of each its first and its last number; so numbers that come in
/// about their order take the room of a few, however many they are. Each call goes down an ordered map of the runs, and
/// walks over none of them.
#[derive(Drop)]
pub struct Runs {
    lasts: BTreeMap<u64, u64>,
}

impl Model for Runs {
    ghost use Rattle.std.specs.Prelude.{ℕ, List};
    ghost use Rattle.px_core.specs.Runs.{AreRuns};

    ghost Value = { List (ℕ × ℕ) };

    ghost view = { λ r. r.lasts.entries };

    ghost invariant = { λ r. AreRuns r.lasts.entries };
}

impl Runs {
    /// No number was added.
    pub(crate) fn new(alloc: Global) -> Runs
        ensures empty { result ≡ [] }
    {
        Runs {
            lasts: BTreeMap::new(alloc),
        }
    }

    /// Whether this number was added.
    pub(crate) fn has(&self, number: u32) -> bool
        ensures has { result ≡ has self.now number }
        ensures runs { AreRuns self.now }
    {
        is_in(&self.lasts, u64::from(number))
    }

    /// Adds a number. After `NoMemory` it has what it had.
    pub(crate) fn add(&mut self, number: u32) -> Result<(), NoMemory>
        ensures added { OnOk result ((other : ℕ) → has self.new other ≡ ((number == other) || has self.old other)) }
        ensures err { OnErr result (self.new ≡ self.old) }
        ensures runs { AreRuns self.new }
    {
        put(&mut self.lasts, u64::from(number))
    }
}

/// Whether the number is in a run.
fn is_in(lasts: &BTreeMap<u64, u64>, number: u64) -> bool
    requires runs { AreRuns lasts.now.entries }
    ensures { result ≡ has lasts.now.entries number }
{
    match run_at(lasts, number) {
        Some((_, last)) => number <= last,
        None => false,
    }
}

/// The last run that begins at or before the number.
fn run_at(lasts: &BTreeMap<u64, u64>, number: u64) -> Option<(u64, u64)>
    ensures some { IfSome result (λ run. IsRunAt (last_at nat_cmp lasts.now) number run.0 run.1) }
    ensures none { result ≡ None → (other : ℕ) → other ≤ number → last_at nat_cmp lasts.now other ≡ None }
    ensures ordered { IsOrdered nat_cmp lasts.now }
{
    match lasts.range(..=number).next_back() {
        Some((first, last)) => Some((*first, *last)),
        None => None,
    }
}

/// Adds a number: it joins the run that ends before it, the run that begins behind it, or both.
fn put(lasts: &mut BTreeMap<u64, u64>, number: u64) -> Result<(), NoMemory>
    requires runs { AreRuns lasts.old.entries }
    requires small { number < 2 ^ 32 }
    ensures added { OnOk result ((other : ℕ) → has lasts.new.entries other ≡ ((number == other) || has lasts.old.entries other)) }
    ensures err { OnErr result (lasts.new.entries ≡ lasts.old.entries) }
    ensures runs { AreRuns lasts.new.entries }
{
    if is_in(lasts, number) {
        return Ok(());
    }
    let first = first_of(lasts, number);
    let last = last_of(lasts, number);
    lasts.insert(first, last)?;
    lasts.remove(&(number + 1));
    Ok(())
}

/// The first number of the run that this number would be in.
fn first_of(lasts: &BTreeMap<u64, u64>, number: u64) -> u64
    requires runs { AreRuns lasts.now.entries }
    requires new { has lasts.now.entries number ≡ false }
    ensures { IsFirstOf (last_at nat_cmp lasts.now) number result }
{
    match run_at(lasts, number) {
        Some((first, last)) => { if is_next(last, number) { first } else { number } }
        None => number,
    }
}

/// Whether the number is the next behind the last of a run.
fn is_next(last: u64, number: u64) -> bool
    ensures { result ≡ (last + 1 == number) }
{
    if last < number {
        last + 1 == number
    } else {
        false
    }
}

/// The last number of the run that this number would be in.
fn last_of(lasts: &BTreeMap<u64, u64>, number: u64) -> u64
    requires { number < 2 ^ 32 }
    ensures { IsLastOf (last_at nat_cmp lasts.now) number result }
{
    match lasts.get(&(number + 1)) {
        Some(last) => *last,
        None => number,
    }
}
