//! Which calls of an implementation in memory fail.
//!
//! Calls are counted from 0, and the call whose number is listed fails. The count stands still at its type's end.
ghost use Rattle.std.specs.Prelude.{◌≡◌};
ghost use Rattle.px_outside.specs.Count.{Plan, fails_next, after_call};

use std::marker::Model;

/// The count of the calls so far, and the numbers of those that fail.
#[derive(Debug, Drop)]
pub struct FaultPlan {
    count: u64,
    fails: Vec<u64>,
}

impl Model for FaultPlan {
    ghost Value = { Plan };

    ghost view = { λ p. record { count = p.count; fails = p.fails.items } };
}

impl FaultPlan {
    /// No call is counted yet.
    pub fn new(fails: Vec<u64>) -> FaultPlan
        ensures { result ≡ record { count = 0; fails = fails.items } }
    {
        FaultPlan { count: 0, fails }
    }

    /// Whether the next call fails.
    pub fn fails_next(&self) -> bool
        ensures { result ≡ fails_next self.now }
    {
        self.fails.contains(&self.count)
    }

    /// Counts a call.
    pub fn count_call(&mut self)
        ensures { self.new ≡ after_call self.old }
    {
        self.count = self.count.saturating_add(1);
    }
}
