//! Places under a key.
ghost use Rattle.std.specs.Prelude.{◌≡◌, ◌∷◌, ◌++◌, [], drop, OnOk};

use px_text::NoMemory;
use std::alloc::Global;
use std::marker::Model;

/// Places in a list, in rising order, some first ones of which were given. In a contract they are those that are left.
#[derive(Debug, Drop)]
pub struct Places {
    all: Vec<usize>,
    given: usize,
}

impl Model for Places {
    ghost use Rattle.std.specs.Prelude.{◌≤◌, List, ℕ, drop, length};

    ghost Value = { List ℕ };

    ghost view = { λ p. drop p.given p.all.items };

    ghost invariant = { λ p. p.given ≤ length p.all.items };
}

impl Places {
    /// No place. It takes no memory.
    pub fn none(alloc: Global) -> Places
        ensures { result ≡ [] }
    {
        Places {
            all: Vec::new(alloc),
            given: 0,
        }
    }

    /// Adds a place behind them.
    pub fn push(&mut self, place: usize) -> Result<(), NoMemory>
        ensures { OnOk result (self.new ≡ self.old ++ place ∷ []) }
    {
        self.all.push(place)?;
        Ok(())
    }

    /// The first place is given. It takes no memory, and nothing is moved.
    pub fn give_first(&mut self)
        ensures { self.new ≡ drop 1 self.old }
    {
        if self.given < self.all.len() {
            self.given += 1;
        }
    }

    /// The places that are left.
    pub fn left(&self) -> &[usize]
        ensures { result.now ≡ self.now }
    {
        &self.all[self.given..]
    }
}
