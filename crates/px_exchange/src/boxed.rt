//! A value in a place of its own.
ghost use Rattle.std.specs.Prelude.{◌≡◌, IfOk};
ghost use Rattle.std.specs.Borrow.{Lends, sem};

use px_text::NoMemory;
use std::alloc::Global;
use std::marker::Model;
use std::ops::{Deref, DerefMut};

/// A value in a place of its own. In a contract it is the value itself.
///
/// It is one word large, so whoever hands it on moves one word, however large the value is. Its parts are read and changed
/// where they are: `flow.request`, `flow.response = None`.
#[derive(Debug, Drop)]
pub struct Boxed<T> {
    boxed: Box<T>,
}

impl<T> Model for Boxed<T> {
    ghost Value = { T };

    ghost view = { λ b. b.boxed.value };
}

impl<T: Drop> Boxed<T> {
    /// The value, moved to a place of its own. It takes memory once.
    pub fn new(alloc: Global, value: T) -> Result<Boxed<T>, NoMemory>
        ensures { IfOk result (λ made. made ≡ value) }
    {
        Ok(Boxed {
            boxed: Box::new(alloc, value)?,
        })
    }

    /// The value, out of its place.
    pub fn into_inner(self) -> T
        ensures { result ≡ self }
    {
        let Boxed { boxed } = self;
        Box::into_inner(boxed)
    }
}

impl<T> Deref for Boxed<T> {
    type Target = T;

    ghost deref_gives = { λ b x. x ≡ b };

    fn deref(&self) -> &T
        ensures { result.now ≡ self.now }
    {
        &self.boxed
    }
}

impl<T> DerefMut for Boxed<T> {
    ghost use Rattle.px_exchange.specs.contracts.boxed.Boxed.{the_row};

    ghost deref_mut_gives = { λ b x. x ≡ b };

    fn deref_mut(&mut self) -> &mut T
        ensures* writes_back { sem 𝓛 (Lends (the_row T.row) T.row self.entry result (λ w. w)) }
        ensures value { result.now ≡ self.old }
    {
        &mut self.boxed
    }
}
