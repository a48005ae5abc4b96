//! A value that is shared by those who hold it.
ghost use Rattle.std.specs.Prelude.{◌≡◌, IfOk};
ghost use Rattle.std.proofs.Common.{rules};
ghost use Rattle.std.specs.Cmp.Rules.{comparing};

use px_text::NoMemory;
use std::alloc::{AllocError, Global};
use std::marker::Model;
use std::rc::Rc;

/// A part of a flow that is shared by the copies of the flow. In a contract it is the value itself.
///
/// It is one word large, a copy of it takes no memory, and what it holds is never changed. To change a part of a flow, copy
/// what it holds, change the copy and share that: `flow.request = Shared::new(alloc, changed)?`. Other copies of the flow keep
/// what they had.
#[derive(Debug, Drop)]
pub struct Shared<T> {
    shared: Rc<T>,
}

impl<T> Model for Shared<T> {
    ghost Value = { T };

    ghost view = { λ s. s.shared.value };
}

impl<T: Drop> Shared<T> {
    /// The value, to be shared. It takes memory once, for all who share it.
    pub fn new(alloc: Global, value: T) -> Result<Shared<T>, NoMemory>
        ensures { IfOk result (λ made. made ≡ value) }
    {
        Ok(Shared {
            shared: Rc::new(alloc, value)?,
        })
    }

    /// The value.
    pub fn get(&self) -> &T
        ensures { result.now ≡ self.now }
    {
        &self.shared
    }

    /// One more who shares the value.
    pub fn try_clone(&self) -> Result<Shared<T>, NoMemory>
        ensures { IfOk result (λ copy. copy ≡ self.now) }
    {
        Ok(self.clone()?)
    }
}

impl<T: Drop> Clone for Shared<T> {
    ghost is_clone = { λ x y. y ≡ x };

    fn clone(&self) -> Result<Shared<T>, AllocError> {
        Ok(Shared {
            shared: self.shared.clone()?,
        })
    }
}

impl<T: PartialEq> PartialEq for Shared<T> {
    ghost eq = { T.eq };

    ghost laws = { Prim.search (comparing, rules) };

    fn eq(&self, other: &Shared<T>) -> bool {
        self.shared == other.shared
    }
}

impl<T: Eq> Eq for Shared<T> {
    ghost laws = { Prim.search (comparing, rules) };
}
