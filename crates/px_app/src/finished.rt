//! The flows that one step finishes.
ghost use Rattle.std.specs.Prelude.{◌≡◌, List, [], ◌++◌};
ghost use Rattle.px_message.specs.declared.flow.Flow.{Flow as FinishedFlow};

use px_core::Taker;
use px_message::Flow;
use px_text::NoMemory;
use std::alloc::Global;
use std::marker::{Brand, PhantomData};

/// For proofs alone: the flows that were finished before. A call with `Brand` picks them.
pub(crate) trait Before {
    ghost before: { List FinishedFlow };
}

impl Before for Brand {
    ghost before = { [] };
}

/// Keeps the flows that are finished, until their lines are printed.
#[derive(Debug, Drop)]
pub(crate) struct Finished<K> {
    pub(crate) flows: Vec<Flow>,
    before: PhantomData<K>,
}

impl<K: Before> Finished<K> {
    /// No flow is finished yet.
    pub(crate) fn new(alloc: Global) -> Finished<K>
        ensures { result.flows.items ≡ [] }
    {
        Finished {
            flows: Vec::new(alloc),
            before: PhantomData,
        }
    }
}

impl<K: Before> Taker for Finished<K> {
    ghost taken = { λ finished. K.before ++ finished.flows.items };

    fn done(&mut self, flow: Flow) -> Result<(), NoMemory> {
        self.flows.push(flow)?;
        Ok(())
    }
}
