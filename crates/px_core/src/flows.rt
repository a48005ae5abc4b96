//! Live flows by number, each as it was when it was asked about last.
ghost use Rattle.std.specs.Prelude.{◌≡◌, ℕ, Some, None, OnOk, option_copied};
ghost use Rattle.px_core.specs.Answered.{with_shown};
ghost use Rattle.px_core.specs.Live.{shown_in};

use px_message::{Flow, FlowId};
use px_text::NoMemory;
use std::alloc::Global;
use std::collections::BTreeMap;

/// Live flows of all conversations, in the order of their numbers: by the conversation, and in it by the flow's index.
#[derive(Drop)]
pub struct Flows {
    pub(crate) asked: BTreeMap<(u32, u32), Flow>,
}

impl Flows {
    /// No flow is live.
    pub(crate) fn new(alloc: Global) -> Flows
        ensures empty { (conv index : ℕ) → shown_in result conv index ≡ None }
    {
        Flows {
            asked: BTreeMap::new(alloc),
        }
    }

    /// The flow as it was when it was asked about last, if it is live.
    pub(crate) fn get(&self, id: FlowId) -> Option<&Flow>
        ensures value { option_copied result ≡ shown_in self.now id.conv id.index }
    {
        self.asked.get(&(id.conv, id.index))
    }

    /// Shows the flow, which is asked about. After `NoMemory` it shows what it showed.
    pub(crate) fn show(&mut self, flow: &Flow) -> Result<(), NoMemory>
        ensures shows { OnOk result ((conv index : ℕ) → shown_in self.new conv index ≡ with_shown flow.now.id.conv flow.now.id.index (Some flow.now) (shown_in self.old) conv index) }
    {
        let copy = flow.try_clone()?;
        match self.asked.insert((flow.id.conv, flow.id.index), copy) {
            Ok(before) => {
                drop(before);
                Ok(())
            }
            Err(failed) => {
                drop(failed);
                Err(NoMemory)
            }
        }
    }

    /// The flow is finished.
    pub(crate) fn hide(&mut self, id: FlowId)
        ensures shows { (conv index : ℕ) → shown_in self.new conv index ≡ with_shown id.conv id.index None (shown_in self.old) conv index }
    {
        drop(self.asked.remove(&(id.conv, id.index)));
    }
}
