//! The steps of a run.
ghost use Rattle.std.specs.Prelude.{◌≡◌, IfOk};

use crate::{Ask, Heard, Reply, Said};
use px_message::Flow;
use px_text::NoMemory;

/// One step of a run. A dial is asked by the `Said` and answered by the `Dialled` that is heard.
#[derive(Clone, Debug, Drop, PartialEq, Eq)]
pub enum Step {
    /// This was heard, at this moment in microseconds since 1970.
    Heard { moment: u64, heard: Heard },
    /// A conversation without a client began, with no one heard.
    Begun { conv: u32 },
    /// A hook of the conversation was asked.
    Asked { conv: u32, ask: Ask },
    /// The hook was answered.
    Answered { conv: u32, ask: Ask, reply: Reply },
    /// This was said to a side of the conversation.
    Said { conv: u32, said: Said },
    /// A flow is finished.
    Done { flow: Flow },
}

impl Step {
    /// A copy of the same step.
    pub fn try_clone(&self) -> Result<Step, NoMemory>
        ensures { IfOk result (λ copy. copy ≡ self.now) }
    {
        Ok(self.clone()?)
    }
}
