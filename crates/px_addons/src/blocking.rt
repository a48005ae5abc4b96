//! How block rules end a flow.
ghost use Rattle.std.specs.Prelude.{◌≡◌, true, IfOk, OnOk};
ghost use Rattle.px_addons.specs.Blocked.{blocked, blocked_with};
ghost use Rattle.px_map.specs.Block.{block_status};
ghost use Rattle.px_map.specs.View.{block_views};
ghost use Rattle.px_message.specs.Status.{is_status};

use crate::Rules;
use px_core::{Draft, Verdict};
use px_message::Status;
use px_text::NoMemory;
use px_write::short_response;
use std::alloc::Global;

impl Rules {
    // Asks the block rules.
    pub(crate) fn ask_block(&self, alloc: Global, draft: &mut Draft) -> Result<(), NoMemory>
        ensures { OnOk result (draft.new ≡ blocked (block_status (block_views self.now.block) draft.old.flow) draft.old) }
    {
        match self.block.answer(&draft.flow)? {
            None => Ok(()),
            Some(status) => {
                let verdict = blocked_with(alloc, status)?;
                set_verdict(draft, verdict);
                Ok(())
            }
        }
    }
}

// How a status blocks: 444 closes the connection without a response.
fn blocked_with(alloc: Global, status: u16) -> Result<Verdict, NoMemory>
    requires { is_status status ≡ true }
    ensures { IfOk result (λ verdict. verdict ≡ blocked_with status) }
{
    if status == 444 {
        return Ok(Verdict::Kill);
    }
    match Status::try_new(status) {
        Some(status) => Ok(Verdict::Respond(short_response(alloc, status)?)),
        None => unreachable!(),
    }
}

// Puts another verdict in the place of the draft's.
pub(crate) fn set_verdict(draft: &mut Draft, verdict: Verdict)
    ensures { draft.new ≡ record draft.old { verdict = verdict } }
{
    draft.verdict = verdict;
}
