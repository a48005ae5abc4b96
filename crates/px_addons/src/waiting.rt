//! Which answers wait for an operator.
ghost use Rattle.std.specs.Prelude.{◌≡◌, ◌&&◌, true, Some, IfOk, OnErr};
ghost use Rattle.px_addons.specs.Chain.{answer_by, answer_if, intercept_of, is_going, is_judged, may_wait, waits};
ghost use Rattle.px_filter.specs.View.{expression};

use crate::Rules;
use crate::chain::is_going;
use px_core::{Answer, Draft};
use px_event::Hook;
use px_filter::Filter;
use px_text::NoMemory;

impl Rules {
    // The answer of a draft that all parts were asked about.
    pub(crate) fn answer_by(&self, hook: Hook, draft: Draft) -> Result<Answer, NoMemory>
        ensures answers { IfOk result (λ answer. answer ≡ answer_by self.now hook draft) }
        ensures judged { OnErr result (is_judged (intercept_of self.now) hook draft ≡ true) }
    {
        match self.waits(hook, &draft) {
            Ok(waits) => Ok(answer_if(waits, draft)),
            Err(e) => {
                drop(draft);
                Err(e)
            }
        }
    }

    // Whether a draft that all parts were asked about waits.
    fn waits(&self, hook: Hook, draft: &Draft) -> Result<bool, NoMemory>
        ensures waits { IfOk result (λ answer. answer ≡ waits (intercept_of self.now) hook draft.now) }
        ensures judged { OnErr result (is_judged (intercept_of self.now) hook draft.now ≡ true) }
    {
        match &self.intercept {
            None => Ok(false),
            Some(filter) => waits_by(filter, hook, draft),
        }
    }
}

// Whether it waits by this filter.
fn waits_by(filter: &Filter, hook: Hook, draft: &Draft) -> Result<bool, NoMemory>
    ensures waits { IfOk result (λ answer. answer ≡ waits (Some (expression filter.now)) hook draft.now) }
    ensures judged { OnErr result (is_judged (Some (expression filter.now)) hook draft.now ≡ true) }
{
    if !lets_wait(hook, draft) {
        return Ok(false);
    }
    filter.matches(&draft.flow)
}

// Whether the filter decides: at the hook an answer may wait, and all parts let the flow go on.
fn lets_wait(hook: Hook, draft: &Draft) -> bool
    ensures { result ≡ (may_wait hook && is_going draft.now.verdict) }
{
    if !may_wait(hook) {
        return false;
    }
    is_going(&draft.verdict)
}

// Whether an answer at the hook may wait.
fn may_wait(hook: Hook) -> bool
    ensures { result ≡ may_wait hook }
{
    matches!(
        hook,
        Hook::RequestBody | Hook::ResponseBody | Hook::WsMessage(_)
    )
}

// The draft waits, or is the reply that it is.
fn answer_if(waits: bool, draft: Draft) -> Answer
    ensures { result ≡ answer_if waits draft }
{
    if waits {
        Answer::Wait(draft)
    } else {
        Answer::Reply(draft.into_reply())
    }
}
