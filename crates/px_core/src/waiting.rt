//! A draft with which a hook waits, and what lines make of its flow.
ghost use Rattle.std.specs.Prelude.{◌≡◌, ◌⊎◌, Some, None, Ok, Err, IfOk, IfErr, OnOk, OnErr};
ghost use Rattle.px_core.specs.Drafts.{with_edits};
ghost use Rattle.px_core.specs.Held.{IsChanged, IsUnchanged};
ghost use Rattle.px_draft.specs.Edits.{changed, flow_of, fresh};
ghost use Rattle.px_draft.specs.declared.error.EditError.TheVariants as error;

use crate::Draft;
use px_draft::{Edit, EditError, Edited};
use px_event::Hook;
use px_message::Flow;
use px_text::NoMemory;
use std::alloc::Global;
use std::mem;

/// A draft that waits, as the answerer gave it, and its flow as lines changed it, if any did.
#[derive(Drop)]
pub struct Waiting {
    draft: Draft,
    edited: Option<Edited>,
}

impl Waiting {
    /// The draft as the answerer gave it.
    pub(crate) fn new(draft: Draft) -> Waiting
        ensures draft { result.draft ≡ draft }
        ensures edited { result.edited ≡ None }
    {
        Waiting {
            draft,
            edited: None,
        }
    }

    /// Changes its flow, at the hook that waits. After a refusal it is as before.
    pub(crate) fn change(
        &mut self,
        alloc: Global,
        hook: Hook,
        change: &Edit,
    ) -> Result<(), EditError>
        ensures changed { OnOk result (IsChanged hook change.now self.old self.new) }
        ensures refused { IfErr result (IsUnchanged hook change.now self.old) }
        ensures unchanged { OnErr result (self.new ≡ self.old) }
    {
        match &mut self.edited {
            Some(edited) => edited.change(alloc, change),
            None => self.change_first(alloc, hook, change),
        }
    }

    // The first change of its flow.
    fn change_first(&mut self, alloc: Global, hook: Hook, change: &Edit) -> Result<(), EditError>
        requires unchanged { self.old.edited ≡ None }
        ensures changed { OnOk result (IsChanged hook change.now self.old self.new) }
        ensures refused { IfErr result (IsUnchanged hook change.now self.old) }
        ensures unchanged { OnErr result (self.new ≡ self.old) }
    {
        match changed_once(alloc, hook, &self.draft.flow, change) {
            Ok(edited) => {
                self.edited = Some(edited);
                Ok(())
            }
            Err(error) => Err(error),
        }
    }

    /// The draft, with the flow that lines made if they made one.
    pub(crate) fn into_draft(self, alloc: Global) -> Result<Draft, NoMemory>
        ensures { IfOk result (λ draft. draft ≡ with_edits self.edited self.draft) }
    {
        let Waiting { draft, edited } = self;
        match edited {
            None => Ok(draft),
            Some(edited) => put_flow(alloc, draft, edited),
        }
    }
}

// What a change makes of a flow at a hook.
fn changed_once(alloc: Global, hook: Hook, flow: &Flow, change: &Edit) -> Result<Edited, EditError>
    ensures ok { IfOk result (λ edited. changed change.now (fresh hook flow.now) ≡ Ok edited) }
    ensures refused { IfErr result (λ e. (e ≡ error.NoMemory) ⊎ (changed change.now (fresh hook flow.now) ≡ Err e)) }
{
    let mut edited = Edited::new(hook, flow.try_clone()?);
    match edited.change(alloc, change) {
        Ok(()) => Ok(edited),
        Err(error) => {
            drop(edited);
            Err(error)
        }
    }
}

// The draft with the flow that lines made.
fn put_flow(alloc: Global, draft: Draft, edited: Edited) -> Result<Draft, NoMemory>
    ensures { IfOk result (λ put. put ≡ record draft { flow = flow_of edited }) }
{
    match edited.flow(alloc) {
        Ok(flow) => {
            drop(edited);
            Ok(with_flow(draft, flow))
        }
        Err(NoMemory) => {
            drop(edited);
            drop(draft);
            Err(NoMemory)
        }
    }
}

fn with_flow(draft: Draft, flow: Flow) -> Draft
    ensures { result ≡ record draft { flow = flow } }
{
    let mut draft = draft;
    drop(mem::replace(&mut draft.flow, flow));
    draft
}
