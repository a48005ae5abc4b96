//! An addon that numbers requests: the example of docs/addons.md.
ghost use Rattle.std.specs.Prelude.{◌≡◌, [], ◌∷◌, ◌++◌, codes, decimal, IfOk};

use crate::Addon;
use crate::rules::put_in;
use px_core::Draft;
use px_event::Hook;
use px_message::{Name, Request, Shared, Value};
use px_text::NoMemory;
use std::alloc::Global;

/// Adds the field `N` to each request: its number, counted from 1. Its name is `numbering`.
#[derive(Debug, Drop)]
pub struct Numbering {
    alloc: Global,
    count: u64,
}

impl Numbering {
    /// No request yet.
    pub fn new(alloc: Global) -> Numbering
        ensures counted { ⟦<Numbering as Addon>⟧.state result ≡ 0 ∷ [] }
    {
        Numbering { alloc, count: 0 }
    }
}

impl Addon for Numbering {
    ghost use Rattle.std.specs.Prelude.{◌∷◌, [], codes};
    ghost use Rattle.px_addons.specs.Numbering.{numbers};

    ghost title = { λ _. codes "numbering" };

    ghost state = { λ n. n.count ∷ [] };

    ghost moves = { λ _. numbers };

    fn name(&self) -> &str {
        "numbering"
    }

    fn on(&mut self, hook: Hook, draft: &mut Draft) -> Result<(), NoMemory> {
        match hook {
            Hook::RequestHead => {
                self.count = self.count.saturating_add(1);
                draft.flow.request = numbered(self.alloc, draft.flow.request.get(), self.count)?;
                Ok(())
            }
            _ => Ok(()),
        }
    }
}

// The request with the number in one field more, which copies of the flow may share.
fn numbered(alloc: Global, request: &Request, number: u64) -> Result<Shared<Request>, NoMemory>
    ensures { IfOk result (λ shared. shared ≡ record request.now { fields = request.now.fields ++ (codes "N", decimal number) ∷ [] }) }
{
    let name = Name::of_token(alloc, b"N")?;
    let value = Value::of_number(alloc, number)?;
    let mut fields = request.fields.try_clone()?;
    fields.add(name, value)?;
    Shared::new(alloc, put_in(request.try_clone()?, fields))
}
