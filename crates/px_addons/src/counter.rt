//! An addon that counts requests.
ghost use Rattle.std.specs.Prelude.{◌≡◌, [], ◌∷◌};

use crate::Addon;
use px_core::Draft;
use px_event::Hook;
use px_text::NoMemory;

/// Counts the requests whose head was asked about, up to 2^64 - 1, and changes no draft. Its name is `counter`.
#[derive(Debug, Drop)]
pub struct FlowCounter {
    count: u64,
}

impl FlowCounter {
    /// No request yet.
    pub fn new() -> FlowCounter
        ensures counted { ⟦<FlowCounter as Addon>⟧.state result ≡ 0 ∷ [] }
    {
        FlowCounter { count: 0 }
    }
}

impl Addon for FlowCounter {
    ghost use Rattle.std.specs.Prelude.{◌∷◌, [], codes};
    ghost use Rattle.px_addons.specs.Counter.{counts};

    ghost title = { λ _. codes "counter" };

    ghost state = { λ c. c.count ∷ [] };

    ghost moves = { λ _. counts };

    fn name(&self) -> &str {
        "counter"
    }

    fn on(&mut self, hook: Hook, _draft: &mut Draft) -> Result<(), NoMemory> {
        if matches!(hook, Hook::RequestHead) {
            self.count = self.count.saturating_add(1);
        }
        Ok(())
    }
}
