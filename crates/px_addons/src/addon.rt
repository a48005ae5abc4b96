//! What an addon is.
use px_core::Draft;
use px_event::Hook;
use px_text::NoMemory;

/// Someone who is asked about flows, by a name of its own (mitmproxy's manual, "Addons").
///
/// To write one, write a struct and this `impl`. What its author has to state is its relation `moves`, and nothing else: which drafts
/// and which states may follow on a hook, a draft and a state. The two other ghost members are its name and what of it the relation
/// speaks of, both plain lists. `docs/addons.md` goes through an example.
pub trait Addon: Drop {
    ghost use Rattle.std.specs.Prelude.{◌≡◌, ℕ, List, OnOk};
    ghost use Rattle.px_addons.specs.Moving.{Moves, SameMoves};

    /// Its name, in bytes.
    ghost title: { Self → List ℕ };

    /// What of it the relation speaks of, as a list of numbers.
    ghost state: { Self → List ℕ };

    /// Its relation: a hook, its state and the draft before, its state and the draft after.
    ghost moves: { Self → Moves };

    /// Its name, by which it can be taken away.
    fn name(&self) -> &str
        ensures { result.now ≡ title self.now };

    /// Is asked at a hook about the draft that those before it left, and changes it or leaves it. A verdict that is not Go ends the
    /// order. Its name and its relation stay. After `NoMemory` the addon and the draft may only be dropped.
    fn on(&mut self, hook: Hook, draft: &mut Draft) -> Result<(), NoMemory>
        ensures title { title self.new ≡ title self.old }
        ensures same { SameMoves (moves self.old) (moves self.new) }
        ensures moves { OnOk result (moves self.old hook (state self.old) draft.old (state self.new) draft.new) };
}
