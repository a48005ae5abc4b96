//! Laws of flow files. Each function does nothing; what it ensures is the law.
ghost use Rattle.std.specs.Prelude.{◌≡◌, ◌++◌, List, [], ℕ};
ghost use Rattle.px_tnet.specs.Items.{IsItem, most_deep};
ghost use Rattle.px_tnet.specs.Tree.{Pairs, Tree};
ghost use Rattle.px_tnet.specs.Written.{IsSound, IsTooLong, written};
ghost use Rattle.px_message.specs.declared.flow.Flow.{Flow};
ghost use Rattle.px_flowfile.specs.FlowTable.{IsLoadable, IsLoadableBy, IsNoFlow, Loads, first_tree, flow_tree, tree_by};
ghost use Rattle.px_flowfile.specs.OthersView.{others_view};
ghost use Rattle.px_flowfile.specs.Reader.{BeginsWith};
ghost use Rattle.px_flowfile.specs.Unknown.{AreOthers, AreUnknown};
ghost use Rattle.px_flowfile.specs.declared.entry.Entry.{Entry};
ghost use Rattle.px_flowfile.specs.declared.error.FlowFileError.{FlowFileError};
ghost use Rattle.px_flowfile.specs.declared.form.Form.{Form};

/// A tree that is loaded as a flow is not refused.
pub fn loaded_is_not_refused()
    ensures { (t : Tree) (f : Flow) (others : Pairs) (e : FlowFileError) → Loads t f others → ¬ (IsNoFlow t e) }
{}

/// A tree is refused for one cause at most.
pub fn each_tree_has_one_refusal()
    ensures { (t : Tree) (e d : FlowFileError) → IsNoFlow t e → IsNoFlow t d → e ≡ d }
{}

/// A tree is loaded as one flow at most, and with one list of other pairs.
pub fn each_tree_has_one_flow()
    ensures { (t : Tree) (f g : Flow) (others more : Pairs) → Loads t f others → Loads t g more → (f ≡ g) × (others ≡ more) }
{}

/// The tree that a form has of a flow is loaded as the same flow, and its other pairs come back in their order and kind.
pub fn written_is_loaded()
    ensures { (form : Form) (f : Flow) (others : Pairs) → IsLoadableBy form f → AreUnknown others → Loads (tree_by form f others) f others }
{}

/// The tree that a form has of a flow may be read wherever it has a text.
pub fn flow_tree_is_sound()
    ensures { (form : Form) (f : Flow) (others : Pairs) → IsLoadableBy form f → AreOthers others → ¬ (IsTooLong (tree_by form f others))
        → IsSound (tree_by form f others) most_deep }
{}

/// The text that a form has of a flow is read as its tree, whatever follows, and the tree is loaded as the same flow.
pub fn written_flow_is_read()
    ensures { (form : Form) (f : Flow) (others : Pairs) (rest : List ℕ) → IsLoadableBy form f → AreOthers others
        → ¬ (IsTooLong (tree_by form f others))
        → IsItem most_deep (tree_by form f others) (written (tree_by form f others) ++ rest) rest × Loads (tree_by form f others) f others }
{}

/// What `write_flow` appends of an entry is read back as the same entry, whatever follows.
pub fn written_entry_is_read()
    ensures { (entry : Entry) (rest : List ℕ) → IsLoadable entry.flow → ¬ (IsTooLong (flow_tree entry.flow (others_view entry.others)))
        → BeginsWith entry (written (flow_tree entry.flow (others_view entry.others)) ++ rest) rest }
{}

/// The text that version 1 has of an entry without messages is read as that entry, whatever follows.
pub fn first_text_is_read()
    ensures { (entry : Entry) (rest : List ℕ) → IsLoadable entry.flow → entry.flow.messages ≡ []
        → ¬ (IsTooLong (first_tree entry.flow (others_view entry.others)))
        → BeginsWith entry (written (first_tree entry.flow (others_view entry.others)) ++ rest) rest }
{}

/// What is loaded may be written: a flow that some tree is loaded as is loaded as itself from what is written of it.
pub fn loaded_is_loadable()
    ensures { (t : Tree) (f : Flow) (others : Pairs) → Loads t f others → IsLoadable f }
{}
