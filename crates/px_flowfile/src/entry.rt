//! A flow, and what a file says of it beside.
ghost use Rattle.std.specs.Prelude.{◌≡◌, ◌⊎◌, IfOk, IfErr, IsErrAnd, MatchResult};
ghost use Rattle.px_tnet.specs.Items.{most_deep};
ghost use Rattle.px_message.specs.declared.flow.Flow.{Flow};
ghost use Rattle.px_tnet.specs.Tree.{Pairs};
ghost use Rattle.px_tnet.specs.View.{view};
ghost use Rattle.px_tnet.specs.Written.{IsSound};
ghost use Rattle.px_flowfile.specs.FlowTable.{IsNoFlow, Loads};
ghost use Rattle.px_flowfile.specs.OthersView.{others_view};
ghost use Rattle.px_flowfile.specs.declared.error.FlowFileError.{FlowFileError};
ghost use Rattle.px_flowfile.specs.declared.error.FlowFileError.TheVariants as error;

use crate::find::dict_in;
use crate::flow::flow_in;
use crate::{FlowFileError, Key, Others};
use px_message::Flow;
use px_tnet::Tnet;
use std::alloc::Global;

/// A flow, and the pairs of its dictionary that no table has.
#[derive(Debug, Drop)]
pub struct Entry {
    pub flow: Flow,
    pub others: Others,
}

/// The flow that the tree is, with its other pairs; or why it is none, which is the first cause in the order of the tables. The tree has to
/// be one that is read from a text. Keys stand in any order, as bytes or as texts; keys that no table has are kept here, and read over in the
/// dictionaries within. Bodies are parts of the bytes of the tree.
pub fn read_flow(alloc: Global, tree: &Tnet) -> Result<Entry, FlowFileError>
    requires { IsSound (view tree.now) most_deep }
    ensures ok { IfOk result (λ entry. Loads (view tree.now) entry.flow (others_view entry.others)) }
    ensures err { IfErr result (λ e. (e ≡ error.NoMemory) ⊎ IsNoFlow (view tree.now) e) }
    ensures loaded { (f : Flow) (others : Pairs) → Loads (view tree.now) f others
        → MatchResult result (λ entry. (entry.flow ≡ f) × (others_view entry.others ≡ others)) (λ e. e ≡ error.NoMemory) }
    ensures refused { (cause : FlowFileError) → IsNoFlow (view tree.now) cause
        → IsErrAnd result (λ e. (e ≡ error.NoMemory) ⊎ (e ≡ cause)) }
{
    read_entry(alloc, tree)
}

fn read_entry(alloc: Global, tree: &Tnet) -> Result<Entry, FlowFileError>
    requires { IsSound (view tree.now) most_deep }
    ensures ok { IfOk result (λ entry. Loads (view tree.now) entry.flow (others_view entry.others)) }
    ensures err { IfErr result (λ e. (e ≡ error.NoMemory) ⊎ IsNoFlow (view tree.now) e) }
{
    let dict = dict_in(Key::Flow, tree)?;
    let flow = flow_in(alloc, dict)?;
    match Others::of(alloc, dict) {
        Ok(others) => Ok(Entry { flow, others }),
        Err(_) => {
            drop(flow);
            Err(FlowFileError::NoMemory)
        }
    }
}
