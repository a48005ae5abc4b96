//! Which pairs of a flow's dictionary no table has.
ghost use Rattle.std.specs.Prelude.{◌≡◌, IfOk, OnOk};
ghost use Rattle.px_tnet.specs.Items.{most_deep};
ghost use Rattle.px_tnet.specs.Tree.{Pairs, dict as one_dict, no_pair, pair as one_pair};
ghost use Rattle.px_tnet.specs.View.{key_view, paired, pairs_view, view};
ghost use Rattle.px_tnet.specs.Written.{IsSound};
ghost use Rattle.px_flowfile.specs.FlowTable.{is_known, unknown};
ghost use Rattle.px_flowfile.specs.OthersView.{others_view};
ghost use Rattle.px_flowfile.specs.Unknown.{joined};

use crate::Others;
use px_text::NoMemory;
use px_tnet::{Tnet, TnetDict, TnetKey};
use std::alloc::Global;

impl Others {
    /// No pairs, without taking memory.
    pub fn new(alloc: Global) -> Others
        ensures { others_view result ≡ no_pair }
    {
        Others {
            pairs: Vec::new(alloc),
        }
    }

    // The pairs of the dictionary whose keys no table has.
    pub(crate) fn of(alloc: Global, dict: &TnetDict) -> Result<Others, NoMemory>
        requires { IsSound (one_dict (pairs_view (paired dict.now))) most_deep }
        ensures { IfOk result (λ others. others_view others ≡ unknown (pairs_view (paired dict.now))) }
    {
        Ok(Others {
            pairs: unknown_of(alloc, dict.as_slice())?,
        })
    }

    /// The pairs.
    pub fn as_slice(&self) -> &[(TnetKey, Tnet)]
        ensures { pairs_view result.now ≡ others_view self.now }
    {
        self.pairs.as_slice()
    }
}

fn unknown_of(alloc: Global, pairs: &[(TnetKey, Tnet)]) -> Result<Vec<(TnetKey, Tnet)>, NoMemory>
    ensures { IfOk result (λ kept. pairs_view kept.items ≡ unknown (pairs_view pairs.now)) }
{
    let mut kept = Vec::new(alloc);
    let mut rest = pairs;
    while let Some((first, others)) = rest.split_first() {
        keep_unknown(&mut kept, first)?;
        rest = others;
    }
    Ok(kept)
}

// Puts a copy of the pair at the end, unless its key is of the table.
fn keep_unknown(kept: &mut Vec<(TnetKey, Tnet)>, pair: &(TnetKey, Tnet)) -> Result<(), NoMemory>
    ensures { OnOk result ((more : Pairs) → joined (pairs_view kept.new.items) (unknown more)
        ≡ joined (pairs_view kept.old.items) (unknown (one_pair (key_view pair.now.0) (view pair.now.1) more))) }
{
    if is_known(pair.0.bytes.as_slice()) {
        return Ok(());
    }
    keep(kept, pair)
}

/// Puts a copy of the pair at the end.
pub(crate) fn keep(kept: &mut Vec<(TnetKey, Tnet)>, pair: &(TnetKey, Tnet)) -> Result<(), NoMemory>
    ensures { OnOk result ((more : Pairs) → joined (pairs_view kept.new.items) more
        ≡ joined (pairs_view kept.old.items) (one_pair (key_view pair.now.0) (view pair.now.1) more)) }
{
    let key = pair.0.clone()?;
    kept.push((key, pair.1.clone()?))?;
    Ok(())
}

// Whether the table of a flow has the key.
fn is_known(name: &[u8]) -> bool
    ensures { result ≡ is_known name.now }
{
    name == b"version".as_slice()
        || (name == b"type".as_slice()
            || (name == b"id".as_slice()
                || (name == b"client_conn".as_slice()
                    || (name == b"server_conn".as_slice()
                        || (name == b"request".as_slice()
                            || (name == b"response".as_slice()
                                || (name == b"error".as_slice()
                                    || (name == b"is_replay".as_slice()
                                        || (name == b"marked".as_slice()
                                            || (name == b"websocket".as_slice()))))))))))
}
