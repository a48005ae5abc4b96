//! The pairs of a flow's dictionary that no table has.
ghost use Rattle.px_tnet.specs.View.{pairs_view};
ghost use Rattle.px_flowfile.specs.Props.{others_prop};
ghost use Rattle.px_flowfile.specs.Unknown.{AreOthers};

use px_tnet::{Tnet, TnetKey};

/// The pairs of a flow's dictionary whose keys no table has, in the order in which they were read, each key as the bytes or the text that
/// it was.
#[derive(Debug, Drop)]
pub struct Others {
    pub(crate) pairs: Vec<(TnetKey, Tnet)>,
    ghost are_others: { AreOthers (pairs_view pairs.items) } by { others_prop (pairs_view pairs.items) },
}
