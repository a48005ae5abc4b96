//! The lines that requests and responses share.
ghost use Rattle.std.specs.Prelude.{◌≡◌, ◌∷◌, ◌++◌, [], IfOk, OnOk};
ghost use Rattle.px_tnet.specs.Tree.{Pairs, list, no_tree, pair as one_pair, tree as node};
ghost use Rattle.px_tnet.specs.View.{pairs_view, trees_view, view};
ghost use Rattle.px_tnet.specs.declared.tree.Tnet.{Tnet};
ghost use Rattle.px_flowfile.specs.Message as specs;
ghost use Rattle.px_flowfile.specs.Table.{text_key};
ghost use Rattle.px_flowfile.specs.Unknown.{joined};
ghost use Rattle.px_flowfile.specs.declared.key.Key.TheVariants as key;

use crate::Key;
use crate::put::{put, put_blob};
use px_message::{Body, Fields};
use px_text::{Bytes, NoMemory};
use px_tnet::{Tnet, TnetKey, TnetList};
use std::alloc::Global;

/// Puts the body of a message, or nothing where it passed by.
pub(crate) fn put_content(
    alloc: Global,
    pairs: &mut Vec<(TnetKey, Tnet)>,
    streamed: bool,
    body: &Body,
) -> Result<(), NoMemory>
    ensures { OnOk result ((more : Pairs) → joined (pairs_view pairs.new.items) more
        ≡ joined (pairs_view pairs.old.items)
        (one_pair (text_key key.Content) (specs.content.write (record { streamed = streamed; body = body.now })) more)) }
{
    if streamed {
        put(alloc, pairs, Key::Content, Tnet::Null)
    } else {
        put_blob(alloc, pairs, Key::Content, body.bytes())
    }
}

/// Puts the fields of a head.
pub(crate) fn put_headers(
    alloc: Global,
    pairs: &mut Vec<(TnetKey, Tnet)>,
    fields: &Fields,
) -> Result<(), NoMemory>
    ensures { OnOk result ((more : Pairs) → joined (pairs_view pairs.new.items) more
        ≡ joined (pairs_view pairs.old.items) (one_pair (text_key key.Headers) (specs.headers.write fields.now) more)) }
{
    put(alloc, pairs, Key::Headers, fields_tree(alloc, fields)?)
}

/// Puts the trailers of a message, or nothing where there are none.
pub(crate) fn put_trailers(
    alloc: Global,
    pairs: &mut Vec<(TnetKey, Tnet)>,
    fields: &Fields,
) -> Result<(), NoMemory>
    ensures { OnOk result ((more : Pairs) → joined (pairs_view pairs.new.items) more
        ≡ joined (pairs_view pairs.old.items) (one_pair (text_key key.Trailers) (specs.trailers.write fields.now) more)) }
{
    put(alloc, pairs, Key::Trailers, trailers_tree(alloc, fields)?)
}

fn trailers_tree(alloc: Global, fields: &Fields) -> Result<Tnet, NoMemory>
    ensures { IfOk result (λ t. view t ≡ specs.trailers.write fields.now) }
{
    if fields.is_empty() {
        return Ok(Tnet::Null);
    }
    fields_tree(alloc, fields)
}

fn fields_tree(alloc: Global, fields: &Fields) -> Result<Tnet, NoMemory>
    ensures { IfOk result (λ t. view t ≡ specs.headers.write fields.now) }
{
    Ok(Tnet::List(TnetList::new(field_trees(alloc, fields)?)))
}

fn field_trees(alloc: Global, fields: &Fields) -> Result<Vec<Tnet>, NoMemory>
    ensures { IfOk result (λ trees. trees_view trees.items ≡ specs.row_of specs.field fields.now) }
{
    let mut trees = Vec::new(alloc);
    let mut i = 0;
    while i < fields.len() {
        let (name, value) = fields.pair(i);
        push_field(alloc, &mut trees, name.bytes(), value.bytes())?;
        i += 1;
    }
    Ok(trees)
}

// Puts the tree of a field at the end.
fn push_field(
    alloc: Global,
    trees: &mut Vec<Tnet>,
    name: &[u8],
    value: &[u8],
) -> Result<(), NoMemory>
    ensures { OnOk result ((t : Tnet) × (view t ≡ specs.field_tree (name.now, value.now)) × (trees.new.items ≡ trees.old.items ++ t ∷ [])) }
{
    trees.push(field_tree(alloc, name, value)?)?;
    Ok(())
}

fn field_tree(alloc: Global, name: &[u8], value: &[u8]) -> Result<Tnet, NoMemory>
    ensures { IfOk result (λ t. view t ≡ specs.field_tree (name.now, value.now)) }
{
    let name = Bytes::copied(alloc, name)?;
    let value = Bytes::copied(alloc, value)?;
    two_trees(alloc, Tnet::Blob(name), Tnet::Blob(value))
}

/// The list of two trees.
pub(crate) fn two_trees(alloc: Global, first: Tnet, second: Tnet) -> Result<Tnet, NoMemory>
    ensures { IfOk result (λ t. view t ≡ list (node (view first) (node (view second) no_tree))) }
{
    let mut items = Vec::new(alloc);
    items.push(first)?;
    items.push(second)?;
    Ok(Tnet::List(TnetList::new(items)))
}
