//! What stands under a key, and of which kind it is.
ghost use Rattle.std.specs.Prelude.{◌≡◌, None, Some, List, ℕ, ℤ, Bool, IfOk, IfErr, MatchOption};
ghost use Rattle.px_tnet.specs.Tree.{Pairs, Tree, Trees, blob, bool, dict, int, list, no_tree, text, tree as node};
ghost use Rattle.px_tnet.specs.View.{listed, paired, pairs_view, trees_view, view};
ghost use Rattle.px_flowfile.specs.Keys.{name_of};
ghost use Rattle.px_flowfile.specs.Table.{lookup};
ghost use Rattle.px_flowfile.specs.declared.error.FlowFileError.TheVariants as error;

use crate::key::name_of;
use crate::{FlowFileError, Key};
use px_text::Bytes;
use px_tnet::{Tnet, TnetDict, TnetList};

/// What stands under the key.
pub(crate) fn find<'a>(dict: &'a TnetDict, key: Key) -> Result<&'a Tnet, FlowFileError>
    ensures ok { IfOk result (λ t. lookup (name_of key) (pairs_view (paired dict.now)) ≡ Some (view t.now)) }
    ensures err { IfErr result (λ e. (e ≡ error.MissingKey key) × (lookup (name_of key) (pairs_view (paired dict.now)) ≡ None)) }
{
    match find_named(dict, name_of(key)) {
        Some(tree) => Ok(tree),
        None => Err(FlowFileError::MissingKey(key)),
    }
}

fn find_named<'a>(dict: &'a TnetDict, name: &[u8]) -> Option<&'a Tnet>
    ensures { MatchOption result (lookup name.now (pairs_view (paired dict.now)) ≡ None)
        (λ t. lookup name.now (pairs_view (paired dict.now)) ≡ Some (view t.now)) }
{
    let mut rest = dict.as_slice();
    while let Some((first, others)) = rest.split_first() {
        if first.0.bytes.as_slice() == name {
            return Some(&first.1);
        }
        rest = others;
    }
    None
}

/// The bytes.
pub(crate) fn blob_in<'a>(key: Key, tree: &'a Tnet) -> Result<&'a Bytes, FlowFileError>
    ensures ok { IfOk result (λ b. view tree.now ≡ blob b.now) }
    ensures err { IfErr result (λ e. (e ≡ error.WrongKind key) × ((b : List ℕ) → ¬ (view tree.now ≡ blob b))) }
{
    match tree {
        Tnet::Blob(bytes) => Ok(bytes),
        _ => Err(FlowFileError::WrongKind(key)),
    }
}

/// The text.
pub(crate) fn text_in<'a>(key: Key, tree: &'a Tnet) -> Result<&'a Bytes, FlowFileError>
    ensures ok { IfOk result (λ b. view tree.now ≡ text b.now) }
    ensures err { IfErr result (λ e. (e ≡ error.WrongKind key) × ((b : List ℕ) → ¬ (view tree.now ≡ text b))) }
{
    match tree {
        Tnet::Text(bytes) => Ok(bytes),
        _ => Err(FlowFileError::WrongKind(key)),
    }
}

/// The number.
pub(crate) fn int_in(key: Key, tree: &Tnet) -> Result<i64, FlowFileError>
    ensures ok { IfOk result (λ n. view tree.now ≡ int n) }
    ensures err { IfErr result (λ e. (e ≡ error.WrongKind key) × ((n : ℤ) → ¬ (view tree.now ≡ int n))) }
{
    match tree {
        Tnet::Int(n) => Ok(*n),
        _ => Err(FlowFileError::WrongKind(key)),
    }
}

/// The truth.
pub(crate) fn bool_in(key: Key, tree: &Tnet) -> Result<bool, FlowFileError>
    ensures ok { IfOk result (λ b. view tree.now ≡ bool b) }
    ensures err { IfErr result (λ e. (e ≡ error.WrongKind key) × ((b : Bool) → ¬ (view tree.now ≡ bool b))) }
{
    match tree {
        Tnet::Bool(b) => Ok(*b),
        _ => Err(FlowFileError::WrongKind(key)),
    }
}

/// The trees of the list.
pub(crate) fn list_in<'a>(key: Key, tree: &'a Tnet) -> Result<&'a TnetList, FlowFileError>
    ensures ok { IfOk result (λ l. view tree.now ≡ list (trees_view (listed l.now))) }
    ensures err { IfErr result (λ e. (e ≡ error.WrongKind key) × ((trees : Trees) → ¬ (view tree.now ≡ list trees))) }
{
    match tree {
        Tnet::List(trees) => Ok(trees),
        _ => Err(FlowFileError::WrongKind(key)),
    }
}

/// The two trees of a list of two.
pub(crate) fn two_in<'a>(key: Key, tree: &'a Tnet) -> Result<(&'a Tnet, &'a Tnet), FlowFileError>
    ensures ok { IfOk result (λ r. view tree.now ≡ list (node (view r.0.now) (node (view r.1.now) no_tree))) }
    ensures err { IfErr result (λ e. (e ≡ error.WrongKind key)
        × ((a b : Tree) → ¬ (view tree.now ≡ list (node a (node b no_tree))))) }
{
    let items = list_in(key, tree)?.as_slice();
    if items.len() != 2 {
        return Err(FlowFileError::WrongKind(key));
    }
    Ok((&items[0], &items[1]))
}

/// The pairs of the dictionary.
pub(crate) fn dict_in<'a>(key: Key, tree: &'a Tnet) -> Result<&'a TnetDict, FlowFileError>
    ensures ok { IfOk result (λ d. view tree.now ≡ dict (pairs_view (paired d.now))) }
    ensures err { IfErr result (λ e. (e ≡ error.WrongKind key) × ((pairs : Pairs) → ¬ (view tree.now ≡ dict pairs))) }
{
    match tree {
        Tnet::Dict(pairs) => Ok(pairs),
        _ => Err(FlowFileError::WrongKind(key)),
    }
}
