//! Keys and trees in turn.
ghost use Rattle.std.specs.Prelude.{◌≡◌, ◌⊎◌, ◌↔◌, IfOk, IfErr, IsTrue, MatchOption};
ghost use Rattle.px_tnet.specs.Kinds.{AreApart};
ghost use Rattle.px_tnet.specs.Tree.{Key, Pairs, dict, in_turn, key_tree, keys};
ghost use Rattle.px_tnet.specs.View.{key_view, pairs_view, trees_view, view};
ghost use Rattle.px_tnet.specs.declared.error.TnetError.TheVariants as error;

use crate::{Tnet, TnetDict, TnetError, TnetKey};
use px_text::NoMemory;
use std::alloc::Global;
use std::collections::BTreeSet;

/// The dictionary whose keys and trees these are in turn.
pub fn dict_of(alloc: Global, items: Vec<Tnet>) -> Result<Tnet, TnetError>
    ensures ok { IfOk result (λ t. (pairs : Pairs) × (trees_view items.items ≡ in_turn pairs) × AreApart (keys pairs)
        × (view t ≡ dict pairs)) }
    ensures err { IfErr result (λ e. (e ≡ error.NoMemory)
        ⊎ ((e ≡ error.BadPayload) × ((pairs : Pairs) → ¬ (trees_view items.items ≡ in_turn pairs)))
        ⊎ ((pairs : Pairs) × (trees_view items.items ≡ in_turn pairs) × (e ≡ error.DuplicateKey) × (¬ (AreApart (keys pairs))))) }
{
    let Some(pairs) = pairs_of(alloc, items)? else {
        return Err(TnetError::BadPayload);
    };
    if !are_apart(alloc, pairs.as_slice())? {
        return Err(TnetError::DuplicateKey);
    }
    Ok(Tnet::Dict(TnetDict::new(pairs)))
}

// None where a key is no blob and no text, or where a tree is missing behind the last key.
fn pairs_of(alloc: Global, items: Vec<Tnet>) -> Result<Option<Vec<(TnetKey, Tnet)>>, NoMemory>
    ensures { IfOk result (λ r. MatchOption r ((pairs : Pairs) → ¬ (trees_view items.items ≡ in_turn pairs))
        (λ pairs. trees_view items.items ≡ in_turn (pairs_view pairs.items))) }
{
    let mut pairs = Vec::new(alloc);
    let mut rest = items.into_iter();
    while let Some(key) = rest.next() {
        let Some(key) = key_of(key) else {
            return Ok(None);
        };
        let Some(value) = rest.next() else {
            return Ok(None);
        };
        pairs.push((key, value))?;
    }
    Ok(Some(pairs))
}

fn key_of(item: Tnet) -> Option<TnetKey>
    ensures { MatchOption result ((key : Key) → ¬ (view item ≡ key_tree key)) (λ key. view item ≡ key_tree (key_view key)) }
{
    match item {
        Tnet::Blob(bytes) => Some(TnetKey { text: false, bytes }),
        Tnet::Text(bytes) => Some(TnetKey { text: true, bytes }),
        _ => None,
    }
}

// Whether no two keys have equal bytes. Each is looked up among those before it.
fn are_apart(alloc: Global, pairs: &[(TnetKey, Tnet)]) -> Result<bool, NoMemory>
    ensures { IfOk result (λ apart. IsTrue apart ↔ AreApart (keys (pairs_view pairs.now))) }
{
    let mut seen = BTreeSet::new(alloc);
    for (key, _) in pairs {
        if !seen.insert(key.bytes.as_slice())? {
            return Ok(false);
        }
    }
    Ok(true)
}
