//! The index of the recorded list: where each key stands.
ghost use Rattle.std.specs.Prelude.{◌≡◌, OnOk, IfOk};
ghost use Rattle.px_replay.specs.Left.{Adds, Gives, GivesUnless, IsIndex, places_from};
ghost use Rattle.px_replay.specs.Same.{is_same_key};

use crate::MatchKey;
use crate::places::Places;
use crate::recorded::Recording;
use px_text::NoMemory;
use std::alloc::Global;
use std::collections::BTreeMap;

/// The index of a list: the places of each key, in rising order.
pub fn index_of(
    alloc: Global,
    recordings: &[Recording],
) -> Result<BTreeMap<MatchKey, Places>, NoMemory>
    ensures index { IfOk result (λ made. IsIndex ⟦<MatchKey as Ord>⟧.cmp made (λ key. places_from 0 (λ r. is_same_key r.key key) recordings.now)) }
{
    let mut index = BTreeMap::new(alloc);
    for place in 0..recordings.len() {
        add(alloc, &mut index, &recordings[place].key, place)?;
    }
    Ok(index)
}

// Adds the place behind those of its key, which is sought once.
fn add(
    alloc: Global,
    index: &mut BTreeMap<MatchKey, Places>,
    key: &MatchKey,
    place: usize,
) -> Result<(), NoMemory>
    ensures adds { OnOk result (Adds ⟦<MatchKey as Ord>⟧.cmp key.now place index.old index.new) }
{
    let places = index
        .entry(key.try_clone()?)?
        .or_insert(Places::none(alloc));
    places.push(place)?;
    Ok(())
}

/// The first place that is left of a key is given, unless places are given again. It takes no memory.
pub fn give_unless(reuse: bool, index: &mut BTreeMap<MatchKey, Places>, key: &MatchKey)
    ensures given { GivesUnless ⟦<MatchKey as Ord>⟧.cmp reuse key.now index.old index.new }
{
    if !reuse {
        give_first(index, key);
    }
}

// The first place that is left of a key is given.
fn give_first(index: &mut BTreeMap<MatchKey, Places>, key: &MatchKey)
    ensures gives { Gives ⟦<MatchKey as Ord>⟧.cmp key.now index.old index.new }
{
    if let Some(places) = index.get_mut(key) {
        places.give_first();
    }
}
