//! Lines that are put behind the pairs of a dictionary.
ghost use Rattle.std.specs.Prelude.{◌≡◌, ◌<◌, ◌^◌, pos, OnOk};
ghost use Rattle.px_tnet.specs.Tree.{Pairs, blob, dict, int, pair as one_pair, text};
ghost use Rattle.px_tnet.specs.View.{key_view, pairs_view, view};
ghost use Rattle.px_flowfile.specs.Kind.{or_null};
ghost use Rattle.px_flowfile.specs.Simple as specs;
ghost use Rattle.px_flowfile.specs.Table.{text_key};
ghost use Rattle.px_flowfile.specs.Unknown.{joined};
ghost use Rattle.px_flowfile.specs.declared.key.Key.TheVariants as key;

use crate::Key;
use crate::key::name_of;
use px_message::Version;
use px_text::{Bytes, NoMemory};
use px_tnet::{Tnet, TnetDict, TnetKey};
use std::alloc::Global;

const LAST_MOMENT: u64 = 9_223_372_036_854_775_807;

/// The dictionary of these pairs.
pub(crate) fn dict_tree(pairs: Vec<(TnetKey, Tnet)>) -> Tnet
    ensures { view result ≡ dict (pairs_view pairs.items) }
{
    Tnet::Dict(TnetDict::new(pairs))
}

/// Puts the tree under the key.
pub(crate) fn put(
    alloc: Global,
    pairs: &mut Vec<(TnetKey, Tnet)>,
    key: Key,
    value: Tnet,
) -> Result<(), NoMemory>
    ensures { OnOk result ((more : Pairs) → joined (pairs_view pairs.new.items) more
        ≡ joined (pairs_view pairs.old.items) (one_pair (text_key key) (view value) more)) }
{
    match Bytes::copied(alloc, name_of(key)) {
        Ok(bytes) => push(pairs, TnetKey { text: true, bytes }, value),
        Err(NoMemory) => {
            drop(value);
            Err(NoMemory)
        }
    }
}

fn push(pairs: &mut Vec<(TnetKey, Tnet)>, key: TnetKey, value: Tnet) -> Result<(), NoMemory>
    ensures { OnOk result ((more : Pairs) → joined (pairs_view pairs.new.items) more
        ≡ joined (pairs_view pairs.old.items) (one_pair (key_view key) (view value) more)) }
{
    pairs.push((key, value))?;
    Ok(())
}

/// Puts bytes under the key.
pub(crate) fn put_blob(
    alloc: Global,
    pairs: &mut Vec<(TnetKey, Tnet)>,
    key: Key,
    bytes: &[u8],
) -> Result<(), NoMemory>
    ensures { OnOk result ((more : Pairs) → joined (pairs_view pairs.new.items) more
        ≡ joined (pairs_view pairs.old.items) (one_pair (text_key key) (blob bytes.now) more)) }
{
    put(alloc, pairs, key, Tnet::Blob(Bytes::copied(alloc, bytes)?))
}

/// Puts a text under the key.
pub(crate) fn put_text(
    alloc: Global,
    pairs: &mut Vec<(TnetKey, Tnet)>,
    key: Key,
    bytes: &[u8],
) -> Result<(), NoMemory>
    ensures { OnOk result ((more : Pairs) → joined (pairs_view pairs.new.items) more
        ≡ joined (pairs_view pairs.old.items) (one_pair (text_key key) (text bytes.now) more)) }
{
    put(alloc, pairs, key, Tnet::Text(Bytes::copied(alloc, bytes)?))
}

/// Puts a number under the key.
pub(crate) fn put_number(
    alloc: Global,
    pairs: &mut Vec<(TnetKey, Tnet)>,
    key: Key,
    number: u64,
) -> Result<(), NoMemory>
    requires { number < 2 ^ 63 }
    ensures { OnOk result ((more : Pairs) → joined (pairs_view pairs.new.items) more
        ≡ joined (pairs_view pairs.old.items) (one_pair (text_key key) (int (pos number)) more)) }
{
    put(alloc, pairs, key, Tnet::Int(number as i64))
}

/// Puts a moment under the key.
pub(crate) fn put_moment(
    alloc: Global,
    pairs: &mut Vec<(TnetKey, Tnet)>,
    key: Key,
    moment: u64,
) -> Result<(), NoMemory>
    ensures { OnOk result ((more : Pairs) → joined (pairs_view pairs.new.items) more
        ≡ joined (pairs_view pairs.old.items) (one_pair (text_key key) (specs.moment.write moment) more)) }
{
    put_number(alloc, pairs, key, moment.min(LAST_MOMENT))
}

/// Puts a moment under the key, or nothing.
pub(crate) fn put_optional_moment(
    alloc: Global,
    pairs: &mut Vec<(TnetKey, Tnet)>,
    key: Key,
    moment: Option<u64>,
) -> Result<(), NoMemory>
    ensures { OnOk result ((more : Pairs) → joined (pairs_view pairs.new.items) more
        ≡ joined (pairs_view pairs.old.items) (one_pair (text_key key) ((or_null specs.moment).write moment) more)) }
{
    match moment {
        Some(moment) => put_moment(alloc, pairs, key, moment),
        None => put(alloc, pairs, key, Tnet::Null),
    }
}

/// Puts the version of a message.
pub(crate) fn put_version(
    alloc: Global,
    pairs: &mut Vec<(TnetKey, Tnet)>,
    version: Version,
) -> Result<(), NoMemory>
    ensures { OnOk result ((more : Pairs) → joined (pairs_view pairs.new.items) more
        ≡ joined (pairs_view pairs.old.items) (one_pair (text_key key.HttpVersion) (specs.http_version.write version) more)) }
{
    put_blob(alloc, pairs, Key::HttpVersion, version_text(version))
}

fn version_text(version: Version) -> &'static [u8]
    ensures { result.now ≡ specs.version_text version }
{
    match version {
        Version::Http10 => b"HTTP/1.0",
        Version::Http11 => b"HTTP/1.1",
    }
}
