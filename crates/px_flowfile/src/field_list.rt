//! Lists of fields: heads and trailers.
ghost use Rattle.std.specs.Prelude.{◌≡◌, ◌⊎◌, ◌∷◌, ◌++◌, List, [], ℕ, IfOk, IfErr, OnOk, true, false};
ghost use Rattle.httparse.specs.Grammar.{is_token};
ghost use Rattle.px_message.specs.Value.{is_value};
ghost use Rattle.px_tnet.specs.View.{paired, pairs_view, trees_view, view};
ghost use Rattle.px_flowfile.specs.Message as specs;
ghost use Rattle.px_flowfile.specs.Table.{ReadsAt, RefusesAt};
ghost use Rattle.px_flowfile.specs.declared.error.FlowFileError.TheVariants as error;
ghost use Rattle.px_flowfile.specs.declared.key.Key.TheVariants as key;

use crate::find::{blob_in, find, list_in, two_in};
use crate::{FlowFileError, Key};
use px_message::{Fields, Name, Value};
use px_text::Bytes;
use px_tnet::{Tnet, TnetDict};
use std::alloc::Global;

/// The fields of a head.
pub(crate) fn headers_at(alloc: Global, dict: &TnetDict) -> Result<Fields, FlowFileError>
    ensures ok { IfOk result (λ r. ReadsAt key.Headers specs.headers (pairs_view (paired dict.now)) r) }
    ensures err { IfErr result (λ e. (e ≡ error.NoMemory) ⊎ RefusesAt key.Headers specs.headers (pairs_view (paired dict.now)) e) }
{
    read_headers(alloc, Key::Headers, find(dict, Key::Headers)?)
}

/// The trailers of a message.
pub(crate) fn trailers_at(alloc: Global, dict: &TnetDict) -> Result<Fields, FlowFileError>
    ensures ok { IfOk result (λ r. ReadsAt key.Trailers specs.trailers (pairs_view (paired dict.now)) r) }
    ensures err { IfErr result (λ e. (e ≡ error.NoMemory) ⊎ RefusesAt key.Trailers specs.trailers (pairs_view (paired dict.now)) e) }
{
    read_trailers(alloc, Key::Trailers, find(dict, Key::Trailers)?)
}

fn read_trailers(alloc: Global, key: Key, tree: &Tnet) -> Result<Fields, FlowFileError>
    ensures ok { IfOk result (λ r. specs.trailers.Reads (view tree.now) r) }
    ensures err { IfErr result (λ e. (e ≡ error.NoMemory) ⊎ specs.trailers.Refuses key (view tree.now) e) }
{
    match tree {
        Tnet::Null => Ok(Fields::new(alloc)),
        tree => read_headers(alloc, key, tree),
    }
}

fn read_headers(alloc: Global, key: Key, tree: &Tnet) -> Result<Fields, FlowFileError>
    ensures ok { IfOk result (λ r. specs.headers.Reads (view tree.now) r) }
    ensures err { IfErr result (λ e. (e ≡ error.NoMemory) ⊎ specs.headers.Refuses key (view tree.now) e) }
{
    read_fields(alloc, key, list_in(key, tree)?.as_slice())
}

fn read_fields(alloc: Global, key: Key, trees: &[Tnet]) -> Result<Fields, FlowFileError>
    ensures ok { IfOk result (λ r. specs.AreRead specs.field (trees_view trees.now) r) }
    ensures err { IfErr result (λ e. (e ≡ error.NoMemory) ⊎ specs.FirstIsRefused specs.field key (trees_view trees.now) e) }
{
    let mut fields = Fields::new(alloc);
    let mut rest = trees;
    while let Some((tree, others)) = rest.split_first() {
        add_field(&mut fields, key, tree)?;
        rest = others;
    }
    Ok(fields)
}

// Puts the field that the tree is at the end.
fn add_field(fields: &mut Fields, key: Key, tree: &Tnet) -> Result<(), FlowFileError>
    ensures ok { OnOk result ((f : List ℕ × List ℕ) × specs.field.Reads (view tree.now) f × (fields.new ≡ fields.old ++ f ∷ [])) }
    ensures err { IfErr result (λ e. (e ≡ error.NoMemory) ⊎ specs.field.Refuses key (view tree.now) e) }
{
    let (name, value) = read_field(key, tree)?;
    fields.add(name, value)?;
    Ok(())
}

fn read_field(key: Key, tree: &Tnet) -> Result<(Name, Value), FlowFileError>
    ensures ok { IfOk result (λ f. specs.field.Reads (view tree.now) f) }
    ensures err { IfErr result (λ e. (e ≡ error.NoMemory) ⊎ specs.field.Refuses key (view tree.now) e) }
{
    let (name, value) = two_blobs(key, tree)?;
    match (name_of(key, name), value_of(key, value)) {
        (Ok(name), Ok(value)) => Ok((name, value)),
        (Ok(_), Err(e)) => Err(e),
        (Err(e), _) => Err(e),
    }
}

fn name_of(key: Key, bytes: &Bytes) -> Result<Name, FlowFileError>
    ensures ok { IfOk result (λ n. (n ≡ bytes.now) × (is_token bytes.now ≡ true)) }
    ensures err { IfErr result (λ e. (e ≡ error.NoMemory) ⊎ ((e ≡ error.BadMessage key) × (is_token bytes.now ≡ false))) }
{
    match Name::from_bytes(bytes.try_clone()?) {
        Ok(name) => Ok(name),
        Err(_) => Err(FlowFileError::BadMessage(key)),
    }
}

fn value_of(key: Key, bytes: &Bytes) -> Result<Value, FlowFileError>
    ensures ok { IfOk result (λ v. (v ≡ bytes.now) × (is_value bytes.now ≡ true)) }
    ensures err { IfErr result (λ e. (e ≡ error.NoMemory) ⊎ ((e ≡ error.BadMessage key) × (is_value bytes.now ≡ false))) }
{
    match Value::from_bytes(bytes.try_clone()?) {
        Ok(value) => Ok(value),
        Err(_) => Err(FlowFileError::BadMessage(key)),
    }
}

fn two_blobs<'a>(key: Key, tree: &'a Tnet) -> Result<(&'a Bytes, &'a Bytes), FlowFileError>
    ensures ok { IfOk result (λ r. view tree.now ≡ specs.field_tree (r.0.now, r.1.now)) }
    ensures err { IfErr result (λ e. (e ≡ error.WrongKind key) × ((f : List ℕ × List ℕ) → ¬ (view tree.now ≡ specs.field_tree f))) }
{
    let (first, second) = two_in(key, tree)?;
    Ok((blob_in(key, first)?, blob_in(key, second)?))
}
