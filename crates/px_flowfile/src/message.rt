//! The kinds that requests and responses share: fields, trailers, bodies, and what stands in first lines.
ghost use Rattle.std.specs.Prelude.{◌≡◌, ◌⊎◌, IfOk, IfErr};
ghost use Rattle.px_message.specs.Host.{IsHost};
ghost use Rattle.px_tnet.specs.View.{paired, pairs_view, view};
ghost use Rattle.px_flowfile.specs.Message as specs;
ghost use Rattle.px_flowfile.specs.Simple.{bytes};
ghost use Rattle.px_flowfile.specs.Table.{ReadsAt, RefusesAt};
ghost use Rattle.px_flowfile.specs.declared.error.FlowFileError.TheVariants as error;
ghost use Rattle.px_flowfile.specs.declared.key.Key.TheVariants as key;

use crate::find::{blob_in, find};
use crate::held::Held;
use crate::{FlowFileError, Key};
use px_message::{BadHost, Body, Host, Name, Path, Value};
use px_text::Bytes;
use px_tnet::{Tnet, TnetDict};
use std::alloc::Global;

/// The body of a message.
pub(crate) fn content_at(dict: &TnetDict) -> Result<Held, FlowFileError>
    ensures ok { IfOk result (λ r. ReadsAt key.Content specs.content (pairs_view (paired dict.now)) r) }
    ensures err { IfErr result (λ e. (e ≡ error.NoMemory) ⊎ RefusesAt key.Content specs.content (pairs_view (paired dict.now)) e) }
{
    read_content(Key::Content, find(dict, Key::Content)?)
}

fn read_content(key: Key, tree: &Tnet) -> Result<Held, FlowFileError>
    ensures ok { IfOk result (λ r. specs.content.Reads (view tree.now) r) }
    ensures err { IfErr result (λ e. (e ≡ error.NoMemory) ⊎ specs.content.Refuses key (view tree.now) e) }
{
    match tree {
        Tnet::Null => Ok(Held {
            streamed: true,
            body: Body::empty(),
        }),
        Tnet::Blob(bytes) => Ok(Held {
            streamed: false,
            body: Body::from_bytes(bytes.try_clone()?),
        }),
        _ => Err(FlowFileError::WrongKind(key)),
    }
}

/// The method of a request.
pub(crate) fn method_at(dict: &TnetDict) -> Result<Name, FlowFileError>
    ensures ok { IfOk result (λ r. ReadsAt key.Method specs.method (pairs_view (paired dict.now)) r) }
    ensures err { IfErr result (λ e. (e ≡ error.NoMemory) ⊎ RefusesAt key.Method specs.method (pairs_view (paired dict.now)) e) }
{
    read_method(Key::Method, find(dict, Key::Method)?)
}

fn read_method(key: Key, tree: &Tnet) -> Result<Name, FlowFileError>
    ensures ok { IfOk result (λ r. specs.method.Reads (view tree.now) r) }
    ensures err { IfErr result (λ e. (e ≡ error.NoMemory) ⊎ specs.method.Refuses key (view tree.now) e) }
{
    let text = blob_in(key, tree)?;
    if text.as_slice() == b"CONNECT".as_slice() {
        return Err(FlowFileError::BadMessage(key));
    }
    match Name::from_bytes(text.try_clone()?) {
        Ok(method) => Ok(method),
        Err(_) => Err(FlowFileError::BadMessage(key)),
    }
}

/// The path of a request.
pub(crate) fn path_at(dict: &TnetDict) -> Result<Path, FlowFileError>
    ensures ok { IfOk result (λ r. ReadsAt key.Path specs.path (pairs_view (paired dict.now)) r) }
    ensures err { IfErr result (λ e. (e ≡ error.NoMemory) ⊎ RefusesAt key.Path specs.path (pairs_view (paired dict.now)) e) }
{
    read_path(Key::Path, find(dict, Key::Path)?)
}

fn read_path(key: Key, tree: &Tnet) -> Result<Path, FlowFileError>
    ensures ok { IfOk result (λ r. specs.path.Reads (view tree.now) r) }
    ensures err { IfErr result (λ e. (e ≡ error.NoMemory) ⊎ specs.path.Refuses key (view tree.now) e) }
{
    match Path::from_bytes(blob_in(key, tree)?.try_clone()?) {
        Ok(path) => Ok(path),
        Err(_) => Err(FlowFileError::BadMessage(key)),
    }
}

/// The reason of a response.
pub(crate) fn reason_at(dict: &TnetDict) -> Result<Value, FlowFileError>
    ensures ok { IfOk result (λ r. ReadsAt key.Reason specs.reason (pairs_view (paired dict.now)) r) }
    ensures err { IfErr result (λ e. (e ≡ error.NoMemory) ⊎ RefusesAt key.Reason specs.reason (pairs_view (paired dict.now)) e) }
{
    read_reason(Key::Reason, find(dict, Key::Reason)?)
}

fn read_reason(key: Key, tree: &Tnet) -> Result<Value, FlowFileError>
    ensures ok { IfOk result (λ r. specs.reason.Reads (view tree.now) r) }
    ensures err { IfErr result (λ e. (e ≡ error.NoMemory) ⊎ specs.reason.Refuses key (view tree.now) e) }
{
    match Value::from_bytes(blob_in(key, tree)?.try_clone()?) {
        Ok(reason) => Ok(reason),
        Err(_) => Err(FlowFileError::BadMessage(key)),
    }
}

/// The host of a request.
pub(crate) fn host_at(alloc: Global, dict: &TnetDict) -> Result<Host, FlowFileError>
    ensures ok { IfOk result (λ r. ReadsAt key.Host specs.host (pairs_view (paired dict.now)) r) }
    ensures err { IfErr result (λ e. (e ≡ error.NoMemory) ⊎ RefusesAt key.Host specs.host (pairs_view (paired dict.now)) e) }
{
    read_host(alloc, Key::Host, find(dict, Key::Host)?)
}

fn read_host(alloc: Global, key: Key, tree: &Tnet) -> Result<Host, FlowFileError>
    ensures ok { IfOk result (λ r. specs.host.Reads (view tree.now) r) }
    ensures err { IfErr result (λ e. (e ≡ error.NoMemory) ⊎ specs.host.Refuses key (view tree.now) e) }
{
    host_of(alloc, key, blob_in(key, tree)?)
}

/// The host of these bytes.
pub(crate) fn host_of(alloc: Global, key: Key, bytes: &Bytes) -> Result<Host, FlowFileError>
    ensures ok { IfOk result (λ h. (h ≡ bytes.now) × IsHost bytes.now) }
    ensures err { IfErr result (λ e. (e ≡ error.NoMemory) ⊎ ((e ≡ error.BadMessage key) × (¬ (IsHost bytes.now)))) }
{
    match Host::try_new(alloc, bytes.try_clone()?.into_vec(alloc)?) {
        Ok(host) => Ok(host),
        Err(BadHost::Malformed(_)) => Err(FlowFileError::BadMessage(key)),
        Err(BadHost::NoMemory) => Err(FlowFileError::NoMemory),
    }
}

/// The bytes under the key.
pub(crate) fn bytes_at(dict: &TnetDict, key: Key) -> Result<Bytes, FlowFileError>
    ensures ok { IfOk result (λ r. ReadsAt key bytes (pairs_view (paired dict.now)) r) }
    ensures err { IfErr result (λ e. (e ≡ error.NoMemory) ⊎ RefusesAt key bytes (pairs_view (paired dict.now)) e) }
{
    read_bytes(key, find(dict, key)?)
}

fn read_bytes(key: Key, tree: &Tnet) -> Result<Bytes, FlowFileError>
    ensures ok { IfOk result (λ r. bytes.Reads (view tree.now) r) }
    ensures err { IfErr result (λ e. (e ≡ error.NoMemory) ⊎ bytes.Refuses key (view tree.now) e) }
{
    Ok(blob_in(key, tree)?.try_clone()?)
}
