//! The kinds that hold one value: numbers, texts and moments.
ghost use Rattle.std.specs.Prelude.{◌≡◌, ◌⊎◌, ◌<◌, ◌^◌, ℕ, ℤ, pos, codes, IfOk, IfErr, MatchOption, true};
ghost use Rattle.px_tnet.specs.Tree.{null};
ghost use Rattle.px_tnet.specs.View.{paired, pairs_view, view};
ghost use Rattle.px_flowfile.specs.Kind.{or_null};
ghost use Rattle.px_flowfile.specs.Simple as specs;
ghost use Rattle.px_flowfile.specs.Table.{ReadsAt, RefusesAt};
ghost use Rattle.px_flowfile.specs.declared.error.FlowFileError.TheVariants as error;
ghost use Rattle.px_flowfile.specs.declared.form.Form.{Form};
ghost use Rattle.px_flowfile.specs.declared.key.Key.TheVariants as key;
ghost use Rattle.px_message.specs.Status.{is_status};

use crate::find::{blob_in, bool_in, find, int_in, text_in};
use crate::form::Form;
use crate::id::read_id;
use crate::{FlowFileError, Key};
use px_message::{FlowId, Replayed, Status, Version};
use px_tnet::{Tnet, TnetDict};

// The number, where it is not negative.
fn natural(n: i64) -> Option<u64>
    ensures { MatchOption result ((m : ℕ) → ¬ (n ≡ pos m)) (λ m. (n ≡ pos m) × (m < 2 ^ 63)) }
{
    if n < 0 { None } else { Some(n as u64) }
}

/// The moment under the key.
pub(crate) fn moment_at(dict: &TnetDict, key: Key) -> Result<u64, FlowFileError>
    ensures ok { IfOk result (λ r. ReadsAt key specs.moment (pairs_view (paired dict.now)) r) }
    ensures err { IfErr result (λ e. (e ≡ error.NoMemory) ⊎ RefusesAt key specs.moment (pairs_view (paired dict.now)) e) }
{
    read_moment(key, find(dict, key)?)
}

fn read_moment(key: Key, tree: &Tnet) -> Result<u64, FlowFileError>
    ensures ok { IfOk result (λ r. specs.moment.Reads (view tree.now) r) }
    ensures err { IfErr result (λ e. (e ≡ error.NoMemory) ⊎ specs.moment.Refuses key (view tree.now) e) }
{
    match natural(int_in(key, tree)?) {
        Some(moment) => Ok(moment),
        None => Err(FlowFileError::BadMessage(key)),
    }
}

/// The moment under the key, or nothing.
pub(crate) fn optional_moment_at(dict: &TnetDict, key: Key) -> Result<Option<u64>, FlowFileError>
    ensures ok { IfOk result (λ r. ReadsAt key (or_null specs.moment) (pairs_view (paired dict.now)) r) }
    ensures err { IfErr result (λ e. (e ≡ error.NoMemory) ⊎ RefusesAt key (or_null specs.moment) (pairs_view (paired dict.now)) e) }
{
    read_optional_moment(key, find(dict, key)?)
}

fn read_optional_moment(key: Key, tree: &Tnet) -> Result<Option<u64>, FlowFileError>
    ensures ok { IfOk result (λ r. (or_null specs.moment).Reads (view tree.now) r) }
    ensures err { IfErr result (λ e. (e ≡ error.NoMemory) ⊎ (or_null specs.moment).Refuses key (view tree.now) e) }
{
    match tree {
        Tnet::Null => Ok(None),
        tree => Ok(Some(read_moment(key, tree)?)),
    }
}

/// The truth under the key.
pub(crate) fn truth_at(dict: &TnetDict, key: Key) -> Result<bool, FlowFileError>
    ensures ok { IfOk result (λ r. ReadsAt key specs.truth (pairs_view (paired dict.now)) r) }
    ensures err { IfErr result (λ e. (e ≡ error.NoMemory) ⊎ RefusesAt key specs.truth (pairs_view (paired dict.now)) e) }
{
    bool_in(key, find(dict, key)?)
}

/// The version of a message.
pub(crate) fn version_at(dict: &TnetDict) -> Result<Version, FlowFileError>
    ensures ok { IfOk result (λ r. ReadsAt key.HttpVersion specs.http_version (pairs_view (paired dict.now)) r) }
    ensures err { IfErr result (λ e. (e ≡ error.NoMemory) ⊎ RefusesAt key.HttpVersion specs.http_version (pairs_view (paired dict.now)) e) }
{
    read_version(Key::HttpVersion, find(dict, Key::HttpVersion)?)
}

fn read_version(key: Key, tree: &Tnet) -> Result<Version, FlowFileError>
    ensures ok { IfOk result (λ r. specs.http_version.Reads (view tree.now) r) }
    ensures err { IfErr result (λ e. (e ≡ error.NoMemory) ⊎ specs.http_version.Refuses key (view tree.now) e) }
{
    let text = blob_in(key, tree)?.as_slice();
    if text == b"HTTP/1.0".as_slice() {
        return Ok(Version::Http10);
    }
    if text == b"HTTP/1.1".as_slice() {
        return Ok(Version::Http11);
    }
    Err(FlowFileError::BadMessage(key))
}

/// The status of a response.
pub(crate) fn status_at(dict: &TnetDict) -> Result<Status, FlowFileError>
    ensures ok { IfOk result (λ r. ReadsAt key.StatusCode specs.status (pairs_view (paired dict.now)) r) }
    ensures err { IfErr result (λ e. (e ≡ error.NoMemory) ⊎ RefusesAt key.StatusCode specs.status (pairs_view (paired dict.now)) e) }
{
    read_status(Key::StatusCode, find(dict, Key::StatusCode)?)
}

fn read_status(key: Key, tree: &Tnet) -> Result<Status, FlowFileError>
    ensures ok { IfOk result (λ r. specs.status.Reads (view tree.now) r) }
    ensures err { IfErr result (λ e. (e ≡ error.NoMemory) ⊎ specs.status.Refuses key (view tree.now) e) }
{
    match status_of(int_in(key, tree)?) {
        Some(status) => Ok(status),
        None => Err(FlowFileError::BadMessage(key)),
    }
}

// The status of that number.
fn status_of(n: i64) -> Option<Status>
    ensures { MatchOption result ((s : ℕ) → is_status s ≡ true → ¬ (n ≡ pos s)) (λ s. (n ≡ pos s) × (is_status s ≡ true)) }
{
    if n < 101 || 999 < n {
        return None;
    }
    Status::try_new(n as u16)
}

/// The port of a request.
pub(crate) fn port_at(dict: &TnetDict) -> Result<u16, FlowFileError>
    ensures ok { IfOk result (λ r. ReadsAt key.Port specs.port (pairs_view (paired dict.now)) r) }
    ensures err { IfErr result (λ e. (e ≡ error.NoMemory) ⊎ RefusesAt key.Port specs.port (pairs_view (paired dict.now)) e) }
{
    read_port(Key::Port, find(dict, Key::Port)?)
}

/// The port that the tree is.
pub(crate) fn read_port(key: Key, tree: &Tnet) -> Result<u16, FlowFileError>
    ensures ok { IfOk result (λ r. specs.port.Reads (view tree.now) r) }
    ensures err { IfErr result (λ e. (e ≡ error.NoMemory) ⊎ specs.port.Refuses key (view tree.now) e) }
{
    match port_of(int_in(key, tree)?) {
        Some(port) => Ok(port),
        None => Err(FlowFileError::BadMessage(key)),
    }
}

// The port of that number.
fn port_of(n: i64) -> Option<u16>
    ensures { MatchOption result ((p : ℕ) → specs.IsPort p → ¬ (n ≡ pos p)) (λ p. (n ≡ pos p) × specs.IsPort p) }
{
    if n < 1 || 65535 < n {
        None
    } else {
        Some(n as u16)
    }
}

/// The form of the dictionary.
pub(crate) fn form_at(dict: &TnetDict) -> Result<Form, FlowFileError>
    ensures ok { IfOk result (λ r. ReadsAt key.Version specs.form (pairs_view (paired dict.now)) r) }
    ensures err { IfErr result (λ e. (e ≡ error.NoMemory) ⊎ RefusesAt key.Version specs.form (pairs_view (paired dict.now)) e) }
{
    read_form(Key::Version, find(dict, Key::Version)?)
}

fn read_form(key: Key, tree: &Tnet) -> Result<Form, FlowFileError>
    ensures ok { IfOk result (λ r. specs.form.Reads (view tree.now) r) }
    ensures err { IfErr result (λ e. (e ≡ error.NoMemory) ⊎ specs.form.Refuses key (view tree.now) e) }
{
    let version = int_in(key, tree)?;
    match form_of(version) {
        Some(form) => Ok(form),
        None => Err(FlowFileError::OtherVersion(version)),
    }
}

// The form of that number.
fn form_of(version: i64) -> Option<Form>
    ensures { MatchOption result ((f : Form) → ¬ (version ≡ specs.form_number f)) (λ f. version ≡ specs.form_number f) }
{
    match version {
        1 => Some(Form::First),
        2 => Some(Form::Second),
        _ => None,
    }
}

/// The type of the flow, which is `http`.
pub(crate) fn type_at(dict: &TnetDict) -> Result<(), FlowFileError>
    ensures ok { IfOk result (λ _. ReadsAt key.Type (specs.word (codes "http")) (pairs_view (paired dict.now)) tt) }
    ensures err { IfErr result (λ e. (e ≡ error.NoMemory) ⊎ RefusesAt key.Type (specs.word (codes "http")) (pairs_view (paired dict.now)) e) }
{
    read_type(Key::Type, find(dict, Key::Type)?)
}

fn read_type(key: Key, tree: &Tnet) -> Result<(), FlowFileError>
    ensures ok { IfOk result (λ _. (specs.word (codes "http")).Reads (view tree.now) tt) }
    ensures err { IfErr result (λ e. (e ≡ error.NoMemory) ⊎ (specs.word (codes "http")).Refuses key (view tree.now) e) }
{
    if text_in(key, tree)?.as_slice() == b"http".as_slice() {
        Ok(())
    } else {
        Err(FlowFileError::BadMessage(key))
    }
}

/// The scheme of a request, which is `http`.
pub(crate) fn scheme_at(dict: &TnetDict) -> Result<(), FlowFileError>
    ensures ok { IfOk result (λ _. ReadsAt key.Scheme (specs.word_bytes (codes "http")) (pairs_view (paired dict.now)) tt) }
    ensures err { IfErr result (λ e. (e ≡ error.NoMemory) ⊎ RefusesAt key.Scheme (specs.word_bytes (codes "http")) (pairs_view (paired dict.now)) e) }
{
    read_scheme(Key::Scheme, find(dict, Key::Scheme)?)
}

fn read_scheme(key: Key, tree: &Tnet) -> Result<(), FlowFileError>
    ensures ok { IfOk result (λ _. (specs.word_bytes (codes "http")).Reads (view tree.now) tt) }
    ensures err { IfErr result (λ e. (e ≡ error.NoMemory) ⊎ (specs.word_bytes (codes "http")).Refuses key (view tree.now) e) }
{
    if blob_in(key, tree)?.as_slice() == b"http".as_slice() {
        Ok(())
    } else {
        Err(FlowFileError::BadMessage(key))
    }
}

/// The authority of a request, which is not looked at.
pub(crate) fn authority_at(dict: &TnetDict) -> Result<(), FlowFileError>
    ensures ok { IfOk result (λ _. ReadsAt key.Authority specs.unused (pairs_view (paired dict.now)) tt) }
    ensures err { IfErr result (λ e. (e ≡ error.NoMemory) ⊎ RefusesAt key.Authority specs.unused (pairs_view (paired dict.now)) e) }
{
    read_unused(Key::Authority, find(dict, Key::Authority)?)
}

fn read_unused(key: Key, tree: &Tnet) -> Result<(), FlowFileError>
    ensures ok { IfOk result (λ _. specs.unused.Reads (view tree.now) tt) }
    ensures err { IfErr result (λ e. (e ≡ error.NoMemory) ⊎ specs.unused.Refuses key (view tree.now) e) }
{
    blob_in(key, tree)?;
    Ok(())
}

/// Which end was replayed.
pub(crate) fn replay_at(dict: &TnetDict) -> Result<Replayed, FlowFileError>
    ensures ok { IfOk result (λ r. ReadsAt key.IsReplay specs.replay (pairs_view (paired dict.now)) r) }
    ensures err { IfErr result (λ e. (e ≡ error.NoMemory) ⊎ RefusesAt key.IsReplay specs.replay (pairs_view (paired dict.now)) e) }
{
    read_replay(Key::IsReplay, find(dict, Key::IsReplay)?)
}

fn read_replay(key: Key, tree: &Tnet) -> Result<Replayed, FlowFileError>
    ensures ok { IfOk result (λ r. specs.replay.Reads (view tree.now) r) }
    ensures err { IfErr result (λ e. (e ≡ error.NoMemory) ⊎ specs.replay.Refuses key (view tree.now) e) }
{
    match tree {
        Tnet::Null => Ok(Replayed::No),
        tree => read_end(key, tree),
    }
}

fn read_end(key: Key, tree: &Tnet) -> Result<Replayed, FlowFileError>
    requires { ¬ (view tree.now ≡ null) }
    ensures ok { IfOk result (λ r. specs.replay.Reads (view tree.now) r) }
    ensures err { IfErr result (λ e. (e ≡ error.NoMemory) ⊎ specs.replay.Refuses key (view tree.now) e) }
{
    let text = text_in(key, tree)?.as_slice();
    if text == b"request".as_slice() {
        return Ok(Replayed::Request);
    }
    if text == b"response".as_slice() {
        return Ok(Replayed::Response);
    }
    Err(FlowFileError::BadMessage(key))
}

/// Which flow it is.
pub(crate) fn id_at(dict: &TnetDict) -> Result<FlowId, FlowFileError>
    ensures ok { IfOk result (λ r. ReadsAt key.Id specs.flow_id (pairs_view (paired dict.now)) r) }
    ensures err { IfErr result (λ e. (e ≡ error.NoMemory) ⊎ RefusesAt key.Id specs.flow_id (pairs_view (paired dict.now)) e) }
{
    read_flow_id(Key::Id, find(dict, Key::Id)?)
}

fn read_flow_id(key: Key, tree: &Tnet) -> Result<FlowId, FlowFileError>
    ensures ok { IfOk result (λ r. specs.flow_id.Reads (view tree.now) r) }
    ensures err { IfErr result (λ e. (e ≡ error.NoMemory) ⊎ specs.flow_id.Refuses key (view tree.now) e) }
{
    match read_id(text_in(key, tree)?.as_slice()) {
        Some(id) => Ok(id),
        None => Err(FlowFileError::BadMessage(key)),
    }
}
