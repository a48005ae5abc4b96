//! Where a client or a server is, and what ended a flow early.
ghost use Rattle.std.specs.Prelude.{◌≡◌, ◌⊎◌, IfOk, IfErr};
ghost use Rattle.px_tnet.specs.View.{paired, pairs_view, view};
ghost use Rattle.px_flowfile.specs.Ends as specs;
ghost use Rattle.px_flowfile.specs.Kind.{or_null};
ghost use Rattle.px_flowfile.specs.Table.{IsRefusedBy, Meets, ReadsAt, RefusesAt, dictionary};
ghost use Rattle.px_flowfile.specs.declared.error.FlowFileError.TheVariants as error;
ghost use Rattle.px_flowfile.specs.declared.key.Key.TheVariants as key;

use crate::find::{blob_in, dict_in, find, two_in};
use crate::message::{bytes_at, host_of};
use crate::simple::{moment_at, read_port};
use crate::{FlowFileError, Key};
use px_message::{Address, FlowError, Shared};
use px_tnet::{Tnet, TnetDict};
use std::alloc::Global;

/// Where a client or a server is, or nothing.
pub(crate) fn end_at(
    alloc: Global,
    dict: &TnetDict,
    key: Key,
) -> Result<Option<Shared<Address>>, FlowFileError>
    ensures ok { IfOk result (λ r. ReadsAt key (or_null (dictionary specs.end_table)) (pairs_view (paired dict.now)) r) }
    ensures err { IfErr result (λ e. (e ≡ error.NoMemory)
        ⊎ RefusesAt key (or_null (dictionary specs.end_table)) (pairs_view (paired dict.now)) e) }
{
    read_end(alloc, key, find(dict, key)?)
}

fn read_end(alloc: Global, key: Key, tree: &Tnet) -> Result<Option<Shared<Address>>, FlowFileError>
    ensures ok { IfOk result (λ r. (or_null (dictionary specs.end_table)).Reads (view tree.now) r) }
    ensures err { IfErr result (λ e. (e ≡ error.NoMemory) ⊎ (or_null (dictionary specs.end_table)).Refuses key (view tree.now) e) }
{
    match tree {
        Tnet::Null => Ok(None),
        tree => Ok(Some(Shared::new(alloc, read_address(alloc, dict_in(key, tree)?)?)?)),
    }
}

fn read_address(alloc: Global, dict: &TnetDict) -> Result<Address, FlowFileError>
    ensures ok { IfOk result (λ r. Meets specs.end_table (pairs_view (paired dict.now)) r) }
    ensures err { IfErr result (λ e. (e ≡ error.NoMemory) ⊎ IsRefusedBy specs.end_table (pairs_view (paired dict.now)) e) }
{
    read_place(alloc, Key::Address, find(dict, Key::Address)?)
}

fn read_place(alloc: Global, key: Key, tree: &Tnet) -> Result<Address, FlowFileError>
    ensures ok { IfOk result (λ r. specs.place.Reads (view tree.now) r) }
    ensures err { IfErr result (λ e. (e ≡ error.NoMemory) ⊎ specs.place.Refuses key (view tree.now) e) }
{
    let (first, second) = two_in(key, tree)?;
    let host = blob_in(key, first)?;
    match read_port(key, second) {
        Ok(port) => match host_of(alloc, key, host) {
            Ok(host) => Ok(Address { host, port }),
            Err(e) => Err(e),
        },
        Err(e) => Err(e),
    }
}

/// What ended the flow, or nothing.
pub(crate) fn error_at(
    alloc: Global,
    dict: &TnetDict,
) -> Result<Option<Shared<FlowError>>, FlowFileError>
    ensures ok { IfOk result (λ r. ReadsAt key.Error (or_null (dictionary specs.error_table)) (pairs_view (paired dict.now)) r) }
    ensures err { IfErr result (λ e. (e ≡ error.NoMemory)
        ⊎ RefusesAt key.Error (or_null (dictionary specs.error_table)) (pairs_view (paired dict.now)) e) }
{
    read_optional_error(alloc, Key::Error, find(dict, Key::Error)?)
}

fn read_optional_error(
    alloc: Global,
    key: Key,
    tree: &Tnet,
) -> Result<Option<Shared<FlowError>>, FlowFileError>
    ensures ok { IfOk result (λ r. (or_null (dictionary specs.error_table)).Reads (view tree.now) r) }
    ensures err { IfErr result (λ e. (e ≡ error.NoMemory) ⊎ (or_null (dictionary specs.error_table)).Refuses key (view tree.now) e) }
{
    match tree {
        Tnet::Null => Ok(None),
        tree => Ok(Some(Shared::new(alloc, read_error(dict_in(key, tree)?)?)?)),
    }
}

fn read_error(dict: &TnetDict) -> Result<FlowError, FlowFileError>
    ensures ok { IfOk result (λ r. Meets specs.error_table (pairs_view (paired dict.now)) r) }
    ensures err { IfErr result (λ e. (e ≡ error.NoMemory) ⊎ IsRefusedBy specs.error_table (pairs_view (paired dict.now)) e) }
{
    let msg = bytes_at(dict, Key::Msg)?;
    match moment_at(dict, Key::Timestamp) {
        Ok(moment) => Ok(FlowError { msg, moment }),
        Err(e) => Err(e),
    }
}
