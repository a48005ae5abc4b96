//! One key of a table: its option is put.
ghost use Rattle.std.specs.Prelude.{◌≡◌, ◌⊎◌, Ok, Err, IfErr, OnOk};
ghost use Rattle.toml.specs.View.{view};
ghost use Rattle.px_options.specs.Steps.{put, put_named};
ghost use Rattle.px_options.specs.View.{settings};
ghost use Rattle.px_options.specs.declared.error.OptionsError.TheVariants as error;
ghost use Rattle.px_options.specs.declared.key.Key.TheVariants as keys;

use crate::address::{read_address, read_some_address};
use crate::count::{read_count, read_size};
use crate::error::unknown_option;
use crate::extra::read_extra;
use crate::flow_filter::read_filter;
use crate::key::{Key, key_of};
use crate::mode::read_mode;
use crate::names::read_names;
use crate::path::{read_path, read_paths};
use crate::rules::read_rules;
use crate::truth::read_truth;
use crate::{Options, OptionsError};
use std::alloc::Global;
use toml::Value;

/// The option of that name.
pub(crate) fn put_named(
    alloc: Global,
    options: &mut Options,
    name: &[u8],
    value: &Value,
) -> Result<(), OptionsError>
    ensures ok { OnOk result (put_named name.now (view value.now) (settings options.old) ≡ Ok (settings options.new)) }
    ensures err { IfErr result (λ e. (e ≡ error.NoMemory) ⊎ (put_named name.now (view value.now) (settings options.old) ≡ Err e)) }
{
    match key_of(name) {
        Some(key) => put(alloc, options, key, value),
        None => Err(unknown_option(alloc, name)),
    }
}

fn put(alloc: Global, options: &mut Options, key: Key, value: &Value) -> Result<(), OptionsError>
    ensures ok { OnOk result (put key (view value.now) (settings options.old) ≡ Ok (settings options.new)) }
    ensures err { IfErr result (λ e. (e ≡ error.NoMemory) ⊎ (put key (view value.now) (settings options.old) ≡ Err e)) }
{
    match key {
        Key::Anticache => put_anticache(alloc, options, value),
        Key::Anticomp => put_anticomp(alloc, options, value),
        Key::BlockList => put_block_list(alloc, options, value),
        Key::ClientReplay => put_client_replay(alloc, options, value),
        Key::Control => put_control(alloc, options, value),
        Key::Events => put_events(alloc, options, value),
        Key::Intercept => put_intercept(alloc, options, value),
        Key::Listen => put_listen(alloc, options, value),
        Key::MapLocal => put_map_local(alloc, options, value),
        Key::MapRemote => put_map_remote(alloc, options, value),
        Key::Mode => put_mode(alloc, options, value),
        Key::ModifyBody => put_modify_body(alloc, options, value),
        Key::ModifyHeaders => put_modify_headers(alloc, options, value),
        Key::SaveStreamFile => put_save_stream_file(alloc, options, value),
        Key::SaveStreamFilter => put_save_stream_filter(alloc, options, value),
        Key::ServerReplay => put_server_replay(alloc, options, value),
        Key::ServerReplayExtra => put_server_replay_extra(alloc, options, value),
        Key::ServerReplayIgnoreContent => put_server_replay_ignore_content(alloc, options, value),
        Key::ServerReplayIgnoreHost => put_server_replay_ignore_host(alloc, options, value),
        Key::ServerReplayIgnoreParams => put_server_replay_ignore_params(alloc, options, value),
        Key::ServerReplayIgnorePort => put_server_replay_ignore_port(alloc, options, value),
        Key::ServerReplayRefresh => put_server_replay_refresh(alloc, options, value),
        Key::ServerReplayReuse => put_server_replay_reuse(alloc, options, value),
        Key::ServerReplayUseHeaders => put_server_replay_use_headers(alloc, options, value),
        Key::Stickyauth => put_stickyauth(alloc, options, value),
        Key::Stickycookie => put_stickycookie(alloc, options, value),
        Key::StreamLargeBodies => put_stream_large_bodies(alloc, options, value),
    }
}

fn put_anticache(alloc: Global, options: &mut Options, value: &Value) -> Result<(), OptionsError>
    ensures ok { OnOk result (put keys.Anticache (view value.now) (settings options.old) ≡ Ok (settings options.new)) }
    ensures err { IfErr result (λ e. (e ≡ error.NoMemory) ⊎ (put keys.Anticache (view value.now) (settings options.old) ≡ Err e)) }
{
    options.anticache = read_truth(alloc, Key::Anticache, value)?;
    Ok(())
}

fn put_anticomp(alloc: Global, options: &mut Options, value: &Value) -> Result<(), OptionsError>
    ensures ok { OnOk result (put keys.Anticomp (view value.now) (settings options.old) ≡ Ok (settings options.new)) }
    ensures err { IfErr result (λ e. (e ≡ error.NoMemory) ⊎ (put keys.Anticomp (view value.now) (settings options.old) ≡ Err e)) }
{
    options.anticomp = read_truth(alloc, Key::Anticomp, value)?;
    Ok(())
}

fn put_block_list(alloc: Global, options: &mut Options, value: &Value) -> Result<(), OptionsError>
    ensures ok { OnOk result (put keys.BlockList (view value.now) (settings options.old) ≡ Ok (settings options.new)) }
    ensures err { IfErr result (λ e. (e ≡ error.NoMemory) ⊎ (put keys.BlockList (view value.now) (settings options.old) ≡ Err e)) }
{
    options.block_list = read_rules(alloc, Key::BlockList, value)?;
    Ok(())
}

fn put_client_replay(
    alloc: Global,
    options: &mut Options,
    value: &Value,
) -> Result<(), OptionsError>
    ensures ok { OnOk result (put keys.ClientReplay (view value.now) (settings options.old) ≡ Ok (settings options.new)) }
    ensures err { IfErr result (λ e. (e ≡ error.NoMemory) ⊎ (put keys.ClientReplay (view value.now) (settings options.old) ≡ Err e)) }
{
    options.client_replay = read_paths(alloc, Key::ClientReplay, value)?;
    Ok(())
}

fn put_control(alloc: Global, options: &mut Options, value: &Value) -> Result<(), OptionsError>
    ensures ok { OnOk result (put keys.Control (view value.now) (settings options.old) ≡ Ok (settings options.new)) }
    ensures err { IfErr result (λ e. (e ≡ error.NoMemory) ⊎ (put keys.Control (view value.now) (settings options.old) ≡ Err e)) }
{
    options.control = Some(read_some_address(alloc, Key::Control, value)?);
    Ok(())
}

fn put_events(alloc: Global, options: &mut Options, value: &Value) -> Result<(), OptionsError>
    ensures ok { OnOk result (put keys.Events (view value.now) (settings options.old) ≡ Ok (settings options.new)) }
    ensures err { IfErr result (λ e. (e ≡ error.NoMemory) ⊎ (put keys.Events (view value.now) (settings options.old) ≡ Err e)) }
{
    options.events = read_count(alloc, Key::Events, value)?;
    Ok(())
}

fn put_intercept(alloc: Global, options: &mut Options, value: &Value) -> Result<(), OptionsError>
    ensures ok { OnOk result (put keys.Intercept (view value.now) (settings options.old) ≡ Ok (settings options.new)) }
    ensures err { IfErr result (λ e. (e ≡ error.NoMemory) ⊎ (put keys.Intercept (view value.now) (settings options.old) ≡ Err e)) }
{
    options.intercept = Some(read_filter(alloc, Key::Intercept, value)?);
    Ok(())
}

fn put_listen(alloc: Global, options: &mut Options, value: &Value) -> Result<(), OptionsError>
    ensures ok { OnOk result (put keys.Listen (view value.now) (settings options.old) ≡ Ok (settings options.new)) }
    ensures err { IfErr result (λ e. (e ≡ error.NoMemory) ⊎ (put keys.Listen (view value.now) (settings options.old) ≡ Err e)) }
{
    options.listen = read_address(alloc, Key::Listen, value)?;
    Ok(())
}

fn put_map_local(alloc: Global, options: &mut Options, value: &Value) -> Result<(), OptionsError>
    ensures ok { OnOk result (put keys.MapLocal (view value.now) (settings options.old) ≡ Ok (settings options.new)) }
    ensures err { IfErr result (λ e. (e ≡ error.NoMemory) ⊎ (put keys.MapLocal (view value.now) (settings options.old) ≡ Err e)) }
{
    options.map_local = read_rules(alloc, Key::MapLocal, value)?;
    Ok(())
}

fn put_map_remote(alloc: Global, options: &mut Options, value: &Value) -> Result<(), OptionsError>
    ensures ok { OnOk result (put keys.MapRemote (view value.now) (settings options.old) ≡ Ok (settings options.new)) }
    ensures err { IfErr result (λ e. (e ≡ error.NoMemory) ⊎ (put keys.MapRemote (view value.now) (settings options.old) ≡ Err e)) }
{
    options.map_remote = read_rules(alloc, Key::MapRemote, value)?;
    Ok(())
}

fn put_mode(alloc: Global, options: &mut Options, value: &Value) -> Result<(), OptionsError>
    ensures ok { OnOk result (put keys.Mode (view value.now) (settings options.old) ≡ Ok (settings options.new)) }
    ensures err { IfErr result (λ e. (e ≡ error.NoMemory) ⊎ (put keys.Mode (view value.now) (settings options.old) ≡ Err e)) }
{
    options.mode = read_mode(alloc, Key::Mode, value)?;
    Ok(())
}

fn put_modify_body(alloc: Global, options: &mut Options, value: &Value) -> Result<(), OptionsError>
    ensures ok { OnOk result (put keys.ModifyBody (view value.now) (settings options.old) ≡ Ok (settings options.new)) }
    ensures err { IfErr result (λ e. (e ≡ error.NoMemory) ⊎ (put keys.ModifyBody (view value.now) (settings options.old) ≡ Err e)) }
{
    options.modify_body = read_rules(alloc, Key::ModifyBody, value)?;
    Ok(())
}

fn put_modify_headers(
    alloc: Global,
    options: &mut Options,
    value: &Value,
) -> Result<(), OptionsError>
    ensures ok { OnOk result (put keys.ModifyHeaders (view value.now) (settings options.old) ≡ Ok (settings options.new)) }
    ensures err { IfErr result (λ e. (e ≡ error.NoMemory) ⊎ (put keys.ModifyHeaders (view value.now) (settings options.old) ≡ Err e)) }
{
    options.modify_headers = read_rules(alloc, Key::ModifyHeaders, value)?;
    Ok(())
}

fn put_save_stream_file(
    alloc: Global,
    options: &mut Options,
    value: &Value,
) -> Result<(), OptionsError>
    ensures ok { OnOk result (put keys.SaveStreamFile (view value.now) (settings options.old) ≡ Ok (settings options.new)) }
    ensures err { IfErr result (λ e. (e ≡ error.NoMemory) ⊎ (put keys.SaveStreamFile (view value.now) (settings options.old) ≡ Err e)) }
{
    options.save_stream_file = Some(read_path(alloc, Key::SaveStreamFile, value)?);
    Ok(())
}

fn put_save_stream_filter(
    alloc: Global,
    options: &mut Options,
    value: &Value,
) -> Result<(), OptionsError>
    ensures ok { OnOk result (put keys.SaveStreamFilter (view value.now) (settings options.old) ≡ Ok (settings options.new)) }
    ensures err { IfErr result (λ e. (e ≡ error.NoMemory) ⊎ (put keys.SaveStreamFilter (view value.now) (settings options.old) ≡ Err e)) }
{
    options.save_stream_filter = Some(read_filter(alloc, Key::SaveStreamFilter, value)?);
    Ok(())
}

fn put_server_replay(
    alloc: Global,
    options: &mut Options,
    value: &Value,
) -> Result<(), OptionsError>
    ensures ok { OnOk result (put keys.ServerReplay (view value.now) (settings options.old) ≡ Ok (settings options.new)) }
    ensures err { IfErr result (λ e. (e ≡ error.NoMemory) ⊎ (put keys.ServerReplay (view value.now) (settings options.old) ≡ Err e)) }
{
    options.server_replay = read_paths(alloc, Key::ServerReplay, value)?;
    Ok(())
}

fn put_server_replay_extra(
    alloc: Global,
    options: &mut Options,
    value: &Value,
) -> Result<(), OptionsError>
    ensures ok { OnOk result (put keys.ServerReplayExtra (view value.now) (settings options.old) ≡ Ok (settings options.new)) }
    ensures err { IfErr result (λ e. (e ≡ error.NoMemory) ⊎ (put keys.ServerReplayExtra (view value.now) (settings options.old) ≡ Err e)) }
{
    options.server_replay_extra = read_extra(alloc, Key::ServerReplayExtra, value)?;
    Ok(())
}

fn put_server_replay_ignore_content(
    alloc: Global,
    options: &mut Options,
    value: &Value,
) -> Result<(), OptionsError>
    ensures ok { OnOk result (put keys.ServerReplayIgnoreContent (view value.now) (settings options.old) ≡ Ok (settings options.new)) }
    ensures err { IfErr result (λ e. (e ≡ error.NoMemory) ⊎ (put keys.ServerReplayIgnoreContent (view value.now) (settings options.old) ≡ Err e)) }
{
    options.server_replay_ignore_content = read_truth(
        alloc,
        Key::ServerReplayIgnoreContent,
        value,
    )?;
    Ok(())
}

fn put_server_replay_ignore_host(
    alloc: Global,
    options: &mut Options,
    value: &Value,
) -> Result<(), OptionsError>
    ensures ok { OnOk result (put keys.ServerReplayIgnoreHost (view value.now) (settings options.old) ≡ Ok (settings options.new)) }
    ensures err { IfErr result (λ e. (e ≡ error.NoMemory) ⊎ (put keys.ServerReplayIgnoreHost (view value.now) (settings options.old) ≡ Err e)) }
{
    options.server_replay_ignore_host = read_truth(alloc, Key::ServerReplayIgnoreHost, value)?;
    Ok(())
}

fn put_server_replay_ignore_params(
    alloc: Global,
    options: &mut Options,
    value: &Value,
) -> Result<(), OptionsError>
    ensures ok { OnOk result (put keys.ServerReplayIgnoreParams (view value.now) (settings options.old) ≡ Ok (settings options.new)) }
    ensures err { IfErr result (λ e. (e ≡ error.NoMemory) ⊎ (put keys.ServerReplayIgnoreParams (view value.now) (settings options.old) ≡ Err e)) }
{
    options.server_replay_ignore_params = read_names(alloc, Key::ServerReplayIgnoreParams, value)?;
    Ok(())
}

fn put_server_replay_ignore_port(
    alloc: Global,
    options: &mut Options,
    value: &Value,
) -> Result<(), OptionsError>
    ensures ok { OnOk result (put keys.ServerReplayIgnorePort (view value.now) (settings options.old) ≡ Ok (settings options.new)) }
    ensures err { IfErr result (λ e. (e ≡ error.NoMemory) ⊎ (put keys.ServerReplayIgnorePort (view value.now) (settings options.old) ≡ Err e)) }
{
    options.server_replay_ignore_port = read_truth(alloc, Key::ServerReplayIgnorePort, value)?;
    Ok(())
}

fn put_server_replay_refresh(
    alloc: Global,
    options: &mut Options,
    value: &Value,
) -> Result<(), OptionsError>
    ensures ok { OnOk result (put keys.ServerReplayRefresh (view value.now) (settings options.old) ≡ Ok (settings options.new)) }
    ensures err { IfErr result (λ e. (e ≡ error.NoMemory) ⊎ (put keys.ServerReplayRefresh (view value.now) (settings options.old) ≡ Err e)) }
{
    options.server_replay_refresh = read_truth(alloc, Key::ServerReplayRefresh, value)?;
    Ok(())
}

fn put_server_replay_reuse(
    alloc: Global,
    options: &mut Options,
    value: &Value,
) -> Result<(), OptionsError>
    ensures ok { OnOk result (put keys.ServerReplayReuse (view value.now) (settings options.old) ≡ Ok (settings options.new)) }
    ensures err { IfErr result (λ e. (e ≡ error.NoMemory) ⊎ (put keys.ServerReplayReuse (view value.now) (settings options.old) ≡ Err e)) }
{
    options.server_replay_reuse = read_truth(alloc, Key::ServerReplayReuse, value)?;
    Ok(())
}

fn put_server_replay_use_headers(
    alloc: Global,
    options: &mut Options,
    value: &Value,
) -> Result<(), OptionsError>
    ensures ok { OnOk result (put keys.ServerReplayUseHeaders (view value.now) (settings options.old) ≡ Ok (settings options.new)) }
    ensures err { IfErr result (λ e. (e ≡ error.NoMemory) ⊎ (put keys.ServerReplayUseHeaders (view value.now) (settings options.old) ≡ Err e)) }
{
    options.server_replay_use_headers = read_names(alloc, Key::ServerReplayUseHeaders, value)?;
    Ok(())
}

fn put_stickyauth(alloc: Global, options: &mut Options, value: &Value) -> Result<(), OptionsError>
    ensures ok { OnOk result (put keys.Stickyauth (view value.now) (settings options.old) ≡ Ok (settings options.new)) }
    ensures err { IfErr result (λ e. (e ≡ error.NoMemory) ⊎ (put keys.Stickyauth (view value.now) (settings options.old) ≡ Err e)) }
{
    options.stickyauth = Some(read_filter(alloc, Key::Stickyauth, value)?);
    Ok(())
}

fn put_stickycookie(alloc: Global, options: &mut Options, value: &Value) -> Result<(), OptionsError>
    ensures ok { OnOk result (put keys.Stickycookie (view value.now) (settings options.old) ≡ Ok (settings options.new)) }
    ensures err { IfErr result (λ e. (e ≡ error.NoMemory) ⊎ (put keys.Stickycookie (view value.now) (settings options.old) ≡ Err e)) }
{
    options.stickycookie = Some(read_filter(alloc, Key::Stickycookie, value)?);
    Ok(())
}

fn put_stream_large_bodies(
    alloc: Global,
    options: &mut Options,
    value: &Value,
) -> Result<(), OptionsError>
    ensures ok { OnOk result (put keys.StreamLargeBodies (view value.now) (settings options.old) ≡ Ok (settings options.new)) }
    ensures err { IfErr result (λ e. (e ≡ error.NoMemory) ⊎ (put keys.StreamLargeBodies (view value.now) (settings options.old) ≡ Err e)) }
{
    options.stream_large_bodies = Some(read_size(alloc, Key::StreamLargeBodies, value)?);
    Ok(())
}
