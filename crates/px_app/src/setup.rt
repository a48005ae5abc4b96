//! What the options of a run come to, with the flows of the files that they name.
ghost use Rattle.std.specs.Prelude.{◌≡◌, IfOk, option_map};
ghost use Rattle.px_filter.specs.View.{expression};
ghost use Rattle.px_options.specs.View.{path_view, paths_view, settings};
ghost use Rattle.px_replay.specs.Replaying.{started};
ghost use Rattle.px_app.specs.Opened.{auth_view, cookies_view, nothing_kept, recorded_at};
ghost use Rattle.px_app.specs.Saved.{saves_to_of};
ghost use Rattle.px_app.specs.Serves.{saves_at};
ghost use Rattle.px_app.specs.Setup.{IsSetupOf};

use crate::saving::Saving;
use px_addons::Rules;
use px_filter::Filter;
use px_message::{Address, Flow};
use px_options::{FilePath, FilePaths, Options};
use px_refresh::{StickyAuth, StickyCookies};
use px_replay::{Extra, KeyOptions, Recorded};
use px_stack::Mode;
use px_text::NoMemory;
use std::alloc::Global;

/// What a run serves by.
#[derive(Debug, Drop)]
pub(crate) struct Setup {
    /// What is made of flows in front of the addons.
    pub(crate) rules: Rules,
    /// Where it listens for clients.
    pub(crate) listen: Address,
    /// Where it listens for operators, if anywhere.
    pub(crate) control: Option<Address>,
    /// Where requests go.
    pub(crate) mode: Mode,
    /// Where finished flows are saved, and which.
    pub(crate) saving: Option<Saving>,
    /// After how many heard things it ends.
    pub(crate) events: u64,
}

/// What these options come to, with these flows of the files of `server_replay`. Where they name no file, no request is answered with a
/// recorded response.
pub(crate) fn setup_of(alloc: Global, options: Options, flows: Vec<Flow>) -> Result<Setup, NoMemory>
    ensures { IfOk result (λ setup. IsSetupOf (settings options) flows.items setup) }
{
    let Options {
        anticache,
        anticomp,
        block_list,
        client_replay,
        control,
        events,
        intercept,
        listen,
        map_local,
        map_remote,
        mode,
        modify_body,
        modify_headers,
        save_stream_file,
        save_stream_filter,
        server_replay,
        server_replay_extra,
        server_replay_ignore_content,
        server_replay_ignore_host,
        server_replay_ignore_params,
        server_replay_ignore_port,
        server_replay_refresh,
        server_replay_reuse,
        server_replay_use_headers,
        stickyauth,
        stickycookie,
        stream_large_bodies,
    } = options;
    drop(client_replay);
    let how = KeyOptions {
        ignore_content: server_replay_ignore_content,
        ignore_host: server_replay_ignore_host,
        ignore_port: server_replay_ignore_port,
        ignore_params: server_replay_ignore_params,
        use_headers: server_replay_use_headers,
    };
    let replay = recorded(
        alloc,
        &server_replay,
        flows,
        how,
        server_replay_reuse,
        server_replay_extra,
    )?;
    let rules = Rules {
        block: block_list,
        local: map_local,
        remote: map_remote,
        headers: modify_headers,
        bodies: modify_body,
        anticache,
        anticomp,
        replay,
        refresh: server_replay_refresh,
        cookies: cookies_by(alloc, stickycookie),
        auth: auth_by(alloc, stickyauth),
        intercept,
        stream: stream_large_bodies,
    };
    let saving = saving_of(save_stream_file, save_stream_filter);
    Ok(Setup {
        rules,
        listen,
        control,
        mode,
        saving,
        events,
    })
}

// The recorded list of these flows; none where no file is named.
fn recorded(
    alloc: Global,
    paths: &FilePaths,
    flows: Vec<Flow>,
    how: KeyOptions,
    reuse: bool,
    extra: Extra,
) -> Result<Option<Recorded>, NoMemory>
    ensures { IfOk result (λ replay. replay ≡ recorded_at (paths_view paths.now) (started how reuse extra flows.items)) }
{
    match paths.as_slice() {
        [] => {
            drop(flows);
            drop(how);
            Ok(None)
        }
        [_, ..] => Ok(Some(Recorded::new(alloc, flows, how, reuse, extra)?)),
    }
}

// Cookies of which nothing is kept yet, under the filter for them, if there is one.
fn cookies_by(alloc: Global, filter: Option<Filter>) -> Option<StickyCookies>
    ensures { option_map cookies_view result ≡ option_map nothing_kept (option_map expression filter) }
{
    match filter {
        None => None,
        Some(filter) => Some(StickyCookies::new(alloc, filter)),
    }
}

// Authorizations of which nothing is kept yet, likewise.
fn auth_by(alloc: Global, filter: Option<Filter>) -> Option<StickyAuth>
    ensures { option_map auth_view result ≡ option_map nothing_kept (option_map expression filter) }
{
    match filter {
        None => None,
        Some(filter) => Some(StickyAuth::new(alloc, filter)),
    }
}

// Where finished flows are saved, and which.
fn saving_of(file: Option<FilePath>, filter: Option<Filter>) -> Option<Saving>
    ensures { saves_to_of result ≡ saves_at (option_map path_view file) (option_map expression filter) }
{
    match file {
        None => {
            drop(filter);
            None
        }
        Some(path) => Some(Saving { path, filter }),
    }
}
