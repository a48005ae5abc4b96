//! What each option is without its key.
ghost use Rattle.std.specs.Prelude.{◌≡◌, IfOk, IfErr};
ghost use Rattle.px_options.specs.Options.{defaults};
ghost use Rattle.px_options.specs.View.{settings};
ghost use Rattle.px_options.specs.declared.error.OptionsError.TheVariants as error;

use crate::address::default_address;
use crate::{FilePaths, Options, OptionsError};
use px_exchange::Mode;
use px_map::{BlockRules, LocalRules, RemoteRules};
use px_replay::{Extra, Names};
use px_rule::{BodyRules, HeaderRules};
use std::alloc::Global;

/// Every option is its default.
pub(crate) fn defaults(alloc: Global) -> Result<Options, OptionsError>
    ensures ok { IfOk result (λ o. settings o ≡ defaults) }
    ensures err { IfErr result (λ e. e ≡ error.NoMemory) }
{
    let listen = default_address(alloc)?;
    Ok(Options {
        anticache: false,
        anticomp: false,
        block_list: BlockRules::none(alloc),
        client_replay: FilePaths::none(alloc),
        control: None,
        events: 9223372036854775807,
        intercept: None,
        listen,
        map_local: LocalRules::none(alloc),
        map_remote: RemoteRules::none(alloc),
        mode: Mode::Regular,
        modify_body: BodyRules::none(alloc),
        modify_headers: HeaderRules::none(alloc),
        save_stream_file: None,
        save_stream_filter: None,
        server_replay: FilePaths::none(alloc),
        server_replay_extra: Extra::Forward,
        server_replay_ignore_content: false,
        server_replay_ignore_host: false,
        server_replay_ignore_params: Names::new(Vec::new(alloc)),
        server_replay_ignore_port: false,
        server_replay_refresh: false,
        server_replay_reuse: false,
        server_replay_use_headers: Names::new(Vec::new(alloc)),
        stickyauth: None,
        stickycookie: None,
        stream_large_bodies: None,
    })
}
