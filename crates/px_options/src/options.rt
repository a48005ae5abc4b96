//! The options of a run.
ghost use Rattle.std.specs.Prelude.{◌≡◌, ◌⊎◌, Ok, IfOk, IfErr};
ghost use Rattle.px_options.specs.Options.{IsRefused, Says};
ghost use Rattle.px_options.specs.View.{settings};
ghost use Rattle.px_options.specs.declared.error.OptionsError.TheVariants as error;

use crate::OptionsError;
use crate::file_path::{FilePath, FilePaths};
use crate::table::{options_of, read_table};
use px_exchange::Mode;
use px_filter::Filter;
use px_map::{BlockRules, LocalRules, RemoteRules};
use px_message::Address;
use px_replay::{Extra, Names};
use px_rule::{BodyRules, HeaderRules};
use std::alloc::Global;

/// What an options file says: an option a field, of the key's name.
#[derive(Debug, Drop)]
pub struct Options {
    /// Whether requests are to ask for an answer that is not kept elsewhere (mitmproxy's option `anticache`).
    pub anticache: bool,
    /// Whether requests are to ask for an answer without a coding (mitmproxy's option `anticomp`).
    pub anticomp: bool,
    /// Rules for flows that are answered with a status alone, or not at all (mitmproxy's option `block_list`).
    pub block_list: BlockRules,
    /// The files whose flows' requests are sent again from the start (mitmproxy's option `client_replay`).
    pub client_replay: FilePaths,
    /// Where operators connect; none says nowhere. mitmproxy has no such option.
    pub control: Option<Address>,
    /// After how many heard things a run ends.
    pub events: u64,
    /// Which flows wait for an operator; none says no flow (mitmproxy's option `intercept`).
    pub intercept: Option<Filter>,
    /// Where the proxy listens for clients (mitmproxy's options `listen_host` and `listen_port`).
    pub listen: Address,
    /// Rules for flows that are answered with files (mitmproxy's option `map_local`).
    pub map_local: LocalRules,
    /// Rules for the URLs of requests (mitmproxy's option `map_remote`).
    pub map_remote: RemoteRules,
    /// Where requests go (mitmproxy's option `mode`).
    pub mode: Mode,
    /// Rules for bodies (mitmproxy's option `modify_body`).
    pub modify_body: BodyRules,
    /// Rules for fields (mitmproxy's option `modify_headers`).
    pub modify_headers: HeaderRules,
    /// The file at whose end flows are put (mitmproxy's option `save_stream_file`).
    pub save_stream_file: Option<FilePath>,
    /// Which flows are put there; none says every flow (mitmproxy's option `save_stream_filter`).
    pub save_stream_filter: Option<Filter>,
    /// The files whose flows answer requests in the place of a server (mitmproxy's option `server_replay`).
    pub server_replay: FilePaths,
    /// What becomes of a request that no recorded one answers (mitmproxy's option `server_replay_extra`).
    pub server_replay_extra: Extra,
    /// Whether a recorded request is the same whatever its content (mitmproxy's option `server_replay_ignore_content`).
    pub server_replay_ignore_content: bool,
    /// Whether it is the same whatever its host (mitmproxy's option `server_replay_ignore_host`).
    pub server_replay_ignore_host: bool,
    /// The parameters of the query that do not count (mitmproxy's option `server_replay_ignore_params`).
    pub server_replay_ignore_params: Names,
    /// Whether a recorded request is the same whatever its port (mitmproxy's option `server_replay_ignore_port`).
    pub server_replay_ignore_port: bool,
    /// Whether the dates of a recorded response are moved to when it is asked for (mitmproxy's option `server_replay_refresh`, which is on
    /// without its key).
    pub server_replay_refresh: bool,
    /// Whether a recorded response may answer again and again (mitmproxy's option `server_replay_reuse`).
    pub server_replay_reuse: bool,
    /// The fields that count (mitmproxy's option `server_replay_use_headers`).
    pub server_replay_use_headers: Names,
    /// Which requests without an authorization are given the one that was kept for their host; none says that nothing is kept (mitmproxy's
    /// option `stickyauth`).
    pub stickyauth: Option<Filter>,
    /// Which requests are given the kept cookies that are for them; none says that nothing is kept (mitmproxy's option `stickycookie`).
    pub stickycookie: Option<Filter>,
    /// Above how many bytes a body is sent on as it comes, and not kept; none says that each is kept (mitmproxy's option
    /// `stream_large_bodies`, a text as `3m` there).
    pub stream_large_bodies: Option<u64>,
}

/// The options that the bytes of a file are: one TOML table, an option a key. A key that is not there has its default, so no bytes at
/// all are options too.
///
/// `BadToml` exactly where the bytes are no UTF-8 or no TOML, in which a key that stands there twice is none. Else the first bad key
/// in rising order of bytes decides: `UnknownOption` where no option has its name; `WrongKind` where the value is of another kind, a
/// number out of range, a text that is no address, an empty path, or none of the texts that `server_replay_extra` takes; `BadMode` where
/// the mode is a text that is no mode; `BadRule` where a text of the list is no rule, for the first of them; `BadFilter` where a text is
/// no filter. `NoMemory` may come in the place of any answer.
pub fn read_options(alloc: Global, bytes: &[u8]) -> Result<Options, OptionsError>
    ensures ok { IfOk result (λ o. Says bytes.now (Ok (settings o))) }
    ensures err { IfErr result (λ e. (e ≡ error.NoMemory) ⊎ IsRefused bytes.now e) }
{
    let table = read_table(alloc, bytes)?;
    options_of(alloc, &table)
}
