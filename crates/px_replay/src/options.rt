//! What counts of a request.
use crate::Names;

/// What of a request counts when a recorded one is looked for (mitmproxy's options `server_replay_ignore_content`,
/// `server_replay_ignore_host`, `server_replay_ignore_port`, `server_replay_ignore_params` and `server_replay_use_headers`). The method
/// and the path always count.
#[derive(Debug, Drop)]
pub struct KeyOptions {
    /// The content does not count.
    pub ignore_content: bool,
    /// The host does not count.
    pub ignore_host: bool,
    /// The port does not count.
    pub ignore_port: bool,
    /// The parameters of the query that do not count: their names as they are when decoded.
    pub ignore_params: Names,
    /// The fields that count, by their names in any case.
    pub use_headers: Names,
}
