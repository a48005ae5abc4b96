//! Answers of server replay.
use px_message::{Response, Status};

/// What becomes of a request that no recorded one answers (mitmproxy's option `server_replay_extra`).
#[derive(Clone, Copy, Debug, PartialEq, Eq)]
pub enum Extra {
    /// It goes on to the server.
    Forward,
    /// Its flow and the conversation end.
    Kill,
    /// It is answered with this status and an empty body.
    Code(Status),
}

/// The answer to a request.
#[derive(Debug, Drop)]
pub enum Replay {
    /// The recorded response at this place in the recorded list, counted from 0.
    Found(usize, Response),
    /// No place answers it.
    Extra(Extra),
}
