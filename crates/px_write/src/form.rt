//! The forms in which a request's target is sent.

/// How the target is written (RFC 9112 section 3.2).
#[derive(Clone, Copy, Debug, PartialEq, Eq)]
pub enum Form {
    /// The path alone, to a server.
    Origin,
    /// The whole URL, to a proxy.
    Absolute,
}
