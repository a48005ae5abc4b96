//! Versions of HTTP.

/// The version of a message (RFC 9112 section 2.3). No other is read.
#[derive(Clone, Copy, Debug, PartialEq, Eq)]
pub enum Version {
    /// `HTTP/1.0`
    Http10,
    /// `HTTP/1.1`
    Http11,
}
