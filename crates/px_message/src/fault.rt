//! What went wrong with a message or a connection.

/// Why a conversation is answered with an error text, or ended. The first seven are the client's, where they are met in
/// a request.
#[derive(Clone, Copy, Debug, PartialEq, Eq)]
pub enum Fault {
    /// The block is no head (RFC 9112 sections 2 to 5).
    BadHead,
    /// 65,536 bytes have come and no head ends within them.
    TooLong,
    /// The target has none of the forms that its place allows (RFC 9112 section 3.2).
    BadTarget,
    /// Transfer-Encoding and Content-Length stand together (RFC 9112 section 6.1).
    BothLengths,
    /// Content-Length is no number, or two that differ (RFC 9112 section 6.3).
    BadLength,
    /// Transfer-Encoding is not `chunked` alone at its end (RFC 9112 section 6.1).
    BadCoding,
    /// A chunked body is malformed (RFC 9112 section 7.1).
    BadChunk,
    /// The server could not be reached.
    NoConnection,
    /// The server closed before its response was complete.
    ServerClosed,
    /// The server's response is malformed.
    BadResponse,
    /// The upstream proxy refused the tunnel.
    UpstreamRefused,
}
