//! The names of the keys of a flow's dictionary.
ghost use Rattle.std.specs.Prelude.{◌≡◌};
ghost use Rattle.px_flowfile.specs.Keys.{name_of};

/// A key of a flow's dictionary or of one in it. `Flow` is no key: it stands for the whole tree in an error.
#[derive(Clone, Copy, Debug, PartialEq, Eq)]
pub enum Key {
    Flow,
    Version,
    Type,
    Id,
    ClientConn,
    ServerConn,
    Request,
    Response,
    Error,
    IsReplay,
    Marked,
    Websocket,
    Messages,
    FromClient,
    Text,
    Dropped,
    Address,
    Msg,
    Timestamp,
    HttpVersion,
    StatusCode,
    Reason,
    Headers,
    Content,
    Trailers,
    TimestampStart,
    TimestampEnd,
    Host,
    Port,
    Method,
    Scheme,
    Authority,
    Path,
}

/// The key's name in a file.
pub fn name_of(key: Key) -> &'static [u8]
    ensures { result.now ≡ name_of key }
{
    match key {
        Key::Flow => b"flow",
        Key::Version => b"version",
        Key::Type => b"type",
        Key::Id => b"id",
        Key::ClientConn => b"client_conn",
        Key::ServerConn => b"server_conn",
        Key::Request => b"request",
        Key::Response => b"response",
        Key::Error => b"error",
        Key::IsReplay => b"is_replay",
        Key::Marked => b"marked",
        Key::Websocket => b"websocket",
        Key::Messages => b"messages",
        Key::FromClient => b"from_client",
        Key::Text => b"text",
        Key::Dropped => b"dropped",
        Key::Address => b"address",
        Key::Msg => b"msg",
        Key::Timestamp => b"timestamp",
        Key::HttpVersion => b"http_version",
        Key::StatusCode => b"status_code",
        Key::Reason => b"reason",
        Key::Headers => b"headers",
        Key::Content => b"content",
        Key::Trailers => b"trailers",
        Key::TimestampStart => b"timestamp_start",
        Key::TimestampEnd => b"timestamp_end",
        Key::Host => b"host",
        Key::Port => b"port",
        Key::Method => b"method",
        Key::Scheme => b"scheme",
        Key::Authority => b"authority",
        Key::Path => b"path",
    }
}
