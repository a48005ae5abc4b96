//! The keys of an options file.
ghost use Rattle.std.specs.Prelude.{◌≡◌};
ghost use Rattle.px_options.specs.Keys.{key_of, later_key_of, name_of, replay_key_of, sticky_key_of};

/// A key of an options file.
#[derive(Clone, Copy, Debug, PartialEq, Eq)]
pub(crate) enum Key {
    Anticache,
    Anticomp,
    BlockList,
    ClientReplay,
    Control,
    Events,
    Intercept,
    Listen,
    MapLocal,
    MapRemote,
    Mode,
    ModifyBody,
    ModifyHeaders,
    SaveStreamFile,
    SaveStreamFilter,
    ServerReplay,
    ServerReplayExtra,
    ServerReplayIgnoreContent,
    ServerReplayIgnoreHost,
    ServerReplayIgnoreParams,
    ServerReplayIgnorePort,
    ServerReplayRefresh,
    ServerReplayReuse,
    ServerReplayUseHeaders,
    Stickyauth,
    Stickycookie,
    StreamLargeBodies,
}

/// The key's name in a file.
pub(crate) fn name_of(key: Key) -> &'static [u8]
    ensures { result.now ≡ name_of key }
{
    match key {
        Key::Anticache => b"anticache",
        Key::Anticomp => b"anticomp",
        Key::BlockList => b"block_list",
        Key::ClientReplay => b"client_replay",
        Key::Control => b"control",
        Key::Events => b"events",
        Key::Intercept => b"intercept",
        Key::Listen => b"listen",
        Key::MapLocal => b"map_local",
        Key::MapRemote => b"map_remote",
        Key::Mode => b"mode",
        Key::ModifyBody => b"modify_body",
        Key::ModifyHeaders => b"modify_headers",
        Key::SaveStreamFile => b"save_stream_file",
        Key::SaveStreamFilter => b"save_stream_filter",
        Key::ServerReplay => b"server_replay",
        Key::ServerReplayExtra => b"server_replay_extra",
        Key::ServerReplayIgnoreContent => b"server_replay_ignore_content",
        Key::ServerReplayIgnoreHost => b"server_replay_ignore_host",
        Key::ServerReplayIgnoreParams => b"server_replay_ignore_params",
        Key::ServerReplayIgnorePort => b"server_replay_ignore_port",
        Key::ServerReplayRefresh => b"server_replay_refresh",
        Key::ServerReplayReuse => b"server_replay_reuse",
        Key::ServerReplayUseHeaders => b"server_replay_use_headers",
        Key::Stickyauth => b"stickyauth",
        Key::Stickycookie => b"stickycookie",
        Key::StreamLargeBodies => b"stream_large_bodies",
    }
}

/// The key of that name.
pub(crate) fn key_of(name: &[u8]) -> Option<Key>
    ensures { result ≡ key_of name.now }
{
    if name == b"anticache".as_slice() {
        return Some(Key::Anticache);
    }
    if name == b"anticomp".as_slice() {
        return Some(Key::Anticomp);
    }
    if name == b"block_list".as_slice() {
        return Some(Key::BlockList);
    }
    if name == b"client_replay".as_slice() {
        return Some(Key::ClientReplay);
    }
    if name == b"control".as_slice() {
        return Some(Key::Control);
    }
    if name == b"events".as_slice() {
        return Some(Key::Events);
    }
    if name == b"intercept".as_slice() {
        return Some(Key::Intercept);
    }
    later_key_of(name)
}

// The key of that name, of those from `listen` on.
fn later_key_of(name: &[u8]) -> Option<Key>
    ensures { result ≡ later_key_of name.now }
{
    if name == b"listen".as_slice() {
        return Some(Key::Listen);
    }
    if name == b"map_local".as_slice() {
        return Some(Key::MapLocal);
    }
    if name == b"map_remote".as_slice() {
        return Some(Key::MapRemote);
    }
    if name == b"mode".as_slice() {
        return Some(Key::Mode);
    }
    if name == b"modify_body".as_slice() {
        return Some(Key::ModifyBody);
    }
    if name == b"modify_headers".as_slice() {
        return Some(Key::ModifyHeaders);
    }
    if name == b"save_stream_file".as_slice() {
        return Some(Key::SaveStreamFile);
    }
    if name == b"save_stream_filter".as_slice() {
        return Some(Key::SaveStreamFilter);
    }
    replay_key_of(name)
}

// The key of that name, of those from `server_replay` on.
fn replay_key_of(name: &[u8]) -> Option<Key>
    ensures { result ≡ replay_key_of name.now }
{
    if name == b"server_replay".as_slice() {
        return Some(Key::ServerReplay);
    }
    if name == b"server_replay_extra".as_slice() {
        return Some(Key::ServerReplayExtra);
    }
    if name == b"server_replay_ignore_content".as_slice() {
        return Some(Key::ServerReplayIgnoreContent);
    }
    if name == b"server_replay_ignore_host".as_slice() {
        return Some(Key::ServerReplayIgnoreHost);
    }
    if name == b"server_replay_ignore_params".as_slice() {
        return Some(Key::ServerReplayIgnoreParams);
    }
    if name == b"server_replay_ignore_port".as_slice() {
        return Some(Key::ServerReplayIgnorePort);
    }
    if name == b"server_replay_refresh".as_slice() {
        return Some(Key::ServerReplayRefresh);
    }
    if name == b"server_replay_reuse".as_slice() {
        return Some(Key::ServerReplayReuse);
    }
    if name == b"server_replay_use_headers".as_slice() {
        return Some(Key::ServerReplayUseHeaders);
    }
    sticky_key_of(name)
}

// The key of that name, of those from `stickyauth` on.
fn sticky_key_of(name: &[u8]) -> Option<Key>
    ensures { result ≡ sticky_key_of name.now }
{
    if name == b"stickyauth".as_slice() {
        return Some(Key::Stickyauth);
    }
    if name == b"stickycookie".as_slice() {
        return Some(Key::Stickycookie);
    }
    if name == b"stream_large_bodies".as_slice() {
        return Some(Key::StreamLargeBodies);
    }
    None
}
