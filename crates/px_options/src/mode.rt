//! The mode: where requests go.
ghost use Rattle.std.specs.Prelude.{◌≡◌, ◌⊎◌, ◌≤◌, ◌&&◌, nat_le, take, drop, length, codes, bytes_eq, Some, None, IsTrue, Ok, Err, IfOk, IfErr, IfSome, option_map};
ghost use Rattle.px_message.specs.Target.{form_of, target_form};
ghost use Rattle.toml.specs.View.{view};
ghost use Rattle.px_options.specs.Keys.{name_of};
ghost use Rattle.px_options.specs.Mode.{is_reverse, is_upstream, mode, mode_of, reverse, server_at, server_in, server_of, upstream};
ghost use Rattle.px_options.specs.View.{mode_view};
ghost use Rattle.px_options.specs.declared.error.OptionsError.TheVariants as error;

use crate::OptionsError;
use crate::error::wrong_kind;
use crate::key::Key;
use px_exchange::Mode;
use px_message::{Address, Target, TargetError, read_target};
use std::alloc::Global;
use toml::Value;

/// The mode that a value is.
pub(crate) fn read_mode(alloc: Global, key: Key, value: &Value) -> Result<Mode, OptionsError>
    ensures ok { IfOk result (λ m. mode key (view value.now) ≡ Ok (mode_view m)) }
    ensures err { IfErr result (λ e. (e ≡ error.NoMemory) ⊎ (mode key (view value.now) ≡ Err e)) }
{
    match value.as_str() {
        Some(text) => mode_of(alloc, text.as_bytes()),
        None => Err(wrong_kind(alloc, key)),
    }
}

// The mode that a text is.
fn mode_of(alloc: Global, text: &[u8]) -> Result<Mode, OptionsError>
    ensures ok { IfOk result (λ m. mode_of text.now ≡ Some (mode_view m)) }
    ensures err { IfErr result (λ e. (e ≡ error.NoMemory) ⊎ ((e ≡ error.BadMode) × (mode_of text.now ≡ None))) }
{
    if text == b"regular".as_slice() {
        return Ok(Mode::Regular);
    }
    if text == b"socks5".as_slice() {
        return Ok(Mode::Socks);
    }
    if is_reverse(text) {
        return reverse_to(alloc, &text[8..]);
    }
    if is_upstream(text) {
        return upstream_to(alloc, &text[9..]);
    }
    Err(OptionsError::BadMode)
}

// The text begins with `reverse:`.
fn is_reverse(text: &[u8]) -> bool
    ensures value { result ≡ is_reverse text.now }
    ensures long { IsTrue result → 8 ≤ length text.now }
{
    text.len() >= 8 && &text[..8] == b"reverse:".as_slice()
}

// The text begins with `upstream:`.
fn is_upstream(text: &[u8]) -> bool
    ensures value { result ≡ is_upstream text.now }
    ensures long { IsTrue result → 9 ≤ length text.now }
{
    text.len() >= 9 && &text[..9] == b"upstream:".as_slice()
}

// Reverse mode to the server that a URL is.
fn reverse_to(alloc: Global, url: &[u8]) -> Result<Mode, OptionsError>
    ensures ok { IfOk result (λ m. option_map reverse (server_at url.now) ≡ Some (mode_view m)) }
    ensures err { IfErr result (λ e. (e ≡ error.NoMemory) ⊎ ((e ≡ error.BadMode) × (option_map reverse (server_at url.now) ≡ None))) }
{
    match server_at(alloc, url) {
        Ok(server) => Ok(Mode::Reverse(server)),
        Err(e) => Err(e),
    }
}

// Upstream mode to the proxy that a URL is.
fn upstream_to(alloc: Global, url: &[u8]) -> Result<Mode, OptionsError>
    ensures ok { IfOk result (λ m. option_map upstream (server_at url.now) ≡ Some (mode_view m)) }
    ensures err { IfErr result (λ e. (e ≡ error.NoMemory) ⊎ ((e ≡ error.BadMode) × (option_map upstream (server_at url.now) ≡ None))) }
{
    match server_at(alloc, url) {
        Ok(proxy) => Ok(Mode::Upstream(proxy)),
        Err(e) => Err(e),
    }
}

// The server that a URL is.
fn server_at(alloc: Global, url: &[u8]) -> Result<Address, OptionsError>
    ensures ok { IfOk result (λ a. server_at url.now ≡ Some (a.host, a.port)) }
    ensures err { IfErr result (λ e. (e ≡ error.NoMemory) ⊎ ((e ≡ error.BadMode) × (server_at url.now ≡ None))) }
{
    match read_target(alloc, b"GET", url) {
        Ok(target) => match server_in(target) {
            Some(address) => Ok(address),
            None => Err(OptionsError::BadMode),
        },
        Err(TargetError::BadTarget) => Err(OptionsError::BadMode),
        Err(TargetError::NoMemory) => Err(OptionsError::NoMemory),
    }
}

// The server alone that a target names.
fn server_in(target: Target) -> Option<Address>
    ensures { option_map (λ a. (a.host, a.port)) result ≡ server_in (form_of target) }
{
    match target {
        Target::Absolute(address, path) => {
            if path.bytes() == b"/".as_slice() {
                Some(address)
            } else {
                None
            }
        }
        _ => None,
    }
}
