//! What becomes of a request that no recorded one answers.
ghost use Rattle.std.specs.Prelude.{◌≡◌, ◌⊎◌, true, Some, Ok, Err, IfOk, IfErr};
ghost use Rattle.px_message.specs.Status.{is_status};
ghost use Rattle.px_replay.specs.declared.replay.Extra.TheVariants as extras;
ghost use Rattle.toml.specs.View.{view};
ghost use Rattle.px_options.specs.Replay.{extra, extra_of};
ghost use Rattle.px_options.specs.declared.error.OptionsError.TheVariants as error;

use crate::OptionsError;
use crate::error::wrong_kind;
use crate::key::Key;
use px_message::Status;
use px_replay::Extra;
use std::alloc::Global;
use toml::Value;

/// What a value says of such a request.
pub(crate) fn read_extra(alloc: Global, key: Key, value: &Value) -> Result<Extra, OptionsError>
    ensures ok { IfOk result (λ x. extra key (view value.now) ≡ Ok x) }
    ensures err { IfErr result (λ e. (e ≡ error.NoMemory) ⊎ (extra key (view value.now) ≡ Err e)) }
{
    match value.as_str() {
        Some(text) => match extra_of(text.as_bytes()) {
            Some(extra) => Ok(extra),
            None => Err(wrong_kind(alloc, key)),
        },
        None => Err(wrong_kind(alloc, key)),
    }
}

// What a text says of it.
fn extra_of(text: &[u8]) -> Option<Extra>
    ensures { result ≡ extra_of text.now }
{
    if text == b"forward".as_slice() {
        return Some(Extra::Forward);
    }
    if text == b"kill".as_slice() {
        return Some(Extra::Kill);
    }
    if text == b"204".as_slice() {
        return answered(204);
    }
    if text == b"400".as_slice() {
        return answered(400);
    }
    if text == b"404".as_slice() {
        return answered(404);
    }
    if text == b"500".as_slice() {
        return answered(500);
    }
    None
}

// That it is answered with this status.
fn answered(code: u16) -> Option<Extra>
    requires { is_status code ≡ true }
    ensures { result ≡ Some (extras.Code code) }
{
    match Status::try_new(code) {
        Some(status) => Some(Extra::Code(status)),
        None => None,
    }
}
