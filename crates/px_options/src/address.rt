//! Addresses.
ghost use Rattle.std.specs.Prelude.{◌≡◌, ◌⊎◌, None, Some, Ok, Err, IfOk, IfErr, option_map, codes};
ghost use Rattle.px_message.specs.Target.{authority_form, form_of};
ghost use Rattle.toml.specs.View.{view};
ghost use Rattle.px_options.specs.Keys.{name_of};
ghost use Rattle.px_options.specs.Parts.{authority_in};
ghost use Rattle.px_options.specs.Values.{address, some_address};
ghost use Rattle.px_options.specs.View.{place};
ghost use Rattle.px_options.specs.declared.error.OptionsError.TheVariants as error;

use crate::OptionsError;
use crate::error::wrong_kind;
use crate::key::Key;
use px_message::{Address, BadHost, Host, Target, TargetError, read_target};
use std::alloc::Global;
use toml::Value;

/// The address that a value is.
pub(crate) fn read_address(alloc: Global, key: Key, value: &Value) -> Result<Address, OptionsError>
    ensures ok { IfOk result (λ a. address key (view value.now) ≡ Ok (place a)) }
    ensures err { IfErr result (λ e. (e ≡ error.NoMemory) ⊎ (address key (view value.now) ≡ Err e)) }
{
    match value.as_str() {
        Some(text) => address_of(alloc, key, text.as_bytes()),
        None => Err(wrong_kind(alloc, key)),
    }
}

/// The address that a value is, of an option that may be none.
pub(crate) fn read_some_address(
    alloc: Global,
    key: Key,
    value: &Value,
) -> Result<Address, OptionsError>
    ensures ok { IfOk result (λ a. some_address key (view value.now) ≡ Ok (Some (place a))) }
    ensures err { IfErr result (λ e. (e ≡ error.NoMemory) ⊎ (some_address key (view value.now) ≡ Err e)) }
{
    read_address(alloc, key, value)
}

// The address that a text is.
fn address_of(alloc: Global, key: Key, text: &[u8]) -> Result<Address, OptionsError>
    ensures ok { IfOk result (λ a. authority_form text.now ≡ Some (place a)) }
    ensures err { IfErr result (λ e. (e ≡ error.NoMemory) ⊎ ((e ≡ error.WrongKind (name_of key)) × (authority_form text.now ≡ None))) }
{
    match read_target(alloc, b"CONNECT", text) {
        Ok(target) => match authority_in(target) {
            Some(address) => Ok(address),
            None => Err(wrong_kind(alloc, key)),
        },
        Err(TargetError::BadTarget) => Err(wrong_kind(alloc, key)),
        Err(TargetError::NoMemory) => Err(OptionsError::NoMemory),
    }
}

// The address that a target in authority form is.
fn authority_in(target: Target) -> Option<Address>
    ensures { option_map place result ≡ authority_in (form_of target) }
{
    match target {
        Target::Authority(address) => Some(address),
        _ => None,
    }
}

/// The address that the proxy listens at where no other is named.
pub(crate) fn default_address(alloc: Global) -> Result<Address, OptionsError>
    ensures ok { IfOk result (λ a. place a ≡ (codes "127.0.0.1", 8080)) }
    ensures err { IfErr result (λ e. e ≡ error.NoMemory) }
{
    match Host::try_new(alloc, Vec::from_slice(alloc, b"127.0.0.1")?) {
        Ok(host) => Ok(Address { host, port: 8080 }),
        Err(BadHost::NoMemory) => Err(OptionsError::NoMemory),
        Err(BadHost::Malformed(_)) => unreachable!(),
    }
}
