//! What messages are made of, read from texts in which escapes stand for bytes.
ghost use Rattle.std.specs.Prelude.{◌≢◌, IfOk};

use px_message::{Address, Body, Host, Name, Path, Status, Value, Version};
use px_rows::{RowError, unescape};
use std::alloc::Global;

pub(crate) fn name_of(alloc: Global, text: &str) -> Result<Name, RowError> {
    match Name::try_new(unescape(alloc, text)?) {
        Ok(name) => Ok(name),
        Err(_) => Err(RowError::Bad),
    }
}

pub(crate) fn value_of(alloc: Global, text: &str) -> Result<Value, RowError> {
    match Value::try_new(unescape(alloc, text)?) {
        Ok(value) => Ok(value),
        Err(_) => Err(RowError::Bad),
    }
}

pub(crate) fn host_of(alloc: Global, text: &str) -> Result<Host, RowError> {
    match Host::try_new(alloc, unescape(alloc, text)?) {
        Ok(host) => Ok(host),
        Err(_) => Err(RowError::Bad),
    }
}

pub(crate) fn path_of(alloc: Global, text: &str) -> Result<Path, RowError> {
    match Path::try_new(unescape(alloc, text)?) {
        Ok(path) => Ok(path),
        Err(_) => Err(RowError::Bad),
    }
}

pub(crate) fn body_of(alloc: Global, text: &str) -> Result<Body, RowError> {
    Ok(Body::new(unescape(alloc, text)?)?)
}

/// The status of this code.
pub fn status_of(text: &str) -> Result<Status, RowError> {
    let code = match text.parse::<u16>() {
        Ok(code) => code,
        Err(_) => return Err(RowError::Bad),
    };
    match Status::try_new(code) {
        Some(status) => Ok(status),
        None => Err(RowError::Bad),
    }
}

pub(crate) fn version_of(text: &str) -> Result<Version, RowError> {
    match text {
        "1.0" => Ok(Version::Http10),
        "1.1" => Ok(Version::Http11),
        _ => Err(RowError::Bad),
    }
}

/// A port, which is not 0.
pub(crate) fn port_of(text: &str) -> Result<u16, RowError>
    ensures { IfOk result (λ port. port ≢ 0) }
{
    let Ok(port) = text.parse::<u16>() else {
        return Err(RowError::Bad);
    };
    if port == 0 {
        return Err(RowError::Bad);
    }
    Ok(port)
}

/// The address of a host and a port, which is not 0.
pub fn address_at(alloc: Global, host: &str, port: u16) -> Result<Address, RowError> {
    if port == 0 {
        return Err(RowError::Bad);
    }
    Ok(Address {
        host: host_of(alloc, host)?,
        port,
    })
}

/// The text that these bytes are.
pub(crate) fn utf8_of(bytes: &[u8]) -> Result<&str, RowError> {
    match str::from_utf8(bytes) {
        Ok(text) => Ok(text),
        Err(_) => Err(RowError::Bad),
    }
}
