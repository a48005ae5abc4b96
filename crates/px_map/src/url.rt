//! A request's URL, and the change of it with the field `Host`.
ghost use Rattle.std.specs.Prelude.{◌≡◌, ◌++◌, codes, Some, None, Err, IfOk, OnOk};
ghost use Rattle.px_message.specs.Length.{stands};
ghost use Rattle.px_message.specs.Target.{absolute_form};
ghost use Rattle.px_message.specs.Url.{port_suffix};
ghost use Rattle.px_map.specs.Url.{IsSameButFields, host_text, hosted, moved};

use px_message::{Fields, Host, Name, Request, Shared, UrlError, Value};
use px_text::{NoMemory, push_decimal};
use std::alloc::Global;

// The request with another URL, which copies of the flow may share.
pub(crate) fn share_moved(
    alloc: Global,
    request: &Request,
    url: &[u8],
) -> Result<Shared<Request>, UrlError>
    ensures moved { IfOk result (λ shared. moved request.now (absolute_form url.now) ≡ Some shared) }
    ensures refused { result ≡ Err UrlError.NotPlainHttp → moved request.now (absolute_form url.now) ≡ None }
{
    let changed = moved(alloc, request, url)?;
    match Shared::new(alloc, changed) {
        Ok(shared) => Ok(shared),
        Err(NoMemory) => Err(UrlError::NoMemory),
    }
}

// The request with another URL.
fn moved(alloc: Global, request: &Request, url: &[u8]) -> Result<Request, UrlError>
    ensures moved { IfOk result (λ changed. moved request.now (absolute_form url.now) ≡ Some changed) }
    ensures refused { result ≡ Err UrlError.NotPlainHttp → moved request.now (absolute_form url.now) ≡ None }
{
    let Ok(mut changed) = request.try_clone() else {
        return Err(UrlError::NoMemory);
    };
    changed.set_url(url)?;
    match set_host(alloc, &mut changed) {
        Ok(()) => Ok(changed),
        Err(NoMemory) => Err(UrlError::NoMemory),
    }
}

// Sets the field `Host`, where it stands, to the request's own host and port.
fn set_host(alloc: Global, request: &mut Request) -> Result<(), NoMemory>
    ensures fields { OnOk result (request.new.fields ≡ hosted request.old.host request.old.port request.old.fields) }
    ensures others { OnOk result (IsSameButFields request.old request.new) }
{
    if !has_host(&request.fields) {
        return Ok(());
    }
    let value = host_value(alloc, &request.host, request.port)?;
    let name = Name::of_token(alloc, b"Host")?;
    request.fields.set(name, value)
}

// Whether the field `Host` stands.
fn has_host(fields: &Fields) -> bool
    ensures { result ≡ stands (codes "Host") fields.now }
{
    fields.get_all(b"Host").next().is_some()
}

// What the field `Host` says of this host and port.
fn host_value(alloc: Global, host: &Host, port: u16) -> Result<Value, NoMemory>
    ensures { IfOk result (λ value. value ≡ host_text host.now port) }
{
    let mut text = Vec::from_slice(alloc, host.bytes())?;
    append_port(&mut text, port)?;
    Value::of_text(alloc, &text)
}

// Appends a colon and the port, unless it is 80.
fn append_port(text: &mut Vec<u8>, port: u16) -> Result<(), NoMemory>
    ensures { OnOk result (text.new.items ≡ text.old.items ++ port_suffix port) }
{
    if port != 80 {
        text.push(b':')?;
        push_decimal(text, port as u64)?;
    }
    Ok(())
}
