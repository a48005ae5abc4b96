//! A flow whose request has another method or URL, or whose response has another status.
ghost use Rattle.std.specs.Prelude.{◌≡◌, Some, None, option_map, IfOk, IfErr, OnOk};
ghost use Rattle.px_write.specs.Short.{reason_of};
ghost use Rattle.px_draft.specs.Edits.{IsRefusal, answered, method_by, request_by, status_by};
ghost use Rattle.px_draft.specs.Requests.{with_method, with_url};
ghost use Rattle.px_draft.specs.Words.{name_of, status_of};

use crate::EditError;
use crate::words::{name_of, status_of};
use px_message::{Flow, Name, Request, Response, Shared, Status, UrlError, Value};
use px_text::NoMemory;
use px_write::short_response;
use std::alloc::Global;

// ---- the request

/// Puts the method.
pub(crate) fn put_method(alloc: Global, flow: &mut Flow, name: &[u8]) -> Result<(), EditError>
    ensures put { OnOk result (method_by flow.old (name_of name.now) ≡ Some flow.new) }
    ensures refused { IfErr result (IsRefusal (method_by flow.old (name_of name.now))) }
{
    let name = name_of(alloc, name)?;
    put_named(alloc, flow, name)
}

fn put_named(alloc: Global, flow: &mut Flow, name: Name) -> Result<(), EditError>
    ensures put { OnOk result (request_by flow.old (with_method name flow.old.request) ≡ Some flow.new) }
    ensures refused { IfErr result (IsRefusal (request_by flow.old (with_method name flow.old.request))) }
{
    let request = share_named(alloc, flow.request.get(), name)?;
    flow.request = request;
    Ok(())
}

fn share_named(alloc: Global, request: &Request, name: Name) -> Result<Shared<Request>, EditError>
    ensures ok { IfOk result (λ shared. with_method name request.now ≡ Some shared) }
    ensures refused { IfErr result (IsRefusal (with_method name request.now)) }
{
    let changed = named(request, name)?;
    Ok(Shared::new(alloc, changed)?)
}

fn named(request: &Request, name: Name) -> Result<Request, EditError>
    ensures ok { IfOk result (λ changed. with_method name request.now ≡ Some changed) }
    ensures refused { IfErr result (IsRefusal (with_method name request.now)) }
{
    let mut changed = request.try_clone()?;
    match changed.set_method(name) {
        Ok(()) => Ok(changed),
        Err(_) => Err(EditError::BadValue),
    }
}

/// Puts the URL: host, port and path.
pub(crate) fn put_url(alloc: Global, flow: &mut Flow, text: &[u8]) -> Result<(), EditError>
    ensures put { OnOk result (request_by flow.old (with_url text.now flow.old.request) ≡ Some flow.new) }
    ensures refused { IfErr result (IsRefusal (request_by flow.old (with_url text.now flow.old.request))) }
{
    let request = share_located(alloc, flow.request.get(), text)?;
    flow.request = request;
    Ok(())
}

fn share_located(
    alloc: Global,
    request: &Request,
    text: &[u8],
) -> Result<Shared<Request>, EditError>
    ensures ok { IfOk result (λ shared. with_url text.now request.now ≡ Some shared) }
    ensures refused { IfErr result (IsRefusal (with_url text.now request.now)) }
{
    let mut changed = request.try_clone()?;
    match changed.set_url(text) {
        Ok(()) => Ok(Shared::new(alloc, changed)?),
        Err(UrlError::NotPlainHttp) => Err(EditError::BadValue),
        Err(UrlError::NoMemory) => Err(EditError::NoMemory),
    }
}

// ---- the response

/// Puts the status, with its reason in the table or none.
pub(crate) fn put_status(alloc: Global, flow: &mut Flow, text: &[u8]) -> Result<(), EditError>
    ensures put { OnOk result (status_by flow.old (status_of text.now) ≡ Some flow.new) }
    ensures refused { IfErr result (IsRefusal (status_by flow.old (status_of text.now))) }
{
    match status_of(text) {
        Some(status) => put_code(alloc, flow, status),
        None => Err(EditError::BadValue),
    }
}

fn put_code(alloc: Global, flow: &mut Flow, status: Status) -> Result<(), EditError>
    ensures put { OnOk result (status_by flow.old (Some status) ≡ Some flow.new) }
    ensures refused { IfErr result (IsRefusal (status_by flow.old (Some status))) }
{
    flow.response = share_answered(alloc, &flow.response, status)?;
    Ok(())
}

fn share_answered(
    alloc: Global,
    response: &Option<Shared<Response>>,
    status: Status,
) -> Result<Option<Shared<Response>>, NoMemory>
    ensures { IfOk result (λ shared. shared ≡ option_map (answered status) response.now) }
{
    let Some(response) = response else {
        return Ok(None);
    };
    let mut changed = response.get().try_clone()?;
    changed.status = status;
    changed.reason = reason_of(alloc, status)?;
    let shared = Shared::new(alloc, changed)?;
    Ok(Some(shared))
}

// The reason of the status: that of a response which says no more than it.
fn reason_of(alloc: Global, status: Status) -> Result<Value, NoMemory>
    ensures { IfOk result (λ reason. reason ≡ reason_of status) }
{
    let response = short_response(alloc, status)?;
    response.reason.try_clone()
}
