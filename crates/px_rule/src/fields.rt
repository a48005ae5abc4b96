//! The fields of a flow's request and response.
ghost use Rattle.std.specs.Prelude.{◌≡◌, true, option_map, IfOk, OnOk, OnErr};
ghost use Rattle.px_rule.specs.Header.{fields_in, response_with, with_fields};

use px_message::{Fields, Flow, Request, Response, Shared};
use px_text::NoMemory;
use std::alloc::Global;

// The fields of the response, where there is one, or those of the request.
pub(crate) fn fields_of(flow: &Flow, response: bool) -> Option<&Fields>
    ensures { option_map (λ fields. fields.now) result ≡ fields_in response flow.now }
{
    if !response {
        return Some(&flow.request.get().fields);
    }
    match &flow.response {
        Some(response) => Some(&response.get().fields),
        None => None,
    }
}

// Puts the fields of the response, where there is one, or those of the request. After `NoMemory` the flow is as before.
pub(crate) fn put_fields(
    alloc: Global,
    flow: &mut Flow,
    response: bool,
    fields: Fields,
) -> Result<(), NoMemory>
    ensures put { OnOk result (flow.new ≡ with_fields response (λ _. fields) flow.old) }
    ensures unchanged { OnErr result (flow.new ≡ flow.old) }
{
    if response {
        return put_response_fields(alloc, flow, fields);
    }
    flow.request = share_request(alloc, flow.request.get(), fields)?;
    Ok(())
}

fn put_response_fields(alloc: Global, flow: &mut Flow, fields: Fields) -> Result<(), NoMemory>
    ensures put { OnOk result (flow.new ≡ with_fields true (λ _. fields) flow.old) }
    ensures unchanged { OnErr result (flow.new ≡ flow.old) }
{
    flow.response = share_response(alloc, &flow.response, fields)?;
    Ok(())
}

// A request with other fields, which copies of the flow may share.
fn share_request(
    alloc: Global,
    request: &Request,
    fields: Fields,
) -> Result<Shared<Request>, NoMemory>
    ensures { IfOk result (λ shared. shared ≡ record request.now { fields = fields }) }
{
    let copy = request.try_clone()?;
    Shared::new(alloc, put_in_request(copy, fields))
}

fn put_in_request(request: Request, fields: Fields) -> Request
    ensures { result ≡ record request { fields = fields } }
{
    let mut changed = request;
    changed.fields = fields;
    changed
}

// A response with other fields, where there is one.
fn share_response(
    alloc: Global,
    response: &Option<Shared<Response>>,
    fields: Fields,
) -> Result<Option<Shared<Response>>, NoMemory>
    ensures { IfOk result (λ shared. shared ≡ option_map (response_with (λ _. fields)) response.now) }
{
    let Some(response) = response else {
        return Ok(None);
    };
    let mut changed = response.get().try_clone()?;
    changed.fields = fields;
    let shared = Shared::new(alloc, changed)?;
    Ok(Some(shared))
}
