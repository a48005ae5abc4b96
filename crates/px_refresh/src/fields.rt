//! The fields of a flow's request.
ghost use Rattle.std.specs.Prelude.{◌≡◌, IfOk, OnOk, OnErr};
ghost use Rattle.px_refresh.specs.Fields.{with_fields};

use px_message::{Fields, Flow, Request, Shared};
use px_text::NoMemory;
use std::alloc::Global;

/// Puts the fields of the request, which copies of the flow may share. After `NoMemory` the flow is as before.
pub fn put_fields(alloc: Global, flow: &mut Flow, fields: Fields) -> Result<(), NoMemory>
    ensures put { OnOk result (flow.new ≡ with_fields (λ _. fields) flow.old) }
    ensures unchanged { OnErr result (flow.new ≡ flow.old) }
{
    flow.request = share_request(alloc, flow.request.get(), fields)?;
    Ok(())
}

fn share_request(
    alloc: Global,
    request: &Request,
    fields: Fields,
) -> Result<Shared<Request>, NoMemory>
    ensures { IfOk result (λ shared. shared ≡ record request.now { fields = fields }) }
{
    let copy = request.try_clone()?;
    Shared::new(alloc, put_in(copy, fields))
}

fn put_in(request: Request, fields: Fields) -> Request
    ensures { result ≡ record request { fields = fields } }
{
    let mut changed = request;
    changed.fields = fields;
    changed
}
