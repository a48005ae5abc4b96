//! What the types of a flow guarantee.
ghost use Rattle.std.specs.Prelude.{◌^◌, ◌<◌, IfSome};
ghost use Rattle.px_flowfile.specs.Ends.{IsPlace, end_table};
ghost use Rattle.px_flowfile.specs.FlowTable.{IsLoadable};
ghost use Rattle.px_flowfile.specs.Kind.{or_null};
ghost use Rattle.px_flowfile.specs.Plain.{IsPlain, IsValidRequest, IsValidResponse};
ghost use Rattle.px_flowfile.specs.Simple.{IsId};
ghost use Rattle.px_flowfile.specs.Table.{dictionary};

use px_message::{Address, Flow, FlowId, Request, Response, Shared, fields_are_valid};

/// A law: what the types guarantee of a flow. It is loaded as itself from its own tree where it is plain: its moments are below 2^63, a
/// body that passed by is empty, and nothing is there that no key tells. It only looks at the flow.
pub fn plain_flow_is_loadable(flow: &Flow)
    ensures { IsPlain flow.now → IsLoadable flow.now }
{
    is_id(flow.id);
    is_end(&flow.client);
    is_end(&flow.server);
    is_valid_request(flow.request.get());
    is_valid_answer(&flow.response);
}

fn is_id(id: FlowId)
    ensures { IsId id }
{
    let _ = id.conv;
    let _ = id.index;
}

fn is_end(end: &Option<Shared<Address>>)
    ensures { (or_null (dictionary end_table)).Good end.now }
{
    if let Some(address) = end {
        is_place(address.get());
    }
}

fn is_place(address: &Address)
    ensures { IsPlace address.now }
{
    let _host = address.host.bytes();
    fits(address.port);
}

// What the type says of a port.
fn fits(number: u16)
    ensures { number < 2 ^ 16 }
{
    let _ = number;
}

fn is_valid_request(request: &Request)
    ensures { IsValidRequest request.now }
{
    fields_are_valid(&request.fields);
    fields_are_valid(&request.trailers);
    let _host = request.host.bytes();
    fits(request.port);
    let _method = request.method.bytes();
    let _path = request.path.bytes();
}

fn is_valid_answer(response: &Option<Shared<Response>>)
    ensures { IfSome response.now IsValidResponse }
{
    if let Some(response) = response {
        is_valid_response(response.get());
    }
}

fn is_valid_response(response: &Response)
    ensures { IsValidResponse response.now }
{
    let _status = response.status.code();
    let _reason = response.reason.bytes();
    fields_are_valid(&response.fields);
    fields_are_valid(&response.trailers);
}
