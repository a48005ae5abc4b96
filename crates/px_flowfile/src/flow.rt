//! The dictionary of a flow, in its two forms.
ghost use Rattle.std.specs.Prelude.{◌≡◌, ◌⊎◌, None, IfOk, IfErr};
ghost use Rattle.px_tnet.specs.View.{paired, pairs_view};
ghost use Rattle.px_flowfile.specs.FlowTable.{IsBare, IsRefusedFlow, answered_by, flow_parts, flow_table, lines_of};
ghost use Rattle.px_flowfile.specs.Table.{IsRefusedBy, Meets};
ghost use Rattle.px_flowfile.specs.declared.error.FlowFileError.TheVariants as error;
ghost use Rattle.px_flowfile.specs.declared.form.Form.{Form};

use crate::answered::Answered;
use crate::asked::Asked;
use crate::both::both;
use crate::ends::{end_at, error_at};
use crate::form::Form;
use crate::request::request_at;
use crate::response::response_at;
use crate::simple::{form_at, id_at, replay_at, truth_at, type_at};
use crate::socket::Socket;
use crate::sockets::socket_at;
use crate::{FlowFileError, Key};
use px_message::{Address, Flow, FlowError, FlowId, Replayed, Response, Shared, Times};
use px_tnet::TnetDict;
use std::alloc::Global;

/// The flow, by the table of the form that it tells.
pub(crate) fn flow_in(alloc: Global, dict: &TnetDict) -> Result<Flow, FlowFileError>
    ensures ok { IfOk result (λ r. (f : Form) × Meets (flow_table f) (pairs_view (paired dict.now)) r) }
    ensures bare { IfOk result (λ r. IsBare r) }
    ensures err { IfErr result (λ e. (e ≡ error.NoMemory) ⊎ IsRefusedFlow (pairs_view (paired dict.now)) e) }
{
    let form = form_at(dict)?;
    flow_by(alloc, dict, form)
}

// What stands behind the version. Each line is read by itself, and the first that is refused tells.
fn flow_by(alloc: Global, dict: &TnetDict, form: Form) -> Result<Flow, FlowFileError>
    ensures ok { IfOk result (λ r. Meets (lines_of form) (pairs_view (paired dict.now)) r) }
    ensures bare { IfOk result (λ r. IsBare r) }
    ensures err { IfErr result (λ e. (e ≡ error.NoMemory) ⊎ IsRefusedBy (lines_of form) (pairs_view (paired dict.now)) e) }
{
    let of_type = type_at(dict);
    let id = id_at(dict);
    let client = end_at(alloc, dict, Key::ClientConn);
    let server = end_at(alloc, dict, Key::ServerConn);
    let request = request_at(alloc, dict);
    let response = response_at(alloc, dict);
    let error = error_at(alloc, dict);
    let replayed = replay_at(dict);
    let marked = truth_at(dict, Key::Marked);
    let socket = socket_at(alloc, dict, form);
    let marks = both(replayed, both(marked, both(socket, Ok(()))));
    let messages = both(request, both(response, both(error, marks)));
    let read = both(of_type, both(id, both(client, both(server, messages))));
    match read {
        Ok(parts) => Ok(flow_of(parts)),
        Err(e) => Err(e),
    }
}

// What stands in the lines, in their order.
type Parts = (
    (),
    (
        FlowId,
        (
            Option<Shared<Address>>,
            (
                Option<Shared<Address>>,
                (
                    Asked,
                    (
                        Option<Answered>,
                        (Option<Shared<FlowError>>, (Replayed, (bool, (Socket, ())))),
                    ),
                ),
            ),
        ),
    ),
);

// The flow of these parts.
fn flow_of(parts: Parts) -> Flow
    ensures parts { flow_parts result ≡ parts }
    ensures bare { IsBare result }
{
    let (
        _,
        (id, (client, (server, (asked, (answered, (error, (replayed, (marked, (socket, _))))))))),
    ) = parts;
    let (response, response_start, response_end) = opened(answered);
    let times = Times {
        request_start: asked.start,
        request_end: asked.end,
        response_start,
        response_end,
    };
    Flow {
        id,
        client,
        server,
        request: asked.request,
        response,
        error,
        times,
        replayed,
        marked,
        websocket: socket.websocket,
        message: None,
        messages: socket.messages,
    }
}

// The response and its moments, which are none without one.
fn opened(answered: Option<Answered>) -> (Option<Shared<Response>>, Option<u64>, Option<u64>)
    ensures same { answered_by result.1 result.2 result.0 ≡ answered }
    ensures no_start { result.0 ≡ None → result.1 ≡ None }
    ensures no_end { result.0 ≡ None → result.2 ≡ None }
{
    match answered {
        None => (None, None, None),
        Some(answered) => (Some(answered.response), answered.start, answered.end),
    }
}
