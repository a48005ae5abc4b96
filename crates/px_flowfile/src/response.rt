//! The dictionary of a response.
ghost use Rattle.std.specs.Prelude.{◌≡◌, ◌⊎◌, IfOk, IfErr};
ghost use Rattle.px_tnet.specs.View.{paired, pairs_view, view};
ghost use Rattle.px_flowfile.specs.Answered.{response_parts, response_table};
ghost use Rattle.px_flowfile.specs.Kind.{or_null};
ghost use Rattle.px_flowfile.specs.Table.{IsRefusedBy, Meets, ReadsAt, RefusesAt, dictionary};
ghost use Rattle.px_flowfile.specs.declared.error.FlowFileError.TheVariants as error;
ghost use Rattle.px_flowfile.specs.declared.key.Key.TheVariants as key;

use crate::answered::Answered;
use crate::both::both;
use crate::field_list::{headers_at, trailers_at};
use crate::find::{dict_in, find};
use crate::held::Held;
use crate::message::{content_at, reason_at};
use crate::simple::{optional_moment_at, status_at, version_at};
use crate::{FlowFileError, Key};
use px_message::{Fields, Response, Shared, Status, Value, Version};
use px_tnet::{Tnet, TnetDict};
use std::alloc::Global;

/// The response of a flow with its moments, or nothing.
pub(crate) fn response_at(alloc: Global, dict: &TnetDict) -> Result<Option<Answered>, FlowFileError>
    ensures ok { IfOk result (λ r. ReadsAt key.Response (or_null (dictionary response_table)) (pairs_view (paired dict.now)) r) }
    ensures err { IfErr result (λ e. (e ≡ error.NoMemory)
        ⊎ RefusesAt key.Response (or_null (dictionary response_table)) (pairs_view (paired dict.now)) e) }
{
    read_optional_response(alloc, Key::Response, find(dict, Key::Response)?)
}

fn read_optional_response(
    alloc: Global,
    key: Key,
    tree: &Tnet,
) -> Result<Option<Answered>, FlowFileError>
    ensures ok { IfOk result (λ r. (or_null (dictionary response_table)).Reads (view tree.now) r) }
    ensures err { IfErr result (λ e. (e ≡ error.NoMemory) ⊎ (or_null (dictionary response_table)).Refuses key (view tree.now) e) }
{
    match tree {
        Tnet::Null => Ok(None),
        tree => Ok(Some(read_response(alloc, dict_in(key, tree)?)?)),
    }
}

// The response with its moments. Each line is read by itself, and the first that is refused tells.
fn read_response(alloc: Global, dict: &TnetDict) -> Result<Answered, FlowFileError>
    ensures ok { IfOk result (λ r. Meets response_table (pairs_view (paired dict.now)) r) }
    ensures err { IfErr result (λ e. (e ≡ error.NoMemory) ⊎ IsRefusedBy response_table (pairs_view (paired dict.now)) e) }
{
    let version = version_at(dict);
    let status = status_at(dict);
    let reason = reason_at(dict);
    let fields = headers_at(alloc, dict);
    let content = content_at(dict);
    let trailers = trailers_at(alloc, dict);
    let start = optional_moment_at(dict, Key::TimestampStart);
    let end = optional_moment_at(dict, Key::TimestampEnd);
    let message = both(content, both(trailers, both(start, both(end, Ok(())))));
    let read = both(version, both(status, both(reason, both(fields, message))));
    match read {
        Ok(parts) => answered_of(alloc, parts),
        Err(e) => Err(e),
    }
}

// What stands in the lines, in their order.
type Parts = (
    Version,
    (
        Status,
        (
            Value,
            (Fields, (Held, (Fields, (Option<u64>, (Option<u64>, ()))))),
        ),
    ),
);

// The response of these parts.
fn answered_of(alloc: Global, parts: Parts) -> Result<Answered, FlowFileError>
    ensures ok { IfOk result (λ r. response_parts r ≡ parts) }
    ensures err { IfErr result (λ e. e ≡ error.NoMemory) }
{
    let (version, (status, (reason, (fields, (content, (trailers, (start, (end, _)))))))) = parts;
    let response = Response {
        version,
        status,
        reason,
        fields,
        body: content.body,
        trailers,
        streamed: content.streamed,
    };
    let response = Shared::new(alloc, response)?;
    Ok(Answered {
        response,
        start,
        end,
    })
}
