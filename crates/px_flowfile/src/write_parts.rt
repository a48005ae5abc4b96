//! Dictionaries in a flow's, as trees.
ghost use Rattle.std.specs.Prelude.{◌≡◌, IfOk, OnOk};
ghost use Rattle.px_tnet.specs.Tree.{Pairs};
ghost use Rattle.px_tnet.specs.View.{pairs_view, view};
ghost use Rattle.px_flowfile.specs.Answered.{response_table};
ghost use Rattle.px_flowfile.specs.Asked.{request_table};
ghost use Rattle.px_flowfile.specs.Ends.{end_table, error_table};
ghost use Rattle.px_flowfile.specs.Ends as ends;
ghost use Rattle.px_flowfile.specs.Kind.{or_null};
ghost use Rattle.px_flowfile.specs.Table.{dictionary, lines};
ghost use Rattle.px_flowfile.specs.Unknown.{joined};

use crate::Key;
use crate::put::{
    dict_tree, put, put_blob, put_moment, put_number, put_optional_moment, put_version,
};
use crate::put_message::{put_content, put_headers, put_trailers, two_trees};
use px_message::{Address, FlowError, Request, Response, Shared};
use px_text::{Bytes, NoMemory};
use px_tnet::{Tnet, TnetKey};
use std::alloc::Global;

/// The tree of a request with its moments.
pub(crate) fn request_tree(
    alloc: Global,
    request: &Request,
    start: u64,
    end: Option<u64>,
) -> Result<Tnet, NoMemory>
    ensures { IfOk result (λ t. view t ≡ (dictionary request_table).write (record { request = request.now; start = start; end = end })) }
{
    let mut pairs = Vec::new(alloc);
    put_request(alloc, &mut pairs, request, start, end)?;
    Ok(dict_tree(pairs))
}

fn put_request(
    alloc: Global,
    pairs: &mut Vec<(TnetKey, Tnet)>,
    request: &Request,
    start: u64,
    end: Option<u64>,
) -> Result<(), NoMemory>
    ensures { OnOk result ((more : Pairs) → joined (pairs_view pairs.new.items) more
        ≡ joined (pairs_view pairs.old.items) (lines request_table (record { request = request.now; start = start; end = end }) more)) }
{
    put_version(alloc, pairs, request.version)?;
    put_headers(alloc, pairs, &request.fields)?;
    put_content(alloc, pairs, request.streamed, &request.body)?;
    put_trailers(alloc, pairs, &request.trailers)?;
    put_moment(alloc, pairs, Key::TimestampStart, start)?;
    put_optional_moment(alloc, pairs, Key::TimestampEnd, end)?;
    put_blob(alloc, pairs, Key::Host, request.host.bytes())?;
    put_number(alloc, pairs, Key::Port, request.port as u64)?;
    put_blob(alloc, pairs, Key::Method, request.method.bytes())?;
    put_blob(alloc, pairs, Key::Scheme, b"http")?;
    put_blob(alloc, pairs, Key::Authority, b"")?;
    put_blob(alloc, pairs, Key::Path, request.path.bytes())?;
    Ok(())
}

/// The tree of a response with its moments.
pub(crate) fn response_tree(
    alloc: Global,
    response: &Response,
    start: Option<u64>,
    end: Option<u64>,
) -> Result<Tnet, NoMemory>
    ensures { IfOk result (λ t. view t ≡ (dictionary response_table).write (record { response = response.now; start = start; end = end })) }
{
    let mut pairs = Vec::new(alloc);
    put_response(alloc, &mut pairs, response, start, end)?;
    Ok(dict_tree(pairs))
}

fn put_response(
    alloc: Global,
    pairs: &mut Vec<(TnetKey, Tnet)>,
    response: &Response,
    start: Option<u64>,
    end: Option<u64>,
) -> Result<(), NoMemory>
    ensures { OnOk result ((more : Pairs) → joined (pairs_view pairs.new.items) more
        ≡ joined (pairs_view pairs.old.items) (lines response_table (record { response = response.now; start = start; end = end }) more)) }
{
    put_version(alloc, pairs, response.version)?;
    put_number(alloc, pairs, Key::StatusCode, response.status.code() as u64)?;
    put_blob(alloc, pairs, Key::Reason, response.reason.bytes())?;
    put_headers(alloc, pairs, &response.fields)?;
    put_content(alloc, pairs, response.streamed, &response.body)?;
    put_trailers(alloc, pairs, &response.trailers)?;
    put_optional_moment(alloc, pairs, Key::TimestampStart, start)?;
    put_optional_moment(alloc, pairs, Key::TimestampEnd, end)?;
    Ok(())
}

/// The tree of what ended a flow, or nothing.
pub(crate) fn error_tree(alloc: Global, error: &Option<Shared<FlowError>>) -> Result<Tnet, NoMemory>
    ensures { IfOk result (λ t. view t ≡ (or_null (dictionary error_table)).write error.now) }
{
    match error {
        Some(error) => told_tree(alloc, error.get()),
        None => Ok(Tnet::Null),
    }
}

fn told_tree(alloc: Global, error: &FlowError) -> Result<Tnet, NoMemory>
    ensures { IfOk result (λ t. view t ≡ (dictionary error_table).write error.now) }
{
    let mut pairs = Vec::new(alloc);
    put_error(alloc, &mut pairs, error)?;
    Ok(dict_tree(pairs))
}

fn put_error(
    alloc: Global,
    pairs: &mut Vec<(TnetKey, Tnet)>,
    error: &FlowError,
) -> Result<(), NoMemory>
    ensures { OnOk result ((more : Pairs) → joined (pairs_view pairs.new.items) more
        ≡ joined (pairs_view pairs.old.items) (lines error_table error.now more)) }
{
    put_blob(alloc, pairs, Key::Msg, error.msg.as_slice())?;
    put_moment(alloc, pairs, Key::Timestamp, error.moment)?;
    Ok(())
}

/// The tree of where a client or a server is, or nothing.
pub(crate) fn end_tree(alloc: Global, end: &Option<Shared<Address>>) -> Result<Tnet, NoMemory>
    ensures { IfOk result (λ t. view t ≡ (or_null (dictionary end_table)).write end.now) }
{
    match end {
        Some(address) => address_tree(alloc, address.get()),
        None => Ok(Tnet::Null),
    }
}

fn address_tree(alloc: Global, address: &Address) -> Result<Tnet, NoMemory>
    ensures { IfOk result (λ t. view t ≡ (dictionary end_table).write address.now) }
{
    let mut pairs = Vec::new(alloc);
    put(alloc, &mut pairs, Key::Address, place_tree(alloc, address)?)?;
    Ok(dict_tree(pairs))
}

fn place_tree(alloc: Global, address: &Address) -> Result<Tnet, NoMemory>
    ensures { IfOk result (λ t. view t ≡ ends.place.write address.now) }
{
    let host = Bytes::copied(alloc, address.host.bytes())?;
    two_trees(alloc, Tnet::Blob(host), Tnet::Int(address.port as i64))
}
