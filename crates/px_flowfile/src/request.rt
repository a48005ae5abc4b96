//! The dictionary of a request.
ghost use Rattle.std.specs.Prelude.{◌≡◌, ◌≢◌, ◌⊎◌, codes, IfOk, IfErr};
ghost use Rattle.px_tnet.specs.View.{paired, pairs_view, view};
ghost use Rattle.px_flowfile.specs.Asked.{request_parts, request_table};
ghost use Rattle.px_flowfile.specs.Table.{IsRefusedBy, Meets, ReadsAt, RefusesAt, dictionary};
ghost use Rattle.px_flowfile.specs.declared.error.FlowFileError.TheVariants as error;
ghost use Rattle.px_flowfile.specs.declared.key.Key.TheVariants as key;

use crate::asked::Asked;
use crate::both::both;
use crate::field_list::{headers_at, trailers_at};
use crate::find::{dict_in, find};
use crate::held::Held;
use crate::message::{content_at, host_at, method_at, path_at};
use crate::simple::{authority_at, moment_at, optional_moment_at, port_at, scheme_at, version_at};
use crate::{FlowFileError, Key};
use px_message::{Fields, Host, Name, Path, Request, Shared, Version};
use px_tnet::{Tnet, TnetDict};
use std::alloc::Global;

/// The request of a flow with its moments.
pub(crate) fn request_at(alloc: Global, dict: &TnetDict) -> Result<Asked, FlowFileError>
    ensures ok { IfOk result (λ r. ReadsAt key.Request (dictionary request_table) (pairs_view (paired dict.now)) r) }
    ensures err { IfErr result (λ e. (e ≡ error.NoMemory)
        ⊎ RefusesAt key.Request (dictionary request_table) (pairs_view (paired dict.now)) e) }
{
    read_request_dict(alloc, Key::Request, find(dict, Key::Request)?)
}

fn read_request_dict(alloc: Global, key: Key, tree: &Tnet) -> Result<Asked, FlowFileError>
    ensures ok { IfOk result (λ r. (dictionary request_table).Reads (view tree.now) r) }
    ensures err { IfErr result (λ e. (e ≡ error.NoMemory) ⊎ (dictionary request_table).Refuses key (view tree.now) e) }
{
    read_request(alloc, dict_in(key, tree)?)
}

// The request with its moments. Each line is read by itself, and the first that is refused tells.
fn read_request(alloc: Global, dict: &TnetDict) -> Result<Asked, FlowFileError>
    ensures ok { IfOk result (λ r. Meets request_table (pairs_view (paired dict.now)) r) }
    ensures err { IfErr result (λ e. (e ≡ error.NoMemory) ⊎ IsRefusedBy request_table (pairs_view (paired dict.now)) e) }
{
    let version = version_at(dict);
    let fields = headers_at(alloc, dict);
    let content = content_at(dict);
    let trailers = trailers_at(alloc, dict);
    let start = moment_at(dict, Key::TimestampStart);
    let end = optional_moment_at(dict, Key::TimestampEnd);
    let host = host_at(alloc, dict);
    let port = port_at(dict);
    let method = method_at(dict);
    let scheme = scheme_at(dict);
    let authority = authority_at(dict);
    let path = path_at(dict);
    let line = both(scheme, both(authority, both(path, Ok(()))));
    let target = both(host, both(port, both(method, line)));
    let moments = both(start, both(end, target));
    let read = both(
        version,
        both(fields, both(content, both(trailers, moments))),
    );
    match read {
        Ok(parts) => asked_of(alloc, parts),
        Err(e) => Err(e),
    }
}

// What stands in the lines, in their order.
type Parts = (
    Version,
    (
        Fields,
        (
            Held,
            (
                Fields,
                (
                    u64,
                    (Option<u64>, (Host, (u16, (Name, ((), ((), (Path, ()))))))),
                ),
            ),
        ),
    ),
);

// The request of these parts.
fn asked_of(alloc: Global, parts: Parts) -> Result<Asked, FlowFileError>
    requires method { parts.1.1.1.1.1.1.1.1.0 ≢ codes "CONNECT" }
    requires port { parts.1.1.1.1.1.1.1.0 ≢ 0 }
    ensures ok { IfOk result (λ r. request_parts r ≡ parts) }
    ensures err { IfErr result (λ e. e ≡ error.NoMemory) }
{
    let (
        version,
        (
            fields,
            (content, (trailers, (start, (end, (host, (port, (method, (_, (_, (path, _)))))))))),
        ),
    ) = parts;
    let request = Request {
        method,
        host,
        port,
        path,
        version,
        fields,
        body: content.body,
        trailers,
        streamed: content.streamed,
    };
    let request = Shared::new(alloc, request)?;
    Ok(Asked {
        request,
        start,
        end,
    })
}
