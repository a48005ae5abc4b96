//! Match keys.
ghost use Rattle.std.specs.Prelude.{◌≡◌, IfOk, ◌==◌};
ghost use Rattle.px_message.specs.declared.request.Request.{Request};
ghost use Rattle.px_replay.specs.Key.{bare_path, key_of, query, unless};
ghost use Rattle.px_replay.specs.Same.{is_same_key};

use crate::KeyOptions;
use crate::ordered::{OrderedBody, OrderedBytes, OrderedHost, OrderedName};
use crate::parameters::Parameters;
use crate::values::NamedValues;
use px_message::Request;
use px_text::{Bytes, NoMemory};
use std::alloc::{AllocError, Global};

/// What counts of a request when a recorded one is looked for: its parts as they are. A part that an option ignores is none.
///
/// Keys have an order: by these parts, one after the other, each byte by byte. What tells most keys apart comes first.
#[derive(Debug, Drop, PartialEq, Eq, PartialOrd, Ord)]
pub struct MatchKey {
    path: OrderedBytes,
    parameters: Parameters,
    content: Option<OrderedBody>,
    method: OrderedName,
    host: Option<OrderedHost>,
    port: Option<u16>,
    values: NamedValues,
}

impl Clone for MatchKey {
    ghost is_clone = { λ x y. y ≡ x };

    fn clone(&self) -> Result<MatchKey, AllocError> {
        Ok(MatchKey {
            path: self.path.clone()?,
            parameters: self.parameters.clone()?,
            content: self.content.clone()?,
            method: self.method.clone()?,
            host: self.host.clone()?,
            port: self.port,
            values: self.values.clone()?,
        })
    }
}

impl MatchKey {
    /// The key of a request. Path and parameters are copied out; the other parts share the request's bytes.
    pub fn of(alloc: Global, request: &Request, how: &KeyOptions) -> Result<MatchKey, NoMemory>
        ensures { IfOk result (λ key. key ≡ key_of how.now request.now) }
    {
        let (path, query) = split_path(request.path.bytes());
        let path = Bytes::copied(alloc, path)?;
        let parameters = Parameters::of(alloc, query, &how.ignore_params)?;
        let values = NamedValues::of(alloc, &request.fields, &how.use_headers)?;
        let method = request.method.try_clone()?;
        let content = content_of(request, how)?;
        let host = host_of(request, how)?;
        Ok(MatchKey {
            path: OrderedBytes::new(path),
            parameters,
            content,
            method: OrderedName::new(method),
            host,
            port: port_of(request, how),
            values,
        })
    }

    /// Whether the two keys are equal in all parts.
    pub fn is_same(&self, other: &MatchKey) -> bool
        ensures { result ≡ is_same_key self.now other.now }
    {
        self == other
    }

    /// A copy of the same key. It shares the bytes.
    pub fn try_clone(&self) -> Result<MatchKey, NoMemory>
        ensures { IfOk result (λ copy. copy ≡ self.now) }
    {
        Ok(self.clone()?)
    }
}

// The path in front of its first `?`, and the query behind it.
fn split_path(path: &[u8]) -> (&[u8], &[u8])
    ensures bare { result.0.now ≡ bare_path path.now }
    ensures behind { result.1.now ≡ query path.now }
{
    match path.iter().position(|b| *b == b'?') {
        Some(i) => (&path[..i], &path[i + 1..]),
        None => (path, &[]),
    }
}

fn content_of(request: &Request, how: &KeyOptions) -> Result<Option<OrderedBody>, NoMemory>
    ensures { IfOk result (λ part. part ≡ unless how.now.ignore_content request.now.body) }
{
    if how.ignore_content {
        return Ok(None);
    }
    Ok(Some(OrderedBody::new(request.body.try_clone()?)))
}

fn host_of(request: &Request, how: &KeyOptions) -> Result<Option<OrderedHost>, NoMemory>
    ensures { IfOk result (λ part. part ≡ unless how.now.ignore_host request.now.host) }
{
    if how.ignore_host {
        return Ok(None);
    }
    Ok(Some(OrderedHost::new(request.host.try_clone()?)))
}

fn port_of(request: &Request, how: &KeyOptions) -> Option<u16>
    ensures { result ≡ unless how.now.ignore_port request.now.port }
{
    if how.ignore_port {
        return None;
    }
    Some(request.port)
}
