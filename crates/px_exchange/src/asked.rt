//! What a head asks for: a tunnel, or a request. Its target is judged, then its length, and the expectation is taken out that
//! this proxy meets itself. Of a CONNECT the target alone is judged (RFC 9110 section 9.3.6).
ghost use Rattle.std.specs.Prelude.{◌≡◌, ◌≢◌, ◌∷◌, [], IfOk, Some};
ghost use Rattle.px_message.specs.Target.{target_form};
ghost use Rattle.px_read.specs.Heads.{connect_method};
ghost use Rattle.px_write.specs.TargetPath.{path_said};
ghost use Rattle.px_exchange.specs.Requests.{expects, fields_asked, is_head, is_http11, goal_at, goal_in, judged, judged_tunnel, request_of, tunnel_at, tunnel_in, unless_met, with_path};

use crate::Place;
use px_message::{
    Address, Body, Fault, Fields, Path, Request, Target, TargetError, Version, length_of_request,
    read_target,
};
use px_read::RequestHead;
use px_text::{Bytes, NoMemory};
use std::alloc::Global;

/// What is made of a head.
#[derive(Debug, Drop)]
pub enum Judged {
    /// A fault that makes no flow.
    Refused(Fault),
    /// The request of a flow, without its body.
    Accepted(Request),
    /// A CONNECT: where it asks for a tunnel to (RFC 9110 section 9.3.6).
    Connects(Address),
}

/// Whether the method is HEAD.
pub fn is_head(method: &[u8]) -> bool
    ensures { result ≡ is_head method.now }
{
    method == b"HEAD".as_slice()
}

/// Whether the version is 1.1.
pub fn is_http11(version: Version) -> bool
    ensures { result ≡ is_http11 version }
{
    match version {
        Version::Http10 => false,
        Version::Http11 => true,
    }
}

/// Whether the request asks for an answer before its body is sent (RFC 9110 section 10.1.1).
pub fn expects(head: &RequestHead) -> bool
    ensures { result ≡ expects head.now }
{
    is_http11(head.version) && head.fields.has_value(b"Expect", b"100-continue")
}

/// What this head makes, where it is asked at this place.
///
/// `Refused` has the fault `BadTarget` where the target has no form that is allowed there: for CONNECT a host and a port, at
/// all places but `Place::Fixed`; for any other method what the place says (RFC 9112 section 3.2). Else it has the fault of
/// framing fields that contradict themselves (section 6.3), which are not looked at in a CONNECT.
pub fn judge(alloc: Global, place: &Place, head: RequestHead) -> Result<Judged, NoMemory>
    ensures { IfOk result (λ made. made ≡ judged place.now head) }
{
    if head.method.bytes() == b"CONNECT".as_slice() {
        return Ok(judge_tunnel(find_tunnel(alloc, place, &head)?));
    }
    let Some((address, path)) = find_goal(alloc, place, &head)? else {
        return Ok(Judged::Refused(Fault::BadTarget));
    };
    if let Err(fault) = length_of_request(&head.fields) {
        return Ok(Judged::Refused(fault));
    }
    Ok(Judged::Accepted(accept(alloc, address, head, path)?))
}

// A CONNECT by where it asks for a tunnel to.
fn judge_tunnel(tunnel: Option<Address>) -> Judged
    ensures { result ≡ judged_tunnel tunnel }
{
    match tunnel {
        Some(address) => Judged::Connects(address),
        None => Judged::Refused(Fault::BadTarget),
    }
}

// Where a CONNECT asks for a tunnel to, if one may be asked for at this place.
fn find_tunnel(
    alloc: Global,
    place: &Place,
    head: &RequestHead,
) -> Result<Option<Address>, NoMemory>
    ensures { IfOk result (λ tunnel. tunnel ≡ tunnel_at place.now (target_form head.now.method head.now.target)) }
{
    match place {
        Place::Fixed { .. } => Ok(None),
        Place::Regular => named_tunnel(alloc, head.method.bytes(), head.target.as_slice()),
        Place::Upstream(_) => named_tunnel(alloc, head.method.bytes(), head.target.as_slice()),
    }
}

// What a target in authority form names.
fn named_tunnel(alloc: Global, method: &[u8], target: &[u8]) -> Result<Option<Address>, NoMemory>
    ensures { IfOk result (λ tunnel. tunnel ≡ tunnel_in (target_form method.now target.now)) }
{
    match read_target(alloc, method, target) {
        Ok(Target::Authority(address)) => Ok(Some(address)),
        Ok(_) => Ok(None),
        Err(TargetError::BadTarget) => Ok(None),
        Err(TargetError::NoMemory) => Err(NoMemory),
    }
}

// Where a request goes, and its path, if its target is in a form that is allowed at this place.
fn find_goal(
    alloc: Global,
    place: &Place,
    head: &RequestHead,
) -> Result<Option<(Address, Path)>, NoMemory>
    ensures { IfOk result (λ goal. goal ≡ goal_at place.now (target_form head.now.method head.now.target)) }
{
    let method = head.method.bytes();
    let target = head.target.as_slice();
    match place {
        Place::Fixed { address, .. } => fixed_goal(alloc, address, method, target),
        Place::Regular => named_goal(alloc, method, target),
        Place::Upstream(_) => named_goal(alloc, method, target),
    }
}

// This address, with the path of the target.
fn fixed_goal(
    alloc: Global,
    address: &Address,
    method: &[u8],
    target: &[u8],
) -> Result<Option<(Address, Path)>, NoMemory>
    ensures { IfOk result (λ goal. goal ≡ with_path (Some address.now) (path_said (target_form method.now target.now))) }
{
    match allowed_path(alloc, method, target)? {
        Some(path) => Ok(Some((address.try_clone()?, path))),
        None => Ok(None),
    }
}

// What a target in absolute form names.
fn named_goal(
    alloc: Global,
    method: &[u8],
    target: &[u8],
) -> Result<Option<(Address, Path)>, NoMemory>
    ensures { IfOk result (λ goal. goal ≡ goal_in (target_form method.now target.now)) }
{
    match read_target(alloc, method, target) {
        Ok(Target::Absolute(address, path)) => Ok(Some((address, path))),
        Ok(_) => Ok(None),
        Err(TargetError::BadTarget) => Ok(None),
        Err(TargetError::NoMemory) => Err(NoMemory),
    }
}

// The path of a target in a form that a server gets.
fn allowed_path(alloc: Global, method: &[u8], target: &[u8]) -> Result<Option<Path>, NoMemory>
    ensures { IfOk result (λ path. path ≡ path_said (target_form method.now target.now)) }
{
    match read_target(alloc, method, target) {
        Ok(Target::Origin(path)) => Ok(Some(path)),
        Ok(Target::Absolute(_, path)) => Ok(Some(path)),
        Ok(Target::Asterisk) => Ok(Some(asterisk(alloc)?)),
        Ok(Target::Authority(_)) => Ok(None),
        Err(TargetError::BadTarget) => Ok(None),
        Err(TargetError::NoMemory) => Err(NoMemory),
    }
}

fn asterisk(alloc: Global) -> Result<Path, NoMemory>
    ensures { IfOk result (λ path. path ≡ (42 ∷ [])) }
{
    match Path::from_bytes(Bytes::copied(alloc, b"*")?) {
        Ok(path) => Ok(path),
        Err(_) => unreachable!(),
    }
}

// The request of a head that is accepted, without its expectation.
fn accept(
    alloc: Global,
    address: Address,
    head: RequestHead,
    path: Path,
) -> Result<Request, NoMemory>
    requires not_connect { head.method ≢ connect_method }
    ensures { (not_connect : head.method ≢ connect_method) → IfOk result (λ request. request ≡ request_of address head path not_connect) }
{
    let expected = expects(&head);
    let fields = without_expectation(expected, head.fields)?;
    Ok(Request {
        method: head.method,
        host: address.host,
        port: address.port,
        path,
        version: head.version,
        fields,
        body: Body::empty(),
        trailers: Fields::new(alloc),
        streamed: false,
    })
}

// The fields without the expectation, where it is met.
fn without_expectation(expected: bool, fields: Fields) -> Result<Fields, NoMemory>
    ensures { IfOk result (λ left. left ≡ unless_met expected fields) }
{
    let mut fields = fields;
    if expected {
        fields.remove_value(b"Expect", b"100-continue")?;
    }
    Ok(fields)
}
