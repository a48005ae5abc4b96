//! Targets of requests (RFC 9112 section 3.2).
//!
//! A target is read by its method. CONNECT has the authority form, a host and a port, and that alone. Any other method
//! has the origin form, a path; the asterisk form, `*`; or the absolute form, a whole URL of the scheme `http`. The
//! authority of a URL ends where a path or a query begins, and a URL without a path has the path `/`. Whatever has none
//! of these forms is refused.
//!
//! Each function below equals a definition of `specs/`: `absolute_form` for a URL, `authority_form` for CONNECT and
//! `target_form` for the whole.
ghost use Rattle.std.specs.Prelude.{◌≡◌, ◌≤◌, length, None, Some, Err, IfOk, IfErr, IsTrue};
ghost use Rattle.px_message.specs.Target.{
  form_of,
  target_form,
  absolute_form,
  authority_form,
  has_http_scheme,
  authority_len,
  rooted,
  path_form,
};

use crate::authority::{after_host, copy, read_address};
use crate::{Address, BadPath, Path};
use px_text::eq_ignore_case;
use std::alloc::Global;

/// The target of a request, by its form.
#[derive(Debug, Drop, PartialEq, Eq)]
pub enum Target {
    /// A path (RFC 9112 section 3.2.1).
    Origin(Path),
    /// A URL of the scheme `http` (RFC 9112 section 3.2.2).
    Absolute(Address, Path),
    /// A host and a port, of CONNECT alone (RFC 9112 section 3.2.3).
    Authority(Address),
    /// `*` (RFC 9112 section 3.2.4).
    Asterisk,
}

/// Why a target was not read.
#[derive(Clone, Copy, Debug, PartialEq, Eq)]
pub enum TargetError {
    /// It has no form that its method allows.
    BadTarget,
    /// Memory ran out; it says nothing of the target.
    NoMemory,
}

// The text begins with `http://`, in any letter case.
fn has_http_scheme(text: &[u8]) -> bool
    ensures value { result ≡ has_http_scheme text.now }
    ensures long { IsTrue result → 7 ≤ length text.now }
{
    text.len() >= 7 && eq_ignore_case(&text[..7], b"http://")
}

// Where the authority ends: at the first `/` or `?`, or at the end.
fn authority_len(rest: &[u8]) -> usize
    ensures value { result ≡ authority_len rest.now }
    ensures within { result ≤ length rest.now }
{
    rest.iter()
        .take_while(|b| !matches!(**b, b'/' | b'?'))
        .count()
}

// The path and the query behind an authority, with the `/` that an empty path stands for.
fn rooted(alloc: Global, tail: &[u8]) -> Result<Vec<u8>, TargetError>
    ensures ok { IfOk result (λ path. path.items ≡ rooted tail.now) }
    ensures err { IfErr result (λ e. e ≡ TargetError.NoMemory) }
{
    if tail.first() == Some(&b'/') {
        return copy(alloc, tail);
    }
    let mut path = copy(alloc, b"/")?;
    match path.extend_from_slice(tail) {
        Ok(()) => Ok(path),
        Err(_) => Err(TargetError::NoMemory),
    }
}

#[tactic(auto, unfolding(crate::specs::Target::path_form))]
fn read_path(path: Vec<u8>) -> Result<Path, TargetError>
    ensures ok { IfOk result (λ read. path_form path.items ≡ Some read) }
    ensures bad { result ≡ Err TargetError.BadTarget → path_form path.items ≡ None }
{
    match Path::try_new(path) {
        Ok(read) => Ok(read),
        Err(BadPath::Malformed(_)) => Err(TargetError::BadTarget),
        Err(BadPath::NoMemory) => Err(TargetError::NoMemory),
    }
}

// The host, the port and the path of a URL of the scheme `http`.
#[tactic(auto, unfolding(crate::specs::Target::absolute_form, crate::specs::Target::located))]
pub(crate) fn read_absolute(alloc: Global, text: &[u8]) -> Result<(Address, Path), TargetError>
    ensures ok { IfOk result (λ r. absolute_form text.now ≡ Some (r.0.host, r.0.port, r.1)) }
    ensures bad { result ≡ Err TargetError.BadTarget → absolute_form text.now ≡ None }
{
    if !has_http_scheme(text) {
        return Err(TargetError::BadTarget);
    }
    let rest = &text[7..];
    let (authority, tail) = rest.split_at(authority_len(rest));
    let address = read_address(alloc, authority)?;
    let path = read_path(rooted(alloc, tail)?)?;
    Ok((address, path))
}

// The host and the port of CONNECT's target.
#[tactic(auto, unfolding(crate::specs::Target::authority_form))]
fn read_authority(alloc: Global, text: &[u8]) -> Result<Address, TargetError>
    ensures ok { IfOk result (λ a. authority_form text.now ≡ Some (a.host, a.port)) }
    ensures bad { result ≡ Err TargetError.BadTarget → authority_form text.now ≡ None }
{
    if after_host(text).is_empty() {
        return Err(TargetError::BadTarget);
    }
    match read_address(alloc, text) {
        Ok(address) => Ok(address),
        Err(e) => Err(e),
    }
}

/// The target of a request of this method (RFC 9112 section 3.2). `BadTarget` exactly where the text has none of the
/// forms that the method allows: CONNECT, in this letter case, the authority form with a port; any other method the
/// origin, the asterisk or the absolute form.
#[tactic(auto, unfolding(crate::specs::Target::target_form))]
pub fn read_target(alloc: Global, method: &[u8], target: &[u8]) -> Result<Target, TargetError>
    ensures ok { IfOk result (λ t. target_form method.now target.now ≡ Some (form_of t)) }
    ensures bad { result ≡ Err TargetError.BadTarget → target_form method.now target.now ≡ None }
{
    if method == b"CONNECT".as_slice() {
        return Ok(Target::Authority(read_authority(alloc, target)?));
    }
    if target == b"*".as_slice() {
        return Ok(Target::Asterisk);
    }
    if target.first() == Some(&b'/') {
        return Ok(Target::Origin(read_path(copy(alloc, target)?)?));
    }
    let (address, path) = read_absolute(alloc, target)?;
    Ok(Target::Absolute(address, path))
}
