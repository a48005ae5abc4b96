//! The cookie that a `Set-Cookie` sets (RFC 6265 section 5.2).
ghost use Rattle.std.specs.Prelude.{◌≡◌, true, drop, map, filter, codes, if◌then◌else◌, IfOk};
ghost use Rattle.px_message.specs.Fields.{trim_blanks};
ghost use Rattle.px_message.specs.Value.{is_value};
ghost use Rattle.px_refresh.specs.Cookies.{cookie_in, gives_path, last_or, names_cookie, paths_in};

use crate::blanks::{cut, trim_blanks};
use crate::key::{CookieKey, Site};
use px_message::Value;
use px_text::{Bytes, NoMemory, eq_ignore_case};
use std::alloc::Global;

/// The cookie of the site that the value of a `Set-Cookie` sets, if it names one. All parts are copied out.
pub fn read_cookie(
    alloc: Global,
    site: &Site,
    text: &[u8],
) -> Result<Option<(CookieKey, Value)>, NoMemory>
    requires { is_value text.now ≡ true }
    ensures { IfOk result (λ cookie. cookie ≡ cookie_in site.now text.now) }
{
    let (pair, attributes) = cut(text, b';');
    let pair = trim_blanks(pair);
    if !names_cookie(pair) {
        return Ok(None);
    }
    let (name, value) = cut(pair, b'=');
    let name = trimmed(alloc, name)?;
    let value = trimmed(alloc, value)?;
    let path = Bytes::copied(alloc, path_in(attributes))?;
    Ok(Some((CookieKey::new(site.try_clone()?, path, name), value)))
}

// Whether the pair has a `=`, and a name in front of it.
fn names_cookie(pair: &[u8]) -> bool
    ensures { result ≡ names_cookie pair.now }
{
    let (name, _) = cut(pair, b'=');
    pair.contains(&b'=') && !trim_blanks(name).is_empty()
}

// A copy of the text without the blanks around it.
fn trimmed(alloc: Global, text: &[u8]) -> Result<Value, NoMemory>
    requires { is_value text.now ≡ true }
    ensures { IfOk result (λ value. value ≡ trim_blanks text.now) }
{
    Value::of_text(alloc, trim_blanks(text))
}

// The path of the last of the attributes that gives one, or else `/`.
fn path_in(attributes: &[u8]) -> &[u8]
    ensures { result.now ≡ last_or (codes "/") (paths_in attributes.now) }
{
    let mut path: &[u8] = b"/".as_slice();
    let mut rest = attributes;
    while let Some(i) = rest.iter().position(|b| *b == b';') {
        path = path_or(trim_blanks(&rest[..i]), path);
        rest = &rest[i + 1..];
    }
    path_or(trim_blanks(rest), path)
}

// The path that the attribute gives, or else this one.
fn path_or<'a>(attribute: &'a [u8], other: &'a [u8]) -> &'a [u8]
    ensures { result.now ≡ (if gives_path attribute.now then drop 5 attribute.now else other.now) }
{
    if gives_path(attribute) {
        &attribute[5..]
    } else {
        other
    }
}

// Whether the attribute begins with `path=`, in any case, and goes on with `/`.
fn gives_path(attribute: &[u8]) -> bool
    ensures { result ≡ gives_path attribute.now }
{
    if attribute.len() < 6 {
        return false;
    }
    eq_ignore_case(&attribute[..5], b"path=".as_slice()) && attribute[5] == b'/'
}
