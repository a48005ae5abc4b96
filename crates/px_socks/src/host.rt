//! Addresses in bytes as the texts of hosts (RFC 3986 section 3.2.2).
ghost use Rattle.std.specs.Prelude.{◌≡◌, ◌<◌, ◌+◌, IfOk, length, string_bytes};
ghost use Rattle.px_socks.specs.Request as spec;

use px_text::NoMemory;
use std::alloc::Global;

/// Two bytes as one number, the higher one first.
pub(crate) fn pair(high: u8, low: u8) -> u16
    ensures { result ≡ spec.pair high low }
{
    256 * u16::from(high) + u16::from(low)
}

// The group of two bytes that begins at one of them.
fn group(address: &[u8], at: usize) -> u16
    requires { at + 1 < length address.now }
    ensures { result ≡ spec.group address.now at }
{
    pair(address[at], address[at + 1])
}

/// Four bytes in decimal digits, with dots between them.
pub(crate) fn ipv4_text(alloc: Global, address: &[u8]) -> Result<Vec<u8>, NoMemory>
    requires { length address.now ≡ 4 }
    ensures { IfOk result (λ text. text.items ≡ spec.ipv4_text address.now) }
{
    let (a, b, c, d) = (address[0], address[1], address[2], address[3]);
    let text = format!(in alloc; "{a}.{b}.{c}.{d}")?;
    Ok(text.into_bytes())
}

// Four groups in hexadecimal digits, with colons between them.
fn four_text(alloc: Global, a: u16, b: u16, c: u16, d: u16) -> Result<String, NoMemory>
    ensures { IfOk result (λ text. string_bytes text ≡ spec.four_text a b c d) }
{
    let text = format!(in alloc; "{a:x}:{b:x}:{c:x}:{d:x}")?;
    Ok(text)
}

// The four groups that begin at a byte.
fn half_text(alloc: Global, address: &[u8], at: usize) -> Result<String, NoMemory>
    requires { at + 7 < length address.now }
    ensures { IfOk result (λ text. string_bytes text ≡ spec.half_text address.now at) }
{
    let a = group(address, at);
    let b = group(address, at + 2);
    let c = group(address, at + 4);
    let d = group(address, at + 6);
    let text = four_text(alloc, a, b, c, d)?;
    Ok(text)
}

// Two texts with a colon between them, in brackets.
fn in_brackets(alloc: Global, first: String, second: String) -> Result<Vec<u8>, NoMemory>
    ensures { IfOk result (λ text. text.items ≡ spec.in_brackets (string_bytes first) (string_bytes second)) }
{
    let text = format!(in alloc; "[{first}:{second}]")?;
    Ok(text.into_bytes())
}

/// Sixteen bytes as eight groups in hexadecimal digits with colons between them, in brackets.
pub(crate) fn ipv6_text(alloc: Global, address: &[u8]) -> Result<Vec<u8>, NoMemory>
    requires { length address.now ≡ 16 }
    ensures { IfOk result (λ text. text.items ≡ spec.ipv6_text address.now) }
{
    let first = half_text(alloc, address, 0)?;
    let second = half_text(alloc, address, 8)?;
    let text = in_brackets(alloc, first, second)?;
    Ok(text)
}
