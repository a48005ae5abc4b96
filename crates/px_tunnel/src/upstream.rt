//! Another proxy, which is asked for a tunnel: the request that asks, and what the proxy's bytes answer.
//!
//! The head is looked for by the reader of all responses, so it may come in any pieces, and each byte is searched about once.
ghost use Rattle.std.specs.Prelude.{◌≡◌, ℕ, ◌++◌, [], false, List, IfOk, OnOk, length, drop};
ghost use Rattle.px_tunnel.specs.Upstream.{authority_text, connect_text, granted, granting, is_success, said_by};
ghost use Rattle.px_tunnel.specs.Reaching.{HasHeard, answer_by, answer_of, rest_of};

use px_head::{Found, HeadReader};
use px_message::Address;
use px_text::{Bytes, NoMemory, push_decimal};
use std::alloc::Global;

// The end of a line (RFC 9112 section 2.1).
const LINE_END: &[u8] = b"\r\n";

/// What a proxy that was asked for a tunnel has answered.
#[derive(Clone, Copy, Debug, PartialEq, Eq)]
pub enum ProxyAnswer {
    /// Nothing yet, or a part of a head.
    Awaited,
    /// A head whose code is from 200 to 299: the tunnel stands, and what comes behind that head is the server's.
    Granted,
    /// Another code, or a head that is malformed or longer than 65,536 bytes.
    Refused,
}

/// The request for a tunnel to this address, as a proxy is sent it (RFC 9110 section 9.3.6).
pub fn connect_text(alloc: Global, address: &Address) -> Result<Bytes, NoMemory>
    ensures text { IfOk result (λ text. text ≡ connect_text address.now) }
{
    let mut text = Vec::new(alloc);
    text.extend_from_slice(b"CONNECT ")?;
    push_authority(address, &mut text)?;
    text.extend_from_slice(b" HTTP/1.1")?;
    text.extend_from_slice(LINE_END)?;
    text.extend_from_slice(b"Host: ")?;
    push_authority(address, &mut text)?;
    text.extend_from_slice(LINE_END)?;
    text.extend_from_slice(LINE_END)?;
    Bytes::new(text)
}

// Where the tunnel is to lead: its host, a colon and its port (RFC 9112 section 3.2.3).
fn push_authority(address: &Address, text: &mut Vec<u8>) -> Result<(), NoMemory>
    ensures { OnOk result (text.new.items ≡ text.old.items ++ authority_text address.now) }
{
    text.extend_from_slice(address.host.bytes())?;
    text.push(b':')?;
    push_decimal(text, u64::from(address.port))
}

/// A proxy that was asked for a tunnel, and whose answer is awaited: it keeps what has come of that answer.
#[derive(Debug, Drop)]
pub struct UpstreamTunnel {
    reader: HeadReader,
}

impl UpstreamTunnel {
    /// A proxy that was asked and of which nothing has come yet.
    pub fn new(alloc: Global) -> UpstreamTunnel
        ensures heard { HasHeard result [] }
    {
        UpstreamTunnel {
            reader: HeadReader::new(alloc),
        }
    }

    /// Hears what comes of the proxy while its answer is awaited, and tells what all that has come answers, in whatever pieces
    /// it came. Behind an answer that grants, the bytes behind its head are left (`into_rest`). After `NoMemory` it may only be
    /// dropped.
    pub fn hear(&mut self, bytes: &Bytes) -> Result<ProxyAnswer, NoMemory>
        requires awaited { (text : List ℕ) × HasHeard self.old text }
        ensures answer { (text : List ℕ) → HasHeard self.old text → IfOk result (λ answer. answer ≡ said_by (granting (text ++ bytes.now) false)) }
        ensures awaited { (text : List ℕ) → HasHeard self.old text → IfOk result (λ answer. answer ≡ ProxyAnswer.Awaited → HasHeard self.new (text ++ bytes.now)) }
        ensures granted { (text : List ℕ) → HasHeard self.old text → (used : ℕ) → granting (text ++ bytes.now) false ≡ granted used → OnOk result (rest_of self.new ≡ drop used (text ++ bytes.now)) }
    {
        self.reader.feed_shared(bytes)?;
        let found = self.reader.take_response()?;
        Ok(answer_of(&found))
    }

    /// What has come of the proxy and is not used: behind an answer that grants, the first bytes of the server.
    pub fn into_rest(self) -> Result<Bytes, NoMemory>
        ensures rest { IfOk result (λ rest. rest ≡ rest_of self) }
    {
        self.reader.into_rest()
    }

    /// How many bytes it keeps.
    pub fn kept(&self) -> usize
        ensures kept { result ≡ length (rest_of self.now) }
    {
        self.reader.unused()
    }
}

// What a head that a proxy sent answers.
fn answer_of(found: &Found) -> ProxyAnswer
    ensures { result ≡ answer_of found.now }
{
    match found {
        Found::Partial => ProxyAnswer::Awaited,
        Found::Head(raw) => answer_by(is_success(raw.second.as_slice())),
        Found::TooLong => ProxyAnswer::Refused,
        Found::BadHead => ProxyAnswer::Refused,
    }
}

// What a code answers, by whether it is from 200 to 299.
fn answer_by(success: bool) -> ProxyAnswer
    ensures { result ≡ answer_by success }
{
    if success {
        ProxyAnswer::Granted
    } else {
        ProxyAnswer::Refused
    }
}

// Whether three digits are a code from 200 to 299.
fn is_success(code: &[u8]) -> bool
    ensures { result ≡ is_success code.now }
{
    code.starts_with(b"2")
}
