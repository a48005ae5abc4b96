//! What is so of a flow without a pattern.
ghost use Rattle.std.specs.Prelude.{◌≡◌};
ghost use Rattle.std.specs.List.{list_any};
ghost use Rattle.px_message.specs.Fields.{values_of};
ghost use Rattle.px_filter.specs.Holds as specs;

use crate::operator::Fact;
use crate::part::CONTENT_TYPE;
use px_message::{Fields, Flow, Replayed, Response, Shared};
use px_text::eq_ignore_case;

/// Whether it is so.
pub fn fact_holds(fact: Fact, flow: &Flow) -> bool
    ensures { result ≡ specs.fact_holds fact flow.now }
{
    match fact {
        Fact::Always => true,
        Fact::Asset => has_asset(&flow.response),
        Fact::Error => flow.error.is_some(),
        Fact::Marked => flow.marked,
        Fact::NoResponse => flow.response.is_none(),
        Fact::Response => flow.response.is_some(),
        Fact::Replayed => !matches!(flow.replayed, Replayed::No),
        Fact::ReplayedRequest => matches!(flow.replayed, Replayed::Request),
        Fact::ReplayedResponse => matches!(flow.replayed, Replayed::Response),
        Fact::Websocket => flow.websocket,
    }
}

fn has_asset(response: &Option<Shared<Response>>) -> bool
    ensures { result ≡ list_any specs.is_asset (specs.in_response (λ r. values_of specs.content_type r.fields) response.now) }
{
    match response {
        None => false,
        Some(response) => has_asset_type(&response.get().fields),
    }
}

fn has_asset_type(fields: &Fields) -> bool
    ensures { result ≡ list_any specs.is_asset (values_of specs.content_type fields.now) }
{
    fields
        .get_all(CONTENT_TYPE)
        .any(|value| is_asset(value.bytes()))
}

// A script, a style, an image or a font.
fn is_asset(kind: &[u8]) -> bool
    ensures { result ≡ specs.is_asset kind.now }
{
    is_script(kind)
        || begins_with(b"text/css", kind)
        || begins_with(b"image/", kind)
        || is_font(kind)
}

fn is_script(kind: &[u8]) -> bool
    ensures { result ≡ specs.is_script kind.now }
{
    begins_with(b"text/javascript", kind)
        || begins_with(b"application/x-javascript", kind)
        || begins_with(b"application/javascript", kind)
}

fn is_font(kind: &[u8]) -> bool
    ensures { result ≡ specs.is_font kind.now }
{
    begins_with(b"font/", kind) || begins_with(b"application/font", kind)
}

fn begins_with(front: &[u8], text: &[u8]) -> bool
    ensures { result ≡ specs.begins_with front.now text.now }
{
    if text.len() < front.len() {
        return false;
    }
    eq_ignore_case(&text[..front.len()], front)
}
