//! Rules: what they make of a flow.
use crate::flows::flow_of;
use crate::parts::utf8_of;
use px_message::{Fields, Flow, Response, Shared, WsMessage};
use px_rows::{RowError, Shown};
use px_rule::{BodyRules, HeaderRules, RuleCause, RuleError};
use px_text::NoMemory;
use std::alloc::Global;

/// What rules, one a line, make of a flow: of the fields or the body of its request, of its response or of its message. Where one
/// is refused, its index and cause.
pub(crate) fn answer(
    alloc: Global,
    kind: &str,
    bytes: &[u8],
    out: &mut Shown,
) -> Result<(), RowError> {
    let Some((what, flow)) = kind.split_once(" on ") else {
        return Err(RowError::Bad);
    };
    let texts = lines_of(alloc, utf8_of(bytes)?)?;
    let mut flow = flow_of(alloc, flow)?;
    let answer = answer_on(alloc, what, texts.as_slice(), &mut flow, out);
    drop(flow);
    drop(texts);
    answer
}

fn lines_of(alloc: Global, text: &str) -> Result<Vec<String>, RowError> {
    let mut lines = Vec::new(alloc);
    for line in text.split('\n') {
        lines.push(String::from_str(alloc, line)?)?;
    }
    Ok(lines)
}

/// Which bytes rules change.
#[derive(Clone, Copy)]
enum Place {
    Request,
    Response,
    Message,
}

fn answer_on(
    alloc: Global,
    what: &str,
    texts: &[String],
    flow: &mut Flow,
    out: &mut Shown,
) -> Result<(), RowError> {
    match what {
        "of fields" => header_rules(alloc, texts, flow, false, out),
        "of fields of responses" => header_rules(alloc, texts, flow, true, out),
        "of bodies" => body_rules(alloc, texts, flow, Place::Request, out),
        "of bodies of responses" => body_rules(alloc, texts, flow, Place::Response, out),
        "of messages" => body_rules(alloc, texts, flow, Place::Message, out),
        _ => Err(RowError::Bad),
    }
}

fn show_refusal(error: RuleError, out: &mut Shown) -> Result<(), RowError> {
    if let RuleCause::NoMemory = error.cause {
        return Err(RowError::NoMemory);
    }
    out.number(error.index as u64);
    out.text(" ");
    out.debug(&error.cause);
    Ok(())
}

fn header_rules(
    alloc: Global,
    texts: &[String],
    flow: &mut Flow,
    response: bool,
    out: &mut Shown,
) -> Result<(), RowError> {
    match HeaderRules::read(alloc, texts) {
        Ok(rules) => {
            let applied = rules.apply(flow, response);
            drop(rules);
            applied?;
            show_fields_of(out, flow, response);
            Ok(())
        }
        Err(error) => show_refusal(error, out),
    }
}

fn show_fields_of(out: &mut Shown, flow: &Flow, response: bool) {
    if !response {
        return show_fields(out, &flow.request.get().fields);
    }
    match &flow.response {
        Some(response) => show_fields(out, &response.get().fields),
        None => out.text("-"),
    }
}

// One a line, as `A: 1`.
fn show_fields(out: &mut Shown, fields: &Fields) {
    for i in 0..fields.len() {
        if i > 0 {
            out.text("\\n");
        }
        let (name, value) = fields.pair(i);
        out.bytes(name.bytes());
        out.text(": ");
        out.bytes(value.bytes());
    }
}

fn body_rules(
    alloc: Global,
    texts: &[String],
    flow: &mut Flow,
    place: Place,
    out: &mut Shown,
) -> Result<(), RowError> {
    match BodyRules::read(alloc, texts) {
        Ok(rules) => {
            let applied = apply_body_rules(&rules, flow, place);
            drop(rules);
            applied?;
            show_bytes_of(out, flow, place);
            Ok(())
        }
        Err(error) => show_refusal(error, out),
    }
}

fn apply_body_rules(rules: &BodyRules, flow: &mut Flow, place: Place) -> Result<(), NoMemory> {
    match place {
        Place::Request => rules.apply(flow, false),
        Place::Response => rules.apply(flow, true),
        Place::Message => rules.apply_message(flow),
    }
}

fn show_bytes_of(out: &mut Shown, flow: &Flow, place: Place) {
    match bytes_of(flow, place) {
        Some(bytes) => out.bytes(bytes),
        None => out.text("-"),
    }
}

// The bytes that rules change, where the flow has them.
fn bytes_of(flow: &Flow, place: Place) -> Option<&[u8]> {
    match place {
        Place::Request => Some(flow.request.get().body.bytes()),
        Place::Response => body_of(&flow.response),
        Place::Message => payload_of(&flow.message),
    }
}

fn body_of(response: &Option<Shared<Response>>) -> Option<&[u8]> {
    match response {
        Some(response) => Some(response.get().body.bytes()),
        None => None,
    }
}

fn payload_of(message: &Option<Shared<WsMessage>>) -> Option<&[u8]> {
    match message {
        Some(message) => Some(message.get().payload.as_slice()),
        None => None,
    }
}
