//! The line that an operator is shown of a flow: an object of JSON without blanks (RFC 8259).
//!
//! Its members are `code`, `error`, `id`, `marked`, `messages`, `method` and `url`, in this order. Bytes become the characters of the same
//! numbers, so every byte can be told from the text.
ghost use Rattle.std.specs.Prelude.{◌≡◌, ◌++◌, length, IfOk, OnOk, OnErr, string_bytes};
ghost use Rattle.serde_json.specs.Data.{number, unsigned};
ghost use Rattle.serde_json.specs.View.{view};
ghost use Rattle.px_view.specs.Show.{characters, code_value, error_value, flow_value, show_text, text_value};
ghost use Rattle.px_view.specs.Line.{id_text};

use crate::line::push_id;
use px_message::{Flow, FlowError, FlowId, Response, Shared};
use px_text::NoMemory;
use serde_json::{Map, Value, put};
use std::alloc::Global;

/// Appends the line of JSON that shows a flow. After `NoMemory` nothing was appended.
pub fn show_text(flow: &Flow, out: &mut Vec<u8>) -> Result<(), NoMemory>
    ensures ok { OnOk result (out.new.items ≡ out.old.items ++ show_text flow.now) }
    ensures err { OnErr result (out.new.items ≡ out.old.items) }
{
    let alloc = *out.allocator();
    let mut text = flow_value(alloc, flow)?.to_string(alloc)?;
    text.push('\n')?;
    out.extend_from_slice(text.as_bytes())?;
    Ok(())
}

// The flow as a value.
fn flow_value(alloc: Global, flow: &Flow) -> Result<Value, NoMemory>
    ensures { IfOk result (λ value. view value ≡ flow_value flow.now) }
{
    let request = flow.request.get();
    let url = request.url()?;
    let mut members = Map::new(alloc);
    put(&mut members, alloc, "code", code_value(&flow.response))?;
    put(
        &mut members,
        alloc,
        "error",
        error_value(alloc, &flow.error)?,
    )?;
    put(&mut members, alloc, "id", id_value(alloc, flow.id)?)?;
    put(&mut members, alloc, "marked", Value::Bool(flow.marked))?;
    put(&mut members, alloc, "messages", messages_value(flow))?;
    put(
        &mut members,
        alloc,
        "method",
        text_value(alloc, request.method.bytes())?,
    )?;
    put(&mut members, alloc, "url", text_value(alloc, &url)?)?;
    Ok(Value::Object(members))
}

// How many messages its WebSocket had.
fn messages_value(flow: &Flow) -> Value
    ensures { view result ≡ number (unsigned (length flow.now.messages)) }
{
    Value::from(flow.messages.len())
}

fn code_value(response: &Option<Shared<Response>>) -> Value
    ensures { view result ≡ code_value response.now }
{
    match response {
        None => Value::Null,
        Some(response) => Value::from(response.get().status.code()),
    }
}

fn error_value(alloc: Global, error: &Option<Shared<FlowError>>) -> Result<Value, NoMemory>
    ensures { IfOk result (λ value. view value ≡ error_value error.now) }
{
    match error {
        None => Ok(Value::Null),
        Some(error) => text_value(alloc, error.get().msg.as_slice()),
    }
}

fn id_value(alloc: Global, id: FlowId) -> Result<Value, NoMemory>
    ensures { IfOk result (λ value. view value ≡ text_value (id_text id)) }
{
    let mut text = Vec::new(alloc);
    push_id(id, &mut text)?;
    text_value(alloc, &text)
}

fn text_value(alloc: Global, bytes: &[u8]) -> Result<Value, NoMemory>
    ensures { IfOk result (λ value. view value ≡ text_value bytes.now) }
{
    Ok(Value::String(characters(alloc, bytes)?))
}

// The characters of the same numbers.
fn characters(alloc: Global, bytes: &[u8]) -> Result<String, NoMemory>
    ensures { IfOk result (λ text. string_bytes text ≡ characters bytes.now) }
{
    let mut text = String::new(alloc);
    for byte in bytes {
        text.push(char::from(*byte))?;
    }
    Ok(text)
}
