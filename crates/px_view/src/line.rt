//! The line that is printed of a flow: its number, its request, its answer and what ended it early.
ghost use Rattle.std.specs.Prelude.{◌≡◌, ◌++◌, Some, OnOk, OnErr};
ghost use Rattle.px_view.specs.Line.{error_text, flow_line, id_text, request_text, response_text, size_text};

use px_message::{Flow, FlowError, FlowId, Request, Response, Shared};
use px_text::{NoMemory, push_decimal};
use std::alloc::Global;

/// Appends the line of a flow, `ID METHOD URL CODE SIZE` and a line feed. ID is the conversation's number, a dot and the
/// flow's index; CODE and SIZE are `-` without a response, and SIZE is `streamed` where the body passed by, else the number
/// of its bytes. A flow that ended early has ` error: ` and what ended it in front of the line feed. After `NoMemory` nothing
/// was appended.
pub fn flow_line(alloc: Global, flow: &Flow, out: &mut Vec<u8>) -> Result<(), NoMemory>
    ensures ok { OnOk result (out.new.items ≡ out.old.items ++ flow_line flow.now) }
    ensures err { OnErr result (out.new.items ≡ out.old.items) }
{
    let mut line = Vec::new(alloc);
    push_line(flow, &mut line)?;
    out.extend_from_slice(&line)?;
    Ok(())
}

fn push_line(flow: &Flow, line: &mut Vec<u8>) -> Result<(), NoMemory>
    ensures { OnOk result (line.new.items ≡ line.old.items ++ flow_line flow.now) }
{
    push_id(flow.id, line)?;
    line.push(b' ')?;
    push_request(flow.request.get(), line)?;
    line.push(b' ')?;
    push_response(&flow.response, line)?;
    push_error(&flow.error, line)?;
    line.push(b'\n')?;
    Ok(())
}

pub(crate) fn push_id(id: FlowId, line: &mut Vec<u8>) -> Result<(), NoMemory>
    ensures { OnOk result (line.new.items ≡ line.old.items ++ id_text id) }
{
    push_decimal(line, u64::from(id.conv))?;
    line.push(b'.')?;
    push_decimal(line, u64::from(id.index))
}

fn push_request(request: &Request, line: &mut Vec<u8>) -> Result<(), NoMemory>
    ensures { OnOk result (line.new.items ≡ line.old.items ++ request_text request.now) }
{
    line.extend_from_slice(request.method.bytes())?;
    line.push(b' ')?;
    let url = request.url()?;
    line.extend_from_slice(&url)?;
    Ok(())
}

fn push_response(response: &Option<Shared<Response>>, line: &mut Vec<u8>) -> Result<(), NoMemory>
    ensures { OnOk result (line.new.items ≡ line.old.items ++ response_text response.now) }
{
    match response {
        None => line.extend_from_slice(b"- -")?,
        Some(response) => push_answer(response.get(), line)?,
    }
    Ok(())
}

fn push_answer(response: &Response, line: &mut Vec<u8>) -> Result<(), NoMemory>
    ensures { OnOk result (line.new.items ≡ line.old.items ++ response_text (Some response.now)) }
{
    push_decimal(line, u64::from(response.status.code()))?;
    line.push(b' ')?;
    push_size(response, line)
}

fn push_size(response: &Response, line: &mut Vec<u8>) -> Result<(), NoMemory>
    ensures { OnOk result (line.new.items ≡ line.old.items ++ size_text response.now.streamed response.now.body) }
{
    if response.streamed {
        line.extend_from_slice(b"streamed")?;
        return Ok(());
    }
    push_decimal(line, response.body.bytes().len() as u64)
}

fn push_error(error: &Option<Shared<FlowError>>, line: &mut Vec<u8>) -> Result<(), NoMemory>
    ensures { OnOk result (line.new.items ≡ line.old.items ++ error_text error.now) }
{
    if let Some(error) = error {
        line.extend_from_slice(b" error: ")?;
        line.extend_from_slice(error.get().msg.as_slice())?;
    }
    Ok(())
}
