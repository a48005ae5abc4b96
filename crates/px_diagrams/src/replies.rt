//! How hooks are answered.
use crate::diagram::{Diagram, HookLine};
use px_event::{Hook, Reply};
use px_message::{Fault, Flow, Response, Shared};
use px_plays::{change_response, put_request, status_of};
use px_rows::{RowError, Trouble};
use px_write::short_response;
use std::alloc::Global;

/// A hook, and the reply to it.
#[derive(Drop)]
pub struct ReplyTurn {
    pub(crate) hook: Hook,
    pub(crate) reply: String,
}

/// The replies of the diagram, played at the hook of this name, if any.
pub fn hooks_of(alloc: Global, diagram: &Diagram, at: &str) -> Result<Vec<ReplyTurn>, Trouble> {
    let mut turns = Vec::new(alloc);
    for line in &diagram.hooks {
        add_line(alloc, &mut turns, line)?;
    }
    if !at.is_empty() {
        add_in_line(alloc, &mut turns, at, diagram.at_reply.as_str(), 0)?;
    }
    Ok(turns)
}

fn add_line(alloc: Global, turns: &mut Vec<ReplyTurn>, line: &HookLine) -> Result<(), Trouble> {
    add_in_line(
        alloc,
        turns,
        line.hook.as_str(),
        line.reply.as_str(),
        line.number,
    )
}

fn add_in_line(
    alloc: Global,
    turns: &mut Vec<ReplyTurn>,
    hook: &str,
    reply: &str,
    number: usize,
) -> Result<(), Trouble> {
    match add_turn(alloc, turns, hook, reply) {
        Ok(()) => Ok(()),
        Err(error) => Err(error.in_line(number)),
    }
}

fn add_turn(
    alloc: Global,
    turns: &mut Vec<ReplyTurn>,
    hook: &str,
    reply: &str,
) -> Result<(), RowError> {
    let hook = hook_of(hook)?;
    let reply = String::from_str(alloc, reply)?;
    turns.push(ReplyTurn { hook, reply })?;
    Ok(())
}

fn hook_of(name: &str) -> Result<Hook, RowError> {
    match name {
        "RequestHead" => Ok(Hook::RequestHead),
        "RequestBody" => Ok(Hook::RequestBody),
        "ResponseHead" => Ok(Hook::ResponseHead),
        "ResponseBody" => Ok(Hook::ResponseBody),
        _ => Err(RowError::Bad),
    }
}

/// The reply to the hook, where these were answered: the n-th of a hook is the n-th ask of it.
pub(crate) fn reply_at<'a>(turns: &'a [ReplyTurn], asked: &[Hook], hook: Hook) -> &'a str {
    let mut left = count_of(asked, hook);
    for turn in turns {
        if turn.hook == hook {
            if left == 0 {
                return turn.reply.as_str();
            }
            left = left.saturating_sub(1);
        }
    }
    "go"
}

fn count_of(asked: &[Hook], hook: Hook) -> usize {
    let mut count = 0usize;
    for one in asked {
        if *one == hook {
            count = count.saturating_add(1);
        }
    }
    count
}

/// Whether the hook is to wait.
pub(crate) fn is_wait(reply: &str) -> bool {
    matches!(reply, "wait")
}

/// The reply of this text to a hook about this flow.
pub(crate) fn reply_of(alloc: Global, text: &str, flow: &Flow) -> Result<Reply, RowError> {
    match text {
        "kill" => Ok(Reply::Kill),
        "discard" => Ok(Reply::Discard),
        "dialled" => Ok(Reply::Dialled),
        "refused" => Ok(Reply::Refused(Fault::NoConnection)),
        "odd" => oddly(flow),
        _ => reply_with(alloc, text, flow),
    }
}

// A flow is gone on with, or a response is given in the place of the server's.
fn reply_with(alloc: Global, text: &str, flow: &Flow) -> Result<Reply, RowError> {
    if let Some(text) = text.strip_prefix("respond ") {
        let response = respond(alloc, text)?;
        return Ok(Reply::Respond(response));
    }
    let flow = changed(alloc, text, flow)?;
    Ok(Reply::Go { flow, stream: None })
}

// The flow marked, with another number and another moment, and its body may be streamed.
fn oddly(flow: &Flow) -> Result<Reply, RowError> {
    let mut flow = flow.try_clone()?;
    flow.marked = true;
    flow.id.index = 7;
    flow.times.request_start = 7;
    Ok(Reply::Go {
        flow,
        stream: Some(0),
    })
}

fn changed(alloc: Global, text: &str, flow: &Flow) -> Result<Flow, RowError> {
    let mut copy = flow.try_clone()?;
    match change(alloc, text, &mut copy) {
        Ok(()) => Ok(copy),
        Err(error) => {
            drop(copy);
            Err(error)
        }
    }
}

fn change(alloc: Global, text: &str, flow: &mut Flow) -> Result<(), RowError> {
    if let Some(changes) = text.strip_prefix("request ") {
        return put_request(alloc, flow, changes);
    }
    if let Some(changes) = text.strip_prefix("response ") {
        return put_response(alloc, flow, changes);
    }
    match text {
        "go" => Ok(()),
        "no response" => {
            flow.response = None;
            Ok(())
        }
        _ => Err(RowError::Bad),
    }
}

// The response of the flow, changed. Where it has none, it gets one.
fn put_response(alloc: Global, flow: &mut Flow, changes: &str) -> Result<(), RowError> {
    let response = answer_with(alloc, &flow.response, changes)?;
    flow.response = Some(Shared::new(alloc, response)?);
    Ok(())
}

// The response, or a short one of 200, changed.
fn answer_with(
    alloc: Global,
    response: &Option<Shared<Response>>,
    changes: &str,
) -> Result<Response, RowError> {
    match response {
        Some(response) => change_response(alloc, response.get().try_clone()?, changes),
        None => short(alloc, "200", changes),
    }
}

// A short response of this status, changed.
fn respond(alloc: Global, text: &str) -> Result<Response, RowError> {
    match text.split_once("; ") {
        Some((status, changes)) => short(alloc, status, changes),
        None => short(alloc, text, ""),
    }
}

fn short(alloc: Global, status: &str, changes: &str) -> Result<Response, RowError> {
    let status = status_of(status)?;
    let response = short_response(alloc, status)?;
    change_response(alloc, response, changes)
}
