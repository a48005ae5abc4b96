//! Texts of answers.
ghost use Rattle.std.specs.Prelude.{◌≡◌, ◌++◌, IfOk, OnOk};
ghost use Rattle.std.specs.List.{flat_map};
ghost use Rattle.px_view.specs.Answers.{answer_text};
ghost use Rattle.px_view.specs.Entry.{entry_line as line_of_part};
ghost use Rattle.px_view.specs.Show.{show_text as text_of_flow};
ghost use Rattle.px_obey.specs.Obeyed.{list_text, state_answer, state_text};

use px_event::Hook;
use px_message::{Flow, FlowId};
use px_text::NoMemory;
use px_view::{OperatorAnswer, answer_line, entry_line, show_text};
use std::alloc::Global;

/// The line of an answer.
pub(crate) fn line_of(alloc: Global, answer: OperatorAnswer) -> Result<Vec<u8>, NoMemory>
    ensures { IfOk result (λ text. text.items ≡ answer_text answer) }
{
    let mut text = Vec::new(alloc);
    answer_line(answer, &mut text)?;
    Ok(text)
}

/// The line that shows a flow.
pub(crate) fn flow_text(alloc: Global, flow: &Flow) -> Result<Vec<u8>, NoMemory>
    ensures { IfOk result (λ text. text.items ≡ text_of_flow flow.now) }
{
    let mut text = Vec::new(alloc);
    show_text(flow, &mut text)?;
    Ok(text)
}

/// The line of the part of a flow's entry from that byte on.
pub(crate) fn part_text(alloc: Global, flow: &Flow, from: u64) -> Result<Vec<u8>, NoMemory>
    ensures { IfOk result (λ text. text.items ≡ line_of_part from flow.now) }
{
    let mut text = Vec::new(alloc);
    entry_line(flow, from, &mut text)?;
    Ok(text)
}

/// The lines of live flows, with the line of the end.
pub(crate) fn list_text(alloc: Global, list: &[(FlowId, Option<Hook>)]) -> Result<Vec<u8>, NoMemory>
    ensures { IfOk result (λ text. text.items ≡ list_text list.now) }
{
    let mut text = Vec::new(alloc);
    push_states(list, &mut text)?;
    answer_line(OperatorAnswer::End, &mut text)?;
    Ok(text)
}

/// Appends the lines of live flows.
fn push_states(list: &[(FlowId, Option<Hook>)], text: &mut Vec<u8>) -> Result<(), NoMemory>
    ensures { OnOk result (text.new.items ≡ text.old.items ++ flat_map state_text list.now) }
{
    for one in list {
        answer_line(state_of_flow(one), text)?;
    }
    Ok(())
}

/// How a live flow stands in a list.
fn state_of_flow(one: &(FlowId, Option<Hook>)) -> OperatorAnswer
    ensures { result ≡ state_answer one.now }
{
    match one.1 {
        Some(_) => OperatorAnswer::Waiting(one.0),
        None => OperatorAnswer::Going(one.0),
    }
}
