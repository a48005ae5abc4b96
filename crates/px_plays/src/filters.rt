//! Filters.
use crate::flows::flow_of;
use crate::parts::utf8_of;
use px_filter::Filter;
use px_message::Flow;
use px_rows::{RowError, Shown};
use std::alloc::Global;

/// What comes of a filter's text: `reads` or its refusal; `on` a flow whether it holds there, and `!` before it does not.
pub(crate) fn answer(
    alloc: Global,
    on: &str,
    bytes: &[u8],
    out: &mut Shown,
) -> Result<(), RowError> {
    let text = utf8_of(bytes)?;
    match Filter::parse(alloc, text) {
        Ok(filter) => {
            let answer = judge(alloc, &filter, on, text, out);
            drop(filter);
            answer
        }
        Err(error) => {
            out.debug(&error);
            Ok(())
        }
    }
}

fn judge(
    alloc: Global,
    filter: &Filter,
    on: &str,
    text: &str,
    out: &mut Shown,
) -> Result<(), RowError> {
    let Some(flow) = on.strip_prefix("on ") else {
        out.text("reads");
        return Ok(());
    };
    let flow = flow_of(alloc, flow)?;
    let answer = judge_on(alloc, filter, text, &flow, out);
    drop(flow);
    answer
}

fn judge_on(
    alloc: Global,
    filter: &Filter,
    text: &str,
    flow: &Flow,
    out: &mut Shown,
) -> Result<(), RowError> {
    let holds = filter.matches(flow)?;
    let negated = holds_negated(alloc, text, flow)?;
    out.text(told(holds, negated));
    Ok(())
}

fn told(holds: bool, negated: bool) -> &'static str {
    match (holds, negated) {
        (true, false) => "yes",
        (false, true) => "no",
        _ => "as its negation",
    }
}

// Whether the filter holds on the flow with `!(` before it and `)` behind it.
fn holds_negated(alloc: Global, text: &str, flow: &Flow) -> Result<bool, RowError> {
    let mut negated = Shown::new(alloc);
    negated.text("!(");
    negated.text(text);
    negated.text(")");
    let negated = negated.finish()?;
    match Filter::parse(alloc, negated.as_str()) {
        Ok(filter) => matches(filter, flow),
        Err(_) => Err(RowError::Bad),
    }
}

fn matches(filter: Filter, flow: &Flow) -> Result<bool, RowError> {
    let answer = filter.matches(flow);
    drop(filter);
    Ok(answer?)
}
