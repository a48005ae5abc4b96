//! Sinks in memory.
use crate::parts::{begin_answer, halves, push_numbers, show_bytes, word_of};
use px_outside::{Sink, SinkError, VecSink};
use px_rows::{RowError, Shown, unescape};
use std::alloc::Global;

/// What the calls of a sink answer.
pub(crate) fn answer(alloc: Global, input: &str, out: &mut Shown) -> Result<(), RowError> {
    let (given, calls) = halves(input);
    let mut sink = new_sink(alloc, given)?;
    let answer = play_calls(alloc, &mut sink, calls, out);
    drop(sink);
    answer
}

fn play_calls(
    alloc: Global,
    sink: &mut VecSink,
    calls: &str,
    out: &mut Shown,
) -> Result<(), RowError> {
    for call in calls.split("; ") {
        begin_answer(out);
        play_call(alloc, sink, call, out)?;
    }
    Ok(())
}

fn new_sink(alloc: Global, given: &str) -> Result<VecSink, RowError> {
    let mut fails = Vec::new(alloc);
    if let Some(numbers) = given.strip_prefix("fails at ") {
        push_numbers(numbers, &mut fails)?;
    }
    Ok(VecSink::new(alloc, fails))
}

fn play_call(
    alloc: Global,
    sink: &mut VecSink,
    call: &str,
    out: &mut Shown,
) -> Result<(), RowError> {
    match word_of(call) {
        ("write", text) => write(alloc, sink, text, out),
        ("written", "") => {
            show_bytes(out, sink.written());
            Ok(())
        }
        _ => Err(RowError::Bad),
    }
}

fn write<S: Sink>(
    alloc: Global,
    sink: &mut S,
    text: &str,
    out: &mut Shown,
) -> Result<(), RowError> {
    let bytes = unescape(alloc, text)?;
    match sink.write(&bytes) {
        Ok(()) => out.text("ok"),
        Err(SinkError::Failed) => out.text("failed"),
        Err(SinkError::NoMemory) => return Err(RowError::NoMemory),
    }
    Ok(())
}
