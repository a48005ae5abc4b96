//! Lines over a wire in memory.
use crate::net_calls;
use crate::parts::{address, begin_answer, halves, show_bytes, word_of};
use px_event::Door;
use px_rows::{RowError, Shown, read_u32, unescape};
use px_wire::{Lines, MemWire, Ready};
use std::alloc::Global;

/// What the calls of lines over a wire answer.
pub(crate) fn answer(alloc: Global, input: &str, out: &mut Shown) -> Result<(), RowError> {
    let (given, calls) = halves(input);
    let mut lines = new_lines(alloc, given)?;
    let answer = play_calls(alloc, &mut lines, calls, out);
    drop(lines);
    answer
}

fn play_calls(
    alloc: Global,
    lines: &mut Lines<MemWire>,
    calls: &str,
    out: &mut Shown,
) -> Result<(), RowError> {
    for call in calls.split("; ") {
        begin_answer(out);
        play_call(alloc, lines, call, out)?;
    }
    Ok(())
}

fn new_lines(alloc: Global, given: &str) -> Result<Lines<MemWire>, RowError> {
    let mut script = Vec::new(alloc);
    let mut takes = Vec::new(alloc);
    let mut gives = Vec::new(alloc);
    read_parts(alloc, given, &mut script, &mut takes, &mut gives)?;
    let wire = MemWire::new(alloc, script, takes, gives);
    Ok(Lines::new(alloc, wire))
}

fn read_parts(
    alloc: Global,
    given: &str,
    script: &mut Vec<(u64, Ready)>,
    takes: &mut Vec<usize>,
    gives: &mut Vec<Vec<u8>>,
) -> Result<(), RowError> {
    for part in given.split("; ") {
        match word_of(part) {
            ("takes", numbers) => push_takes(numbers, takes)?,
            ("gives", text) => push_given(alloc, text, gives)?,
            (moment, told) => push_told(alloc, moment, told, script)?,
        }
    }
    Ok(())
}

fn push_given(alloc: Global, text: &str, gives: &mut Vec<Vec<u8>>) -> Result<(), RowError> {
    let bytes = unescape(alloc, text)?;
    gives.push(bytes)?;
    Ok(())
}

fn push_takes(numbers: &str, takes: &mut Vec<usize>) -> Result<(), RowError> {
    for number in numbers.split(", ") {
        takes.push(read_u32(number)? as usize)?;
    }
    Ok(())
}

fn push_told(
    alloc: Global,
    moment: &str,
    told: &str,
    script: &mut Vec<(u64, Ready)>,
) -> Result<(), RowError> {
    let moment = u64::from(read_u32(moment)?);
    let ready = ready_of(alloc, told)?;
    script.push((moment, ready))?;
    Ok(())
}

// What a wire tells: a word, and the number of a slot.
fn ready_of(alloc: Global, told: &str) -> Result<Ready, RowError> {
    let (word, slot) = word_of(told);
    let slot = read_u32(slot)?;
    match word {
        "accepted" => accepted(alloc, slot),
        "readable" => Ok(Ready::Readable(slot)),
        "writable" => Ok(Ready::Writable(slot)),
        "connected" => Ok(Ready::Dialled(slot, true)),
        "refused" => Ok(Ready::Dialled(slot, false)),
        _ => Err(RowError::Bad),
    }
}

fn accepted(alloc: Global, slot: u32) -> Result<Ready, RowError> {
    let peer = address(alloc)?;
    Ok(Ready::Accepted {
        slot,
        door: Door::Proxy,
        peer,
    })
}

fn play_call(
    alloc: Global,
    lines: &mut Lines<MemWire>,
    call: &str,
    out: &mut Shown,
) -> Result<(), RowError> {
    match word_of(call) {
        ("taken", slot) => show_taken(out, lines.wire(), slot),
        ("flush", slot) => flush(out, lines, slot),
        _ => net_calls::play_call(alloc, lines, call, out),
    }
}

fn show_taken(out: &mut Shown, wire: &MemWire, slot: &str) -> Result<(), RowError> {
    let slot = read_u32(slot)?;
    let bytes = wire.taken(slot)?;
    show_bytes(out, &bytes);
    Ok(())
}

fn flush(out: &mut Shown, lines: &mut Lines<MemWire>, slot: &str) -> Result<(), RowError> {
    let slot = read_u32(slot)?;
    let flushed = lines.flush(slot);
    out.debug(&flushed);
    Ok(())
}
