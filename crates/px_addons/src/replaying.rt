//! How server replay answers a flow.
ghost use Rattle.std.specs.Prelude.{◌≡◌, Some, IfOk, OnOk};
ghost use Rattle.px_addons.specs.Replays.{AsksRecorded, Replays, sent_as, unmatched};
ghost use Rattle.px_core.specs.declared.answerer.Verdict.TheVariants as verdicts;

use crate::blocking::set_verdict;
use px_core::{Draft, Verdict};
use px_message::{Flow, Response};
use px_refresh::{refresh, shift_to};
use px_replay::{Extra, Recorded, Replay};
use px_text::NoMemory;
use px_write::short_response;
use std::alloc::Global;

// Asks the recorded list, if there is one, and moves the dates of its response where that is wished.
pub(crate) fn ask_replay(
    alloc: Global,
    moves_dates: bool,
    replay: &mut Option<Recorded>,
    draft: &mut Draft,
) -> Result<(), NoMemory>
    ensures { OnOk result (Replays moves_dates draft.old replay.old draft.new replay.new) }
{
    match replay {
        None => Ok(()),
        Some(recorded) => ask_recorded(alloc, moves_dates, recorded, draft),
    }
}

// Asks the recorded list.
fn ask_recorded(
    alloc: Global,
    moves_dates: bool,
    recorded: &mut Recorded,
    draft: &mut Draft,
) -> Result<(), NoMemory>
    ensures { OnOk result (AsksRecorded moves_dates draft.old recorded.old draft.new (Some recorded.new)) }
{
    let answer = recorded.answer(draft.flow.request.get())?;
    match answer {
        Replay::Found(place, response) => {
            let moment = recorded.moment(place);
            put_found(alloc, moves_dates, moment, response, draft)
        }
        Replay::Extra(extra) => put_extra(alloc, extra, draft),
    }
}

// Puts a recorded response of this moment.
fn put_found(
    alloc: Global,
    moves_dates: bool,
    moment: u64,
    response: Response,
    draft: &mut Draft,
) -> Result<(), NoMemory>
    ensures { OnOk result (draft.new ≡ record draft.old { verdict = verdicts.Respond (sent_as moves_dates draft.old.flow moment response) }) }
{
    let response = sent_as(alloc, moves_dates, &draft.flow, moment, response)?;
    set_verdict(draft, Verdict::Respond(response));
    Ok(())
}

// The recorded response of this moment as it answers the flow.
fn sent_as(
    alloc: Global,
    moves_dates: bool,
    flow: &Flow,
    moment: u64,
    response: Response,
) -> Result<Response, NoMemory>
    ensures { IfOk result (λ sent. sent ≡ sent_as moves_dates flow.now moment response) }
{
    if !moves_dates {
        return Ok(response);
    }
    let shift = shift_to(flow.times.request_end, moment);
    let mut response = response;
    refresh(alloc, &mut response, shift)?;
    Ok(response)
}

// Puts what becomes of a request that no recorded one answers.
fn put_extra(alloc: Global, extra: Extra, draft: &mut Draft) -> Result<(), NoMemory>
    ensures { OnOk result (draft.new ≡ unmatched extra draft.old) }
{
    match extra {
        Extra::Forward => Ok(()),
        Extra::Kill => {
            set_verdict(draft, Verdict::Kill);
            Ok(())
        }
        Extra::Code(status) => {
            let response = short_response(alloc, status)?;
            set_verdict(draft, Verdict::Respond(response));
            Ok(())
        }
    }
}
