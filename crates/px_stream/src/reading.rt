//! What the reader of a server's side has to give of the head of a final response.
ghost use Rattle.std.specs.Prelude.{◌≡◌, IfOk, OnOk};
ghost use Rattle.px_stream.specs.Responses.{IsKept, NextBegun, ReadsAnswer, ReadsHead, came_of, noting};

use crate::link::Link;
use px_event::Command;
use px_exchange::ending::read_persists;
use px_exchange::said::send_on;
use px_exchange::texts::is_interim;
use px_message::{Fault, Request};
use px_read::{MessageReader, Part, ResponseHead};
use px_text::NoMemory;
use std::alloc::Global;
use std::mem;

/// The head of the final response, as far as it has come.
#[derive(Debug, Drop)]
pub enum FinalHead {
    Missing,
    Head(ResponseHead),
    Bad(Fault),
}

/// Reads up to the head of the final response to this request, and notes whether that response persists.
pub fn read_head(
    alloc: Global,
    link: &mut Link,
    request: &Request,
    sends: bool,
    out: &mut Vec<Command>,
) -> Result<FinalHead, NoMemory>
    requires kept { IsKept link.old }
    ensures { IfOk result (λ answer. ReadsHead request.now answer sends link.old out.old.items link.new out.new.items) }
{
    let answer = read_answer(alloc, link, sends, out)?;
    note(link, request, &answer);
    Ok(answer)
}

fn note(link: &mut Link, request: &Request, answer: &FinalHead)
    ensures { link.new ≡ noting request.now answer.now link.old }
{
    match answer {
        FinalHead::Head(head) => {
            link.persists = read_persists(request, head);
        }
        FinalHead::Missing => {}
        FinalHead::Bad(_) => {}
    }
}

// Reads up to the head of the final response. Interim responses are sent on to a client that knows them.
fn read_answer(
    alloc: Global,
    link: &mut Link,
    sends: bool,
    out: &mut Vec<Command>,
) -> Result<FinalHead, NoMemory>
    requires kept { IsKept link.old }
    ensures { IfOk result (λ answer. ReadsAnswer answer sends link.old out.old.items link.new out.new.items) }
{
    'answers: loop {
        let part = link.responses.next()?;
        let head = match came_of(part) {
            Came::Final(answer) => return Ok(answer),
            Came::Interim(head) => head,
        };
        send_on(alloc, head, sends, out)?;
        begin_next(alloc, link)?;
    }
}

/// What a part of a response is: the head of an interim one, or what there is of the final one.
#[derive(Debug, Drop)]
pub enum Came {
    Interim(ResponseHead),
    Final(FinalHead),
}

fn came_of(part: Part) -> Came
    ensures { result ≡ came_of part }
{
    match part {
        Part::Response(head) => {
            if is_interim(&head) {
                Came::Interim(head)
            } else {
                Came::Final(FinalHead::Head(head))
            }
        }
        Part::Bad(fault) => Came::Final(FinalHead::Bad(fault)),
        Part::More => Came::Final(FinalHead::Missing),
        Part::End(_) => Came::Final(FinalHead::Missing),
        Part::Piece(_) => Came::Final(FinalHead::Missing),
        Part::ChunkStart(_) => Came::Final(FinalHead::Missing),
        Part::ChunkEnd => Came::Final(FinalHead::Missing),
        Part::Request(_) => Came::Final(FinalHead::Missing),
    }
}

// Reads the next response, behind an interim one, which has no body.
fn begin_next(alloc: Global, link: &mut Link) -> Result<(), NoMemory>
    ensures { OnOk result (NextBegun link.old link.new) }
{
    link.responses.next()?;
    let next = MessageReader::response(alloc, link.asked_head);
    let rest = mem::replace(&mut link.responses, next).into_rest()?;
    link.responses.feed(&rest)?;
    if link.closed {
        link.responses.close();
    }
    Ok(())
}
