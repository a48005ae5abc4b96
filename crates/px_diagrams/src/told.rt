//! Commands, as lines.
use px_event::{Ask, Command};
use px_message::{Address, Flow, Request, Response, Shared};
use px_rows::{Peer, Shown, end_line, show_address, show_close, show_dial, show_send};
use px_write::{Form, write_request, write_response};
use std::alloc::Global;

/// How much is shown of a flow.
#[derive(Clone, Copy)]
pub(crate) enum Told {
    /// Its line, where it is finished.
    Line,
    /// All of it, also where it is asked about.
    Whole,
}

/// Shows a line for each command.
pub(crate) fn show(alloc: Global, told: Told, commands: &[Command], out: &mut Shown) {
    let mut sending: Option<Peer> = None;
    for command in commands {
        sending = show_next(alloc, told, out, sending, command);
    }
    end_line(out, sending);
}

fn show_next(
    alloc: Global,
    told: Told,
    out: &mut Shown,
    sending: Option<Peer>,
    command: &Command,
) -> Option<Peer> {
    if let Command::Send { side, bytes } = command {
        let peer = Peer {
            conv: 0,
            side: *side,
        };
        return show_send(out, sending, peer, bytes.as_slice());
    }
    end_line(out, sending);
    show_line(alloc, told, out, command);
    None
}

fn show_line(alloc: Global, told: Told, out: &mut Shown, command: &Command) {
    match command {
        Command::Send { .. } => {}
        Command::Close { side } => show_close(
            out,
            Peer {
                conv: 0,
                side: *side,
            },
        ),
        Command::Dial {
            server,
            address,
            ..
        } => show_dial(out, 0, *server, address),
        Command::Ask { ask, flow } => {
            show_ask(out, *ask);
            show_whole(alloc, told, out, flow);
        }
        Command::Done { flow } => {
            show_flow(out, flow);
            show_whole(alloc, told, out, flow);
        }
    }
}

fn show_ask(out: &mut Shown, ask: Ask) {
    out.text("ask ");
    match ask {
        Ask::Hook { flow, hook } => {
            out.number(u64::from(flow));
            out.text(" ");
            out.debug(&hook);
        }
        Ask::Dial { server } => {
            out.text("dial ");
            out.number(u64::from(server));
        }
    }
}

// The line of a finished flow.
fn show_flow(out: &mut Shown, flow: &Flow) {
    let request = flow.request.get();
    out.text("done ");
    out.number(u64::from(flow.id.index));
    out.text(" ");
    out.bytes(request.method.bytes());
    out.text(" ");
    show_url(out, request);
    show_size(out, &flow.response);
    show_error(out, flow);
}

fn show_url(out: &mut Shown, request: &Request) {
    match request.url() {
        Ok(url) => out.bytes(&url),
        Err(_) => out.spend(),
    }
}

fn show_size(out: &mut Shown, response: &Option<Shared<Response>>) {
    match response {
        Some(response) => show_size_of(out, response.get()),
        None => out.text(" - -"),
    }
}

fn show_size_of(out: &mut Shown, response: &Response) {
    out.text(" ");
    out.number(u64::from(response.status.code()));
    if response.streamed {
        out.text(" streamed");
    } else {
        out.text(" ");
        out.number(response.body.bytes().len() as u64);
    }
}

fn show_error(out: &mut Shown, flow: &Flow) {
    if let Some(error) = &flow.error {
        out.text(" error: ");
        out.bytes(error.get().msg.as_slice());
    }
}

// The messages of a flow, its moments and its addresses; and the end of its line.
fn show_whole(alloc: Global, told: Told, out: &mut Shown, flow: &Flow) {
    match told {
        Told::Line => {}
        Told::Whole => {
            show_request(alloc, out, flow.request.get());
            show_response(alloc, out, &flow.response);
            show_moments(out, flow);
            show_rest(out, flow);
        }
    }
    out.text("\n");
}

fn show_moments(out: &mut Shown, flow: &Flow) {
    let times = flow.times;
    out.text(" | ");
    out.number(times.request_start);
    show_moment(out, times.request_end);
    show_moment(out, times.response_start);
    show_moment(out, times.response_end);
    if let Some(error) = &flow.error {
        out.text(" error ");
        out.number(error.get().moment);
    }
}

fn show_moment(out: &mut Shown, moment: Option<u64>) {
    out.text(" ");
    match moment {
        Some(moment) => out.number(moment),
        None => out.text("-"),
    }
}

// What else a flow has.
fn show_rest(out: &mut Shown, flow: &Flow) {
    out.text(" |");
    show_place(out, &flow.client);
    show_place(out, &flow.server);
    out.text(" conversation ");
    out.number(u64::from(flow.id.conv));
    if flow.marked {
        out.text(" marked");
    }
}

fn show_place(out: &mut Shown, address: &Option<Shared<Address>>) {
    out.text(" ");
    match address {
        Some(address) => show_address(out, address.get()),
        None => out.text("-"),
    }
}

fn show_request(alloc: Global, out: &mut Shown, request: &Request) {
    let mut text = Vec::new(alloc);
    let written = write_request(request, Form::Absolute, &mut text);
    show_message(out, &text, written.is_ok(), request.streamed);
}

fn show_response(alloc: Global, out: &mut Shown, response: &Option<Shared<Response>>) {
    match response {
        Some(response) => show_response_of(alloc, out, response.get()),
        None => out.text(" | -"),
    }
}

fn show_response_of(alloc: Global, out: &mut Shown, response: &Response) {
    let mut text = Vec::new(alloc);
    let written = write_response(response, false, &mut text);
    show_message(out, &text, written.is_ok(), response.streamed);
}

// The text of a message, if it was written whole.
fn show_message(out: &mut Shown, text: &[u8], is_whole: bool, is_streamed: bool) {
    out.text(" | ");
    out.bytes(text);
    if is_streamed {
        out.text(" streamed");
    }
    if !is_whole {
        out.spend();
    }
}
