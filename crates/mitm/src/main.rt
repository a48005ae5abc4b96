//! `mitm`: a debugging proxy for plain HTTP/1.1.
//!
//! The words of the command line go to `px_proxy::run`, with the sockets, the files, the standard output and, for notes, the
//! standard error of the system, and 32 of its random bytes as the key for the masks of frames; the status that it answers is the
//! program's. Where the system refuses to tell the readiness of sockets, it prints the line of a network fault and ends with 5; where
//! it gives no random bytes, it prints `no mask key` and ends with 9; where memory runs out before the run, it ends with 8. In these
//! cases nothing is run.
//!
//! Standard error is told more, for people: what to write, where the words ask for it or have no form; why options were refused; why it can't listen;
//! why a file was not read; which write failed first, and what that ends; and that memory ran out.
#![tactic(auto)]

ghost use Rattle.std.specs.Prelude.{◌≡◌, IfOk};
ghost use Rattle.px_mio.specs.Listening.{listening_of};
ghost use Rattle.px_outside.specs.Net.{idle};

mod cause;
mod foreign;
mod help;
mod named;
mod option_causes;
mod option_values;
mod real_files;
mod refusal;
mod saved;
mod standing;
mod start;
mod std_sink;
mod system_files;
mod telling;

use crate::cause::tell_cause;
use crate::help::{serves, tell_help};
use crate::named::{Named, named_path};
use crate::real_files::RealFiles;
use crate::std_sink::StdSink;
use crate::system_files::SystemFiles;
use px_addons::{Addon, FlowCounter};
use px_mio::MioWire;
use px_outside::{NetError, Sink};
use px_proxy::run;
use px_wire::Lines;
use std::alloc::Global;
use std::io::ErrorKind;
use std::net::Net;
use std::process::ExitCode;
use std::random::RandomSource;
use std::rt::Files as HostFiles;
use std::sync::Wait;
use std::time::Clock;
use std::{env, io};

// The statuses of words without a form, of options that are refused, of a file that is not read, and of one that is no flow file.
const USAGE: u8 = 1;

const REFUSED: u8 = 2;

const NOT_READ: u8 = 3;

const BAD_FLOW_FILE: u8 = 4;

// The status where the network fails, and its line where there are no sockets.
const NET_FAULT: u8 = 5;

const NET_FAULT_LINE: &str = "network fault\n";

// The status when out of memory, and what is told then.
const NO_MEMORY: u8 = 8;

const NO_MEMORY_NOTE: &str = "out of memory\n";

// The status where the system gives no random bytes, and its line.
const NO_MASK_KEY: u8 = 9;

const NO_MASK_KEY_LINE: &str = "no mask key\n";

// What a standard output that fails is called.
const OUTPUT: &str = "standard output";

fn main(rt: HostRuntime) -> ExitCode {
    let mut notes = StdSink::new(rt.stderr(), rt, None);
    let wire = MioWire::new(rt);
    let status = match words(rt) {
        Ok(words) => run_words(rt, wire, &words, &mut notes),
        Err(_) => NO_MEMORY,
    };
    if status == NO_MEMORY {
        let _ = notes.write(NO_MEMORY_NOTE.as_bytes());
    }
    ExitCode::from(status)
}

// Runs what the words say, with these sockets and the system's files and streams.
fn run_words<R: Net + Wait + Clock + Alloc<A = Global> + Drop, N: Sink>(
    rt: HostRuntime,
    wire: Result<MioWire<R>, NetError>,
    words: &[String],
    notes: &mut N,
) -> u8
    requires fresh { IfOk wire (λ wire. listening_of wire.listening ≡ idle) }
{
    let mut out = StdSink::new(rt, rt, serves(words).then_some(OUTPUT));
    match wire {
        Ok(wire) => run_over(rt, wire, words, &mut out, notes),
        Err(NetError::Fault) => stop(&mut out, NET_FAULT_LINE, NET_FAULT),
        Err(NetError::NoMemory) => NO_MEMORY,
    }
}

// The same where there are sockets.
fn run_over<R: Net + Wait + Clock + Alloc<A = Global> + Drop, S: Sink, N: Sink>(
    rt: HostRuntime,
    wire: MioWire<R>,
    words: &[String],
    out: &mut S,
    notes: &mut N,
) -> u8
    requires fresh { listening_of wire.listening ≡ idle }
{
    match Needs::of(rt, words) {
        Ok(needs) => run_with(rt, wire, words, needs, out, notes),
        Err(status) => {
            drop(wire);
            stop(out, line_of(status), status)
        }
    }
}

// The same with what a run needs beside sockets. When it has ended, people are told more of it, and all sockets are closed.
fn run_with<R: Net + Wait + Clock + Alloc<A = Global> + Drop, S: Sink, N: Sink>(
    rt: HostRuntime,
    wire: MioWire<R>,
    words: &[String],
    needs: Needs,
    out: &mut S,
    notes: &mut N,
) -> u8
    requires fresh { listening_of wire.listening ≡ idle }
{
    let Needs {
        mask_key,
        named,
        counter,
    } = needs;
    // A box is made where it is handed on.
    let counter: Box<dyn Addon> = counter;
    let mut addons = Vec::new(rt.alloc());
    if addons.push(counter).is_err() {
        return NO_MEMORY;
    }
    let mut net = Lines::new(rt.alloc(), wire);
    let mut files = RealFiles::new(rt, named);
    let status = run(
        rt.alloc(),
        words,
        &mut net,
        &mut files,
        out,
        notes,
        addons,
        mask_key,
    );
    tell_more(status, words, files.system(), notes);
    if status == NET_FAULT {
        tell_cause(rt.alloc(), net.wire(), notes);
    }
    net.into_wire().part();
    status
}

// Tells people more of a run that ended with this status, of its words and files.
fn tell_more<R: HostFiles + AllocGlobal + Eprint + Drop, N: Sink>(
    status: u8,
    words: &[String],
    files: &SystemFiles<R>,
    notes: &mut N,
) {
    match status {
        USAGE => tell_help(words, notes),
        REFUSED => files.tell_refused(),
        NOT_READ => files.tell_refusal(),
        BAD_FLOW_FILE => files.tell_foreign(),
        _ => {}
    }
}

// What a run needs beside sockets: a key for masks, the file that the words name, and the addon of this program, which counts requests
// and changes nothing.
#[derive(Drop)]
struct Needs {
    mask_key: [u8; 32],
    named: Named,
    counter: Box<FlowCounter>,
}

impl Needs {
    // What a run by these words needs; or the status with which it ends where that can't be had.
    fn of(rt: HostRuntime, words: &[String]) -> Result<Needs, u8> {
        let Some(mask_key) = random_key(&rt) else {
            return Err(NO_MASK_KEY);
        };
        let Ok(named) = named_path(words) else {
            return Err(NO_MEMORY);
        };
        let Ok(counter) = Box::new(rt.alloc(), FlowCounter::new()) else {
            return Err(NO_MEMORY);
        };
        Ok(Needs {
            mask_key,
            named,
            counter,
        })
    }
}

// The line that is printed where a run does not begin.
fn line_of(status: u8) -> &'static str {
    match status {
        NO_MASK_KEY => NO_MASK_KEY_LINE,
        _ => "",
    }
}

// Prints the line, which may fail, and ends with the status.
fn stop<S: Sink>(out: &mut S, line: &str, status: u8) -> u8 {
    let _ = out.write(line.as_bytes());
    status
}

// 32 random bytes of the system, where it gives them.
fn random_key<R: RandomSource>(rt: &R) -> Option<[u8; 32]> {
    let mut key = [0; 32];
    match rt.fill_bytes(&mut key) {
        Ok(()) => Some(key),
        Err(_) => None,
    }
}

// The words behind the program's name. Where one is no text there are none, which has no form.
fn words(rt: HostRuntime) -> io::Result<Vec<String>> {
    match read_words(rt) {
        Ok(words) => Ok(words),
        Err(error) if error.kind() == ErrorKind::OutOfMemory => Err(error),
        Err(_) => Ok(Vec::new(rt.alloc())),
    }
}

fn read_words(rt: HostRuntime) -> io::Result<Vec<String>> {
    let mut words = Vec::new(rt.alloc());
    for word in env::args(&rt)?.skip(1) {
        words.push(word)?;
    }
    Ok(words)
}
