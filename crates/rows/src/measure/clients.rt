//! Clients one behind the other through the whole program.
ghost use Rattle.std.specs.Prelude.{◌≡◌, None};
ghost use Rattle.px_outside.specs.Net.{idle};

use px_app::run;
use px_event::{Door, Heard, Said, Side, Step};
use px_message::{Address, Host};
use px_outside::{MemFiles, Net, NetError, ScriptNet, Sink, SinkError};
use px_text::{Bytes, NoMemory};
use std::alloc::Global;

/// What a client does next.
#[derive(Clone, Copy)]
enum Turn {
    Connects,
    Asks,
    IsDialled,
    IsAnswered,
    Closes,
}

/// A network over which so many clients come one behind the other. Each sends a GET, is answered, and closes. It tells no
/// trace, and keeps nothing of what is said.
#[derive(Drop)]
struct Clients {
    alloc: Global,
    doors: ScriptNet,
    conv: u32,
    count: u32,
    turn: Turn,
}

impl Clients {
    fn new(alloc: Global, count: u32) -> Clients
        ensures idle { result.doors.listening ≡ idle }
    {
        Clients {
            alloc,
            doors: ScriptNet::new(alloc, Vec::new(alloc), Vec::new(alloc)),
            conv: 0,
            count,
            turn: Turn::Connects,
        }
    }

    fn peer(&self) -> Result<Address, NoMemory> {
        let host = Vec::from_slice(self.alloc, b"127.0.0.1")?;
        match Host::try_new(self.alloc, host) {
            Ok(host) => Ok(Address { host, port: 50_000 }),
            Err(_) => Err(NoMemory),
        }
    }

    fn piece(&self, side: Side, text: &[u8]) -> Result<Heard, NoMemory> {
        Ok(Heard::Piece {
            conv: self.conv,
            side,
            bytes: Bytes::copied(self.alloc, text)?,
        })
    }

    fn heard(&self) -> Result<Heard, NoMemory> {
        let conv = self.conv;
        match self.turn {
            Turn::Connects => Ok(Heard::Accepted {
                conv,
                door: Door::Proxy,
                peer: self.peer()?,
            }),
            Turn::Asks => self.piece(Side::Client, b"GET / HTTP/1.1\r\nHost: a\r\n\r\n"),
            Turn::IsDialled => Ok(Heard::Dialled {
                conv,
                server: 0,
                ok: true,
            }),
            Turn::IsAnswered => self.piece(
                Side::Server(0),
                b"HTTP/1.1 200 OK\r\nContent-Length: 5\r\n\r\nhello",
            ),
            Turn::Closes => Ok(Heard::Closed {
                conv,
                side: Side::Client,
            }),
        }
    }

    fn step(&mut self)
        ensures doors { self.new.doors ≡ self.old.doors }
    {
        self.turn = match self.turn {
            Turn::Connects => Turn::Asks,
            Turn::Asks => Turn::IsDialled,
            Turn::IsDialled => Turn::IsAnswered,
            Turn::IsAnswered => Turn::Closes,
            Turn::Closes => {
                self.conv = self.conv.saturating_add(1);
                Turn::Connects
            }
        };
    }
}

impl Net for Clients {
    ghost trace = { λ _. None };

    ghost faults = { λ n. n.doors.faults };

    ghost listening = { λ n. n.doors.listening };

    fn listen(&mut self, proxy: &Address, control: Option<&Address>) -> Result<(), NetError> {
        self.doors.listen(proxy, control)
    }

    fn next(&mut self) -> Result<(u64, Heard), NetError> {
        if self.conv == self.count {
            return Ok((0, Heard::End));
        }
        let heard = self.heard()?;
        self.step();
        Ok((0, heard))
    }

    fn say(&mut self, _conv: u32, said: Said) -> Result<(), NoMemory> {
        drop(said);
        Ok(())
    }

    fn note(&mut self, _step: &Step) -> Result<(), NoMemory> {
        Ok(())
    }
}

/// A sink that counts bytes and keeps none.
#[derive(Drop)]
struct Counter {
    bytes: u64,
}

impl Sink for Counter {
    ghost written = { λ _. None };

    ghost faults = { λ _. 0 };

    fn write(&mut self, bytes: &[u8]) -> Result<(), SinkError> {
        self.bytes = self.bytes.saturating_add(bytes.len() as u64);
        Ok(())
    }
}

fn words(alloc: Global) -> Result<Vec<String>, NoMemory> {
    let mut words = Vec::new(alloc);
    for word in ["serve", "o"] {
        words.push(String::from_str(alloc, word)?)?;
    }
    Ok(words)
}

// An options file by whose path the words go.
fn options_file(alloc: Global) -> Result<MemFiles, NoMemory> {
    let path = String::from_str(alloc, "o")?;
    let text = Vec::from_slice(alloc, b"mode = \"reverse:http://h\"\n")?;
    let mut files = Vec::new(alloc);
    files.push((path, text))?;
    Ok(MemFiles::new(alloc, files, Vec::new(alloc)))
}

/// Serves so many clients, one behind the other, and gives how many bytes of lines were printed.
pub(crate) fn serve_clients(alloc: Global, count: u32) -> Result<u64, NoMemory> {
    let words = words(alloc)?;
    let mut files = options_file(alloc)?;
    let mut net = Clients::new(alloc, count);
    let mut out = Counter { bytes: 0 };
    let mut notes = Counter { bytes: 0 };
    let status = run(
        alloc,
        &words,
        &mut net,
        &mut files,
        &mut out,
        &mut notes,
        Vec::new(alloc),
        [0; 32],
    );
    drop(net);
    drop(files);
    match status {
        0 => Ok(out.bytes),
        _ => Err(NoMemory),
    }
}
