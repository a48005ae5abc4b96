//! Why the program can't listen, for people.
ghost use Rattle.std.specs.Prelude.{◌≡◌, ◌++◌, IfOk, OnOk};
ghost use Rattle.mitm.specs.Cause.{cause_line};

use px_message::Address;
use px_mio::{ListenFault, MioWire};
use px_outside::Sink;
use px_text::{NoMemory, push_decimal};
use std::alloc::Global;
use std::net::Net;
use std::sync::Wait;
use std::time::Clock;

/// Writes `cannot listen at HOST:PORT: CAUSE` where the wire tells that. What is not written, since memory runs out or the sink
/// fails, changes nothing.
pub fn tell_cause<R: Net + Wait + Clock + Alloc<A = Global> + Drop, S: Sink>(
    alloc: Global,
    wire: &MioWire<R>,
    notes: &mut S,
) {
    let Some(why) = wire.why() else {
        return;
    };
    let Some(address) = wire.refused_at() else {
        return;
    };
    if let Ok(line) = line_of(alloc, address, why) {
        let _ = notes.write(&line);
    }
}

fn line_of(alloc: Global, address: &Address, why: ListenFault) -> Result<Vec<u8>, NoMemory>
    ensures { IfOk result (λ line. line.items ≡ cause_line address.now why) }
{
    let mut line = Vec::from_slice(alloc, b"cannot listen at ")?;
    line.extend_from_slice(address.host.bytes())?;
    line.push(b':')?;
    push_decimal(&mut line, u64::from(address.port))?;
    line.extend_from_slice(b": ")?;
    line.extend_from_slice(why.text().as_bytes())?;
    line.push(b'\n')?;
    Ok(line)
}
