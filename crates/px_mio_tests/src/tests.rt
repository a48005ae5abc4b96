//! A client that connects, is read and is answered; and one that nobody read.
use px_message::{Address, Host};
use px_mio::MioWire;
use px_wire::{Got, Put, Ready, Wire};
use std::alloc::Global;
use std::io::{self, Read, Write};
use std::net::{Ipv4Addr, Net, OpenListener, SocketAddr, TcpListener, TcpStream};
use std::sync::Wait;
use std::test::Fail;
use std::time::Clock;

// A port of this machine.
fn local(port: u16) -> SocketAddr {
    SocketAddr::from((Ipv4Addr::LOCALHOST, port))
}

// A port at which nobody listens.
fn free_port<R: Net>(rt: &R) -> io::Result<u16> {
    let listener = TcpListener::bind(rt, local(0))?;
    Ok(listener.local_addr()?.port())
}

fn address(alloc: Global, port: u16) -> Result<Address, Fail> {
    if port == 0 {
        return Err("no port".into());
    }
    match Host::try_new(alloc, Vec::from_slice(alloc, b"127.0.0.1")?) {
        Ok(host) => Ok(Address { host, port }),
        Err(_) => Err("no host".into()),
    }
}

// The slot of an accepted connection, where this tells one.
fn accepted_slot(told: &Ready) -> Option<u32> {
    match told {
        Ready::Accepted { slot, .. } => Some(*slot),
        _ => None,
    }
}

// Whether this tells that the slot is readable.
fn is_readable(told: &Ready, slot: u32) -> bool {
    match told {
        Ready::Readable(other) => *other == slot,
        _ => false,
    }
}

// The slot of the next connection that is accepted.
fn accepted<R: Net + Wait + Clock + Alloc<A = Global> + Drop>(
    wire: &mut MioWire<R>,
) -> Result<u32, Fail> {
    let (_, told) = wire.ready()?;
    match accepted_slot(&told) {
        Some(slot) => Ok(slot),
        None => Err("something else was told".into()),
    }
}

// Whether the slot is readable next, gives `hello`, and takes `world` before it is shut.
fn answers<R: Net + Wait + Clock + Alloc<A = Global> + Drop>(
    wire: &mut MioWire<R>,
    slot: u32,
) -> Result<bool, Fail> {
    let (_, told) = wire.ready()?;
    let mut room = [0; 16];
    let got = wire.get(slot, &mut room);
    let put = wire.put(slot, b"world");
    wire.shut(slot);
    Ok(
        is_readable(&told, slot)
            && got == Got::Gave(5)
            && room.starts_with(b"hello")
            && put == Put::Took(5),
    )
}

// Whether what the client sends is answered so, and the answer is all that it reads.
fn talks<R: Net + Wait + Clock + Alloc<A = Global> + Drop, S: Read + Write>(
    wire: &mut MioWire<R>,
    client: &mut S,
) -> Result<bool, Fail> {
    let slot = accepted(wire)?;
    client.write_all(b"hello")?;
    let answered = answers(wire, slot)?;
    let mut room = [0; 5];
    client.read_exact(&mut room)?;
    Ok(answered && room == *b"world" && client.read(&mut room)? == 0)
}

// Whether a client that nobody read has what was put, and its end, where the wire parts with its sockets.
fn parts<R: Net + Wait + Clock + Alloc<A = Global> + Drop, S: Read + Write>(
    mut wire: MioWire<R>,
    client: &mut S,
) -> Result<bool, Fail> {
    let slot = accepted(&mut wire)?;
    client.write_all(b"hello")?;
    let put = wire.put(slot, b"world");
    wire.part();
    let mut room = [0; 5];
    client.read_exact(&mut room)?;
    Ok(put == Put::Took(5) && room == *b"world" && client.read(&mut room)? == 0)
}

#[test]
fn a_client_is_read_and_answered(rt: HostRuntime) -> Result<(), Fail> {
    let port = free_port(&rt)?;
    let address = address(rt.alloc(), port)?;
    let mut wire = MioWire::new(rt)?;
    wire.listen(&address, None)?;
    let mut client = TcpStream::connect(&rt, local(port))?;
    let talked = talks(&mut wire, &mut client);
    drop(client);
    drop(wire);
    assert!(rt; talked?);
    Ok(())
}

#[test]
fn a_client_that_nobody_read_is_not_reset(rt: HostRuntime) -> Result<(), Fail> {
    let port = free_port(&rt)?;
    let address = address(rt.alloc(), port)?;
    let mut wire = MioWire::new(rt)?;
    wire.listen(&address, None)?;
    let mut client = TcpStream::connect(&rt, local(port))?;
    let parted = parts(wire, &mut client);
    drop(client);
    assert!(rt; parted?);
    Ok(())
}
