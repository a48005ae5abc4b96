//! The sockets of a wire, and what the system tells of them.
//!
//! What is told is worked off in turns. A turn begins with a poll, and in it a slot gives and a door accepts only so much; what is
//! left is noted for the next turn, whose poll does not wait then. So nobody is kept waiting by one who sends without a pause,
//! or by many who connect at once.
ghost use Rattle.std.specs.Prelude.{◌≡◌, ◌⊎◌, IfOk, IfSome, Some, length, option_copied};
ghost use Rattle.px_wire.specs.Calls.{GotWithin, PutWithin};

use crate::ListenFault;
use crate::connection::{Begun, Connection, Drained, Finished};
use crate::descriptors::{lets_in, most_descriptors};
use crate::doors::{Came, Doors};
use crate::listening::{Refused, refusal_at};
use crate::name::{look_up, peer_address};
use crate::names::Names;
use crate::notice::{CONTROL, Notice, PROXY, Way, door_of, reading_of, slot_of, writing_of};
use crate::parting::{Kept, Parted};
use crate::socket::{Attempt, Attempted, Socket, connect, look_at, register};
use mio::event::Event;
use mio::net::{TcpListener, TcpStream};
use mio::{Events, Interest, Poll, Token};
use px_event::Door;
use px_message::Address;
use px_outside::NetError;
use px_text::NoMemory;
use px_wire::{Got, Put, Ready};
use slab::Slab;
use std::alloc::Global;
use std::collections::VecDeque;
use std::mem;
use std::net::{Net, SocketAddr};
use std::os::fd::AsRawFd;
use std::time::{Clock, Duration, Instant, SystemTime, UNIX_EPOCH};

// How many events one poll tells at most.
const EVENTS: usize = 1024;

// While sockets that were shut are kept, the system is asked again after so many seconds, and they are looked at as often.
const LOOK_AGAIN: u64 = 1;

/// Sockets by their slots, and the doors.
#[derive(Drop)]
pub(crate) struct Sockets<R> {
    rt: R,
    alloc: Global,
    poll: Poll,
    events: Events<Global>,
    doors: Doors,
    slots: Slab<Slot>,
    names: Names,
    // What is to be told on before the next poll, and what is left to be done behind it.
    notices: VecDeque<Notice>,
    later: VecDeque<Notice>,
    // How often the system was polled, as far as turns are told apart by it.
    turn: u64,
    // The stamp of the last socket that was given a slot.
    stamp: u64,
    // The sockets that were shut and are kept, and when they were looked at.
    parting: VecDeque<Kept>,
    looked: Option<Instant>,
    // How many descriptors were used when the doors were opened.
    used: u64,
    // A door could not accept a connection that may wait; and a slot's socket was closed since.
    is_refused: bool,
    is_closed_since: bool,
    // The last moment that was told, and 0 before.
    moment: u64,
}

// A socket in its slot. The stamp tells apart those that had the slot one behind the other.
#[derive(Drop)]
struct Slot {
    stamp: u64,
    socket: Socket,
}

impl Slot {
    // Closes its socket at once.
    fn part(self) {
        let Slot { socket, .. } = self;
        socket.part();
    }
}

impl<R: Net + Clock + Alloc<A = Global> + Drop> Sockets<R> {
    /// No socket. `Fault` where the system refuses to tell readiness.
    pub(crate) fn new(rt: R) -> Result<Sockets<R>, NetError> {
        let alloc = rt.alloc();
        let Ok(poll) = Poll::new(&rt) else {
            return Err(NetError::Fault);
        };
        let Ok(events) = Events::with_capacity(alloc, EVENTS) else {
            return Err(NetError::NoMemory);
        };
        Ok(Sockets {
            rt,
            alloc,
            poll,
            events,
            doors: Doors::new(),
            slots: Slab::new(alloc),
            names: Names::new(alloc),
            notices: VecDeque::new(alloc),
            later: VecDeque::new(alloc),
            turn: 0,
            stamp: 0,
            parting: VecDeque::new(alloc),
            looked: None,
            used: 0,
            is_refused: false,
            is_closed_since: false,
            moment: 0,
        })
    }

    /// Opens the doors. Where one can't be had: at which address, and why.
    pub(crate) fn listen(
        &mut self,
        proxy: &Address,
        control: Option<&Address>,
    ) -> Result<Option<Refused>, NoMemory>
        ensures asked { IfOk result (λ found. IfSome found (λ r. (r.address ≡ proxy.now) ⊎ (Some r.address ≡ option_copied control.entry))) }
    {
        match self.bind(proxy, PROXY)? {
            Ok((listener, at)) => self.open_door(Door::Proxy, listener, at),
            Err(why) => return refusal_at(proxy, why),
        }
        let Some(control) = control else {
            return Ok(None);
        };
        match self.bind(control, CONTROL)? {
            Ok((listener, at)) => self.open_door(Door::Control, listener, at),
            Err(why) => return refusal_at(control, why),
        }
        Ok(None)
    }

    // Has the door listen by this socket, which is bound there. Its descriptor is the lowest that was free, so all below it are used.
    fn open_door(&mut self, door: Door, listener: TcpListener, at: SocketAddr) {
        let highest = u64::try_from(listener.as_raw_fd()).unwrap_or(0);
        self.used = highest.saturating_add(1);
        self.doors.set(door, listener, at);
    }

    // A listener at the first of the address's addresses where that can be had, and which that is. Else why it can't at the last of them.
    fn bind(
        &self,
        address: &Address,
        token: Token,
    ) -> Result<Result<(TcpListener, SocketAddr), ListenFault>, NoMemory> {
        let mut addresses = look_up(&self.rt, self.alloc, address)?;
        let mut why = ListenFault::NoSuchName;
        while let Some(address) = addresses.pop_front() {
            match TcpListener::bind(&self.rt, address) {
                Ok(listener) => return Ok(self.watch(listener, address, token)),
                Err(error) => why = ListenFault::of_kind(error.kind()),
            }
        }
        Ok(Err(why))
    }

    // The listener and its address, once the system tells its readiness.
    fn watch(
        &self,
        mut listener: TcpListener,
        address: SocketAddr,
        token: Token,
    ) -> Result<(TcpListener, SocketAddr), ListenFault> {
        let registry = self.poll.registry();
        match registry.register(&mut listener, token, Interest::READABLE) {
            Ok(()) => Ok((listener, address)),
            Err(_) => Err(ListenFault::Other),
        }
    }

    /// Waits until some socket can go on, and tells it with its moment.
    pub(crate) fn ready(&mut self) -> Result<(u64, Ready), NetError> {
        for _ in 0..u64::MAX {
            match self.notices.pop_front() {
                Some(notice) => {
                    let told = self.take_notice(notice)?;
                    if let Some(ready) = told {
                        self.read_clock()?;
                        return Ok((self.moment, ready));
                    }
                }
                None => self.wait()?,
            }
        }
        Err(NetError::Fault)
    }

    // What the system told, as it is told on; none where it was nothing, or of a socket that has the slot no more.
    fn take_notice(&mut self, notice: Notice) -> Result<Option<Ready>, NoMemory> {
        match notice {
            Notice::Door(door) => self.accept(door),
            Notice::Slot { slot, stamp, way } if self.has_stamp(slot, stamp) => {
                self.go_on(slot, way)
            }
            Notice::Slot { .. } => Ok(None),
        }
    }

    // Asks the system, which may wait, and takes down what it tells.
    fn wait(&mut self) -> Result<(), NetError> {
        let most = self.patience();
        if self.poll.poll(&mut self.events, most).is_err() {
            return Err(NetError::Fault);
        }
        self.turn = self.turn.wrapping_add(1);
        self.gather()?;
        self.part_with_late();
        Ok(())
    }

    // How long the system may wait: not at all while something is left to do, and without an end where nothing is.
    fn patience(&self) -> Option<Duration> {
        if !self.later.is_empty() || self.may_accept_again() {
            Some(Duration::ZERO)
        } else if self.parting.is_empty() {
            None
        } else {
            Some(Duration::from_secs(LOOK_AGAIN))
        }
    }

    // Whether a door that could not accept may be able to now, since there is a descriptor more.
    fn may_accept_again(&self) -> bool {
        self.is_refused && self.is_closed_since
    }

    // Takes down what was left to do, and what the last poll told. Where a door could not accept, both are tried again.
    fn gather(&mut self) -> Result<(), NoMemory> {
        mem::swap(&mut self.notices, &mut self.later);
        for event in &self.events {
            if let Some(door) = door_of(event) {
                self.notices.push_back(Notice::Door(door))?;
            }
            if let Some(slot) = slot_of(event) {
                if let Some(place) = self.slots.get(slot as usize) {
                    note(&mut self.notices, slot, place.stamp, event)?;
                }
            }
        }
        if self.is_refused {
            self.is_refused = false;
            self.notices.push_back(Notice::Door(Door::Proxy))?;
            self.notices.push_back(Notice::Door(Door::Control))?;
        }
        Ok(())
    }

    // The microseconds since 1970; 0 before, and the type's end behind it.
    fn read_clock(&mut self) -> Result<(), NetError> {
        let Ok(now) = SystemTime::now(&self.rt) else {
            return Err(NetError::Fault);
        };
        let since = match now.duration_since(UNIX_EPOCH) {
            Ok(since) => since,
            Err(_) => Duration::ZERO,
        };
        self.moment = u64::try_from(since.as_micros()).unwrap_or(u64::MAX);
        Ok(())
    }

    // Accepts a connection at the door. Where the door can't accept for another cause than that none waits, as where few
    // descriptors are left, it is tried again when the system tells something or a socket was closed.
    fn accept(&mut self, door: Door) -> Result<Option<Ready>, NoMemory> {
        let came = if self.lets_in(door) {
            self.doors.accept(door, self.turn)
        } else {
            Came::Refused
        };
        match came {
            Came::Peer(stream, peer) => self.take_in(door, stream, peer),
            Came::Aborted => {
                self.notices.push_back(Notice::Door(door))?;
                Ok(None)
            }
            Came::Enough => {
                self.later.push_back(Notice::Door(door))?;
                Ok(None)
            }
            Came::Refused => {
                self.is_refused = true;
                self.is_closed_since = false;
                Ok(None)
            }
            Came::Nobody => Ok(None),
        }
    }

    // Whether one more may come in at the door: an operator always, and a client while enough descriptors are free.
    fn lets_in(&self, door: Door) -> bool {
        match door {
            Door::Control => true,
            Door::Proxy => {
                let used = self.used.saturating_add(self.slots.len() as u64);
                lets_in(used, most_descriptors())
            }
        }
    }

    // Gives a connection that was accepted at the door a slot. More may wait there.
    fn take_in(
        &mut self,
        door: Door,
        stream: TcpStream,
        peer: SocketAddr,
    ) -> Result<Option<Ready>, NoMemory> {
        self.notices.push_back(Notice::Door(door))?;
        let Some(peer) = peer_address(self.alloc, peer)? else {
            return Ok(None);
        };
        let slot = self.hold(door, stream)?;
        Ok(slot.map(|slot| Ready::Accepted { slot, door, peer }))
    }

    // Gives a socket that was accepted at the door a slot; none where the system doesn't register it, which drops it.
    fn hold(&mut self, door: Door, mut stream: TcpStream) -> Result<Option<u32>, NoMemory> {
        let Some(slot) = self.new_slot()? else {
            return Ok(None);
        };
        let _ = stream.set_nodelay(true);
        if register(self.poll.registry(), &mut stream, slot).is_err() {
            self.free(slot);
            return Ok(None);
        }
        let connection = Connection::new(stream, Begun::ByPeer(door), false);
        self.put_back(slot, Socket::Connected(connection));
        Ok(Some(slot))
    }

    // A slot without a socket; none where all numbers are in use.
    fn new_slot(&mut self) -> Result<Option<u32>, NoMemory> {
        let stamp = self.next_stamp();
        let socket = Socket::Failed;
        let key = self.slots.insert(Slot { stamp, socket })?;
        match u32::try_from(key) {
            Ok(slot) => Ok(Some(slot)),
            Err(_) => {
                let _ = self.slots.try_remove(key);
                Ok(None)
            }
        }
    }

    fn next_stamp(&mut self) -> u64 {
        self.stamp = self.stamp.wrapping_add(1);
        self.stamp
    }

    // The addresses that are connected to for this one, without those of the program's own doors.
    fn addresses(&mut self, address: &Address) -> Result<VecDeque<SocketAddr>, NoMemory> {
        let mut addresses = self.names.find(&self.rt, self.alloc, address)?;
        addresses.retain(|to| !self.doors.have(&self.rt, *to));
        Ok(addresses)
    }

    /// Begins to connect to the address, and gives the slot. How that ends is told.
    pub(crate) fn dial(&mut self, address: &Address) -> Result<u32, NoMemory> {
        let addresses = self.addresses(address)?;
        let Some(slot) = self.new_slot()? else {
            return Err(NoMemory);
        };
        let socket = connect(&self.rt, self.poll.registry(), slot, addresses, false);
        if socket.is_failed() && self.tell(slot, Way::Settle).is_err() {
            self.free(slot);
            return Err(NoMemory);
        }
        self.put_back(slot, socket);
        Ok(slot)
    }

    // Has the slot looked at, before the next poll.
    fn tell(&mut self, slot: u32, way: Way) -> Result<(), NoMemory> {
        let stamp = self.stamp_of(slot);
        self.notices.push_front(Notice::Slot { slot, stamp, way })?;
        Ok(())
    }

    // Has the slot looked at behind the next poll.
    fn tell_later(&mut self, slot: u32) -> Result<(), NoMemory> {
        let way = Way::ReadMore;
        let stamp = self.stamp_of(slot);
        self.later.push_back(Notice::Slot { slot, stamp, way })?;
        Ok(())
    }

    // What a slot's socket is ready for.
    fn go_on(&mut self, slot: u32, way: Way) -> Result<Option<Ready>, NoMemory> {
        match self.take_out(slot) {
            Some(Socket::Connected(mut connection)) => {
                let told = connection.go_on(slot, way);
                self.put_back(slot, Socket::Connected(connection));
                Ok(told)
            }
            Some(Socket::Connecting(attempt)) => self.go_on_connecting(slot, attempt, way),
            Some(Socket::Failed) => Ok(Some(Ready::Dialled(slot, false))),
            Some(Socket::Parting(parted)) => {
                self.go_on_parting(slot, parted, way);
                Ok(None)
            }
            None => Ok(None),
        }
    }

    // What became of a slot's attempt to connect. Where it failed the further addresses of its name are tried, and what was
    // told of its socket is no longer of the one that has the slot.
    fn go_on_connecting(
        &mut self,
        slot: u32,
        attempt: Attempt,
        way: Way,
    ) -> Result<Option<Ready>, NoMemory> {
        match look_at(attempt, way) {
            Attempted::Connected(connection) => {
                self.put_back(slot, Socket::Connected(connection));
                // A put may wait for it.
                self.tell(slot, Way::Write)?;
                Ok(Some(Ready::Dialled(slot, true)))
            }
            Attempted::Connecting(attempt) => {
                self.put_back(slot, Socket::Connecting(attempt));
                Ok(None)
            }
            Attempted::Failed(left, is_awaited) => {
                self.set_stamp(slot);
                let next = connect(&self.rt, self.poll.registry(), slot, left, is_awaited);
                let failed = next.is_failed();
                self.put_back(slot, next);
                Ok(failed.then(|| Ready::Dialled(slot, false)))
            }
        }
    }

    // Reads what the peer still sends to a slot that was shut.
    fn go_on_parting(&mut self, slot: u32, mut parted: Parted, way: Way) {
        let keeps = match way {
            Way::Write => true,
            Way::Read | Way::ReadOn | Way::ReadMore | Way::Settle => match parted.drain() {
                Drained::Blocked => true,
                Drained::More => self.tell_later(slot).is_ok(),
                Drained::Over => false,
            },
        };
        if keeps {
            self.put_back(slot, Socket::Parting(parted));
        } else {
            self.free(slot);
        }
    }

    /// Hands bytes to the slot's socket. One whose dial has not ended, as far as was told, takes none yet.
    pub(crate) fn put(&mut self, slot: u32, bytes: &[u8]) -> Put
        ensures within { PutWithin (length bytes.now) result }
    {
        match self.slots.get_mut(slot as usize) {
            Some(place) => place.socket.put(bytes),
            None => Put::Broken,
        }
    }

    /// Takes bytes of the slot's socket. One that has used up its share of this turn gives none, and is told again in the next.
    pub(crate) fn get(&mut self, slot: u32, room: &mut [u8]) -> Got
        ensures within { GotWithin (length room.old) result }
        ensures room { length room.new ≡ length room.old }
    {
        if self.holds_back(slot) {
            return Got::Blocked;
        }
        match self.slots.get_mut(slot as usize) {
            Some(place) => place.socket.get(room),
            None => Got::Broken,
        }
    }

    // Whether the slot has used up its share of this turn, which is noted for the next. Without memory for the note it has not.
    fn holds_back(&mut self, slot: u32) -> bool {
        let turn = self.turn;
        let Some(place) = self.slots.get_mut(slot as usize) else {
            return false;
        };
        if !place.socket.is_spent(turn) {
            return false;
        }
        let stamp = place.stamp;
        let way = Way::ReadMore;
        if self
            .later
            .push_back(Notice::Slot { slot, stamp, way })
            .is_err()
        {
            return false;
        }
        place.socket.hold();
        true
    }

    /// Closes the slot's socket. A connected one is kept for a while where its peer may not have got all yet: were it closed
    /// before its peer ends, what the peer sent and nobody read would have the system drop that.
    pub(crate) fn shut(&mut self, slot: u32) {
        let Some(socket) = self.take_out(slot) else {
            return;
        };
        match socket.finish() {
            Finished::Parting(stream, left) if self.keep(slot) => {
                let parted = Parted::new(stream);
                match left {
                    Drained::Blocked => self.put_back(slot, Socket::Parting(parted)),
                    Drained::More | Drained::Over => {
                        self.go_on_parting(slot, parted, Way::ReadMore);
                    }
                }
            }
            Finished::Parting(..) | Finished::Closed => self.free(slot),
        }
    }

    /// Closes all sockets at once, where nothing more is told of them: each behind what was put, and behind what stands there to be read.
    pub(crate) fn part(&mut self) {
        for key in 0..self.slots.capacity() {
            if let Some(place) = self.slots.try_remove(key) {
                place.part();
            }
        }
    }

    // Notes that the slot's socket is kept for a while; whether that can be had.
    fn keep(&mut self, slot: u32) -> bool {
        let Ok(now) = Instant::now(&self.rt) else {
            return false;
        };
        let stamp = self.stamp_of(slot);
        let kept = Kept {
            slot,
            stamp,
            shut: now,
            heard: now,
        };
        self.parting.push_back(kept).is_ok()
    }

    // Closes the sockets that were kept long enough, once a second.
    fn part_with_late(&mut self) {
        if self.parting.is_empty() {
            return;
        }
        let Ok(now) = Instant::now(&self.rt) else {
            return;
        };
        if !self.is_time(now) {
            return;
        }
        for _ in 0..self.parting.len() {
            let Some(kept) = self.parting.pop_front() else {
                return;
            };
            self.look_at_kept(kept, now);
        }
    }

    // Whether the kept sockets were not looked at within the last second; they count as looked at now.
    fn is_time(&mut self, now: Instant) -> bool {
        if let Some(looked) = self.looked {
            if now.duration_since(looked).as_secs() < LOOK_AGAIN {
                return false;
            }
        }
        self.looked = Some(now);
        true
    }

    // Closes a kept socket where that was long enough.
    fn look_at_kept(&mut self, mut kept: Kept, now: Instant) {
        let Some(is_heard) = self.take_heard(kept) else {
            return;
        };
        if is_heard {
            kept.heard = now;
        }
        if kept.is_late(now) || self.parting.push_back(kept).is_err() {
            self.free(kept.slot);
        }
    }

    // Where a kept socket is still there, whether its peer sent something since that was asked last.
    fn take_heard(&mut self, kept: Kept) -> Option<bool> {
        let place = self.slots.get_mut(kept.slot as usize)?;
        if place.stamp != kept.stamp {
            return None;
        }
        place.socket.take_heard()
    }

    // The slot's socket, which is put back or whose slot is freed.
    fn take_out(&mut self, slot: u32) -> Option<Socket> {
        let place = self.slots.get_mut(slot as usize)?;
        Some(mem::replace(&mut place.socket, Socket::Failed))
    }

    fn put_back(&mut self, slot: u32, socket: Socket) {
        if let Some(place) = self.slots.get_mut(slot as usize) {
            place.socket = socket;
        }
    }

    fn free(&mut self, slot: u32) {
        let _ = self.slots.try_remove(slot as usize);
        self.is_closed_since = true;
    }

    // The stamp of the slot's socket; 0, which none has, where there is none.
    fn stamp_of(&self, slot: u32) -> u64 {
        match self.slots.get(slot as usize) {
            Some(place) => place.stamp,
            None => 0,
        }
    }

    fn has_stamp(&self, slot: u32, stamp: u64) -> bool {
        match self.slots.get(slot as usize) {
            Some(place) => place.stamp == stamp,
            None => false,
        }
    }

    // Gives the slot's next socket a stamp of its own.
    fn set_stamp(&mut self, slot: u32) {
        let stamp = self.next_stamp();
        if let Some(place) = self.slots.get_mut(slot as usize) {
            place.stamp = stamp;
        }
    }
}

// Takes down what is told of a slot's socket: first that it may be written, which tells whether it is connected.
fn note(
    notices: &mut VecDeque<Notice>,
    slot: u32,
    stamp: u64,
    event: &Event,
) -> Result<(), NoMemory> {
    if let Some(way) = writing_of(event) {
        notices.push_back(Notice::Slot { slot, stamp, way })?;
    }
    if let Some(way) = reading_of(event) {
        notices.push_back(Notice::Slot { slot, stamp, way })?;
    }
    Ok(())
}
