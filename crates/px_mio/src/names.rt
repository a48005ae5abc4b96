//! What is remembered of names that were looked up.
use crate::name::{copied, look_up_text, number_of, one, text_of};
use px_message::Address;
use px_text::NoMemory;
use std::alloc::Global;
use std::collections::VecDeque;
use std::net::{Net, SocketAddr};
use std::time::{Clock, Duration, Instant};

// So many seconds a name's addresses are used again, and that it had none is remembered.
const KEPT: u64 = 30;

const FAILED: u64 = 10;

// So many names are kept, and so many that failed.
const NAMES: usize = 64;

// A look-up that failed behind so many milliseconds has timed out. For so many seconds behind it none is made.
const TIMED_OUT: u64 = 900;

const REST: u64 = 10;

/// Names that were looked up a short while ago, in the order in which they were. Those that failed are kept apart, so that they push out
/// none that has addresses.
#[derive(Drop)]
pub(crate) struct Names {
    known: VecDeque<Known>,
    failed: VecDeque<Known>,
    // No name is looked up before, since a look-up timed out.
    rests_until: Option<Instant>,
}

// A `HOST:PORT` with its addresses, and when they were looked up.
#[derive(Drop)]
struct Known {
    text: Vec<u8>,
    addresses: VecDeque<SocketAddr>,
    since: Instant,
}

impl Names {
    /// No name.
    pub(crate) fn new(alloc: Global) -> Names {
        Names {
            known: VecDeque::new(alloc),
            failed: VecDeque::new(alloc),
            rests_until: None,
        }
    }

    /// The addresses of `HOST:PORT`; none where it has none. A name that was looked up within half a minute is not looked up again, nor
    /// one that failed within ten seconds. The look-up waits.
    pub(crate) fn find<R: Net + Clock>(
        &mut self,
        rt: &R,
        alloc: Global,
        address: &Address,
    ) -> Result<VecDeque<SocketAddr>, NoMemory> {
        let text = text_of(alloc, address)?;
        if let Some(number) = number_of(&text) {
            return one(alloc, number);
        }
        let Ok(now) = Instant::now(rt) else {
            return look_up_text(rt, alloc, &text);
        };
        self.forget_old(now);
        if let Some(known) = self.known.iter().find(|known| known.text == text) {
            return copied(alloc, &known.addresses);
        }
        if self.is_hopeless(&text) {
            return Ok(VecDeque::new(alloc));
        }
        self.look_up(rt, alloc, text, now)
    }

    // Lets go of what was looked up too long ago. While no name is looked up all that have addresses are kept.
    fn forget_old(&mut self, now: Instant) {
        forget(&mut self.failed, FAILED, now);
        if self.rests_until.is_some_and(|until| now < until) {
            return;
        }
        self.rests_until = None;
        forget(&mut self.known, KEPT, now);
    }

    // Whether the name failed a short while ago, or names are not looked up at present: then that of this machine alone is.
    fn is_hopeless(&self, text: &[u8]) -> bool {
        if self
            .failed
            .iter()
            .any(|known| known.text.as_slice() == text)
        {
            return true;
        }
        self.rests_until.is_some() && !text.starts_with(b"localhost:")
    }

    // Looks the name up, and remembers what came of it.
    fn look_up<R: Net + Clock>(
        &mut self,
        rt: &R,
        alloc: Global,
        text: Vec<u8>,
        began: Instant,
    ) -> Result<VecDeque<SocketAddr>, NoMemory> {
        let addresses = look_up_text(rt, alloc, &text)?;
        let found = copied(alloc, &addresses)?;
        let since = Instant::now(rt).unwrap_or(began);
        let known = Known {
            text,
            addresses,
            since,
        };
        if found.is_empty() {
            self.rest_if_late(since, since.duration_since(began));
            keep(&mut self.failed, known)?;
        } else {
            keep(&mut self.known, known)?;
        }
        Ok(found)
    }

    // Where a look-up that failed has timed out, no name is looked up for a while.
    fn rest_if_late(&mut self, now: Instant, took: Duration) {
        if took >= Duration::from_millis(TIMED_OUT) {
            self.rests_until = now.checked_add(Duration::from_secs(REST));
        }
    }
}

// Lets go of the names that were looked up so many seconds ago.
fn forget(names: &mut VecDeque<Known>, seconds: u64, now: Instant) {
    names.retain(|known| now.duration_since(known.since).as_secs() < seconds);
}

// Keeps a name in the place of the oldest one, where there are many.
fn keep(names: &mut VecDeque<Known>, name: Known) -> Result<(), NoMemory> {
    if names.len() >= NAMES {
        let _ = names.pop_front();
    }
    names.push_back(name)?;
    Ok(())
}
