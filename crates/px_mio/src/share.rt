//! How much is done for one socket before the others have their turn.

/// How often something was done since the system was polled last.
#[derive(Clone, Copy, Debug)]
pub(crate) struct Share {
    turn: u64,
    used: u32,
}

impl Share {
    /// None of it is used.
    pub(crate) fn new() -> Share {
        Share { turn: 0, used: 0 }
    }

    /// Whether it may be done once more in this turn, where that is `most` times; this counts as one of them. Each poll
    /// begins a turn.
    pub(crate) fn take(&mut self, turn: u64, most: u32) -> bool {
        if self.turn != turn {
            self.turn = turn;
            self.used = 0;
        }
        if self.used >= most {
            return false;
        }
        self.used = self.used.saturating_add(1);
        true
    }
}
