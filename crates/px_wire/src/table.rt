//! The slots in use, how many connections were accepted, and the moment of the last `ready`.
ghost use Rattle.std.specs.Prelude.{◌≡◌, []};
ghost use Rattle.px_wire.specs.Holds.{Holds};

use crate::endpoints::Endpoints;
use std::alloc::Global;

/// What lines know of their wire.
#[derive(Drop)]
pub struct Table {
    pub endpoints: Endpoints,
    /// How many connections were accepted and have a number.
    pub accepted: u32,
    /// The moment of the last `ready`, and 0 before.
    pub moment: u64,
}

impl Table {
    /// No slot is in use.
    pub fn new(alloc: Global) -> Table
        ensures endpoints { Holds result.endpoints [] }
        ensures accepted { result.accepted ≡ 0 }
        ensures moment { result.moment ≡ 0 }
    {
        Table {
            endpoints: Endpoints::new(alloc),
            accepted: 0,
            moment: 0,
        }
    }
}
