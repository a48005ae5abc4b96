//! Where in its conversation a flow stands.
use px_message::Address;
use std::marker::Model;

/// A server's side that is connected, to this address, and that no flow uses: it is kept for a request that goes there. In a
/// contract it is what the chain's stage has parked.
#[derive(Debug, Drop)]
pub struct Kept {
    pub side: u32,
    pub address: Address,
}

impl Model for Kept {
    ghost use Rattle.px_chain.specs.Stages.{Parked};

    ghost Value = { Parked };

    ghost view = { λ k. record { server = k.side; address = k.address } };
}

/// The number of a flow, how many servers were dialled before, which is the number of the next one, and the side that waits for a
/// flow, while none uses one. In a contract it is where the chain's stage stands. A side that is kept no more stays in it up to the next answer.
#[derive(Debug, Drop)]
pub struct At {
    pub flow: u32,
    pub dials: u32,
    pub parked: Option<Kept>,
}

impl Model for At {
    ghost use Rattle.px_chain.specs.Stages.{At};

    ghost Value = { At };

    ghost view = { λ a. record { flow = a.flow; dials = a.dials; parked = a.parked } };
}
