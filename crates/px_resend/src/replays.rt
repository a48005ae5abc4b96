//! Makes conversations with clients, and those of recorded requests that are sent again.
ghost use Rattle.std.specs.Prelude.{◌≡◌};

use crate::resend::FIRST_NUMBER;
use crate::{ClientMaker, Conversation, Resend};
use px_core::{LayerMaker, Numbered};
use px_message::{Address, Flow};
use px_text::NoMemory;
use std::alloc::Global;

/// Makes conversations with clients as this maker does, and for each of these flows, in their order, one that sends its request again. Behind the first 2^31 flows
/// the others are not sent.
#[derive(Debug, Drop)]
pub struct Replays<K> {
    alloc: Global,
    layers: K,
    proxy: Option<Address>,
    flows: Vec<Flow>,
}

impl<K> Replays<K> {
    /// A maker of conversations with clients, and of those that send the requests of these flows again: to this proxy, or to their own hosts.
    pub fn new(alloc: Global, layers: K, proxy: Option<Address>, flows: Vec<Flow>) -> Replays<K>
        ensures layers { result.layers ≡ layers }
        ensures proxy { result.proxy ≡ proxy }
        ensures flows { result.flows ≡ flows }
    {
        Replays {
            alloc,
            layers,
            proxy,
            flows,
        }
    }
}

impl<L: Numbered, K: ClientMaker<L>> LayerMaker<Conversation<L>> for Replays<K> {
    ghost use Rattle.px_resend.specs.Due.{due_with, most_replayed};

    ghost due = { λ maker. due_with (K.due maker.layers) maker.proxy maker.flows.items };

    ghost alone = { λ maker. most_replayed maker.flows.items };

    fn make(&mut self, conv: u32, peer: &Address) -> Result<Conversation<L>, NoMemory> {
        Ok(Conversation::Client(self.layers.make(conv, peer)?))
    }

    fn count_alone(&self) -> u32 {
        // as many numbers stand from the first one on as below it
        let count = self.flows.len();
        if count < FIRST_NUMBER as usize {
            count as u32
        } else {
            FIRST_NUMBER
        }
    }

    fn make_alone(&mut self, conv: u32) -> Result<Conversation<L>, NoMemory> {
        let index = conv - FIRST_NUMBER;
        match self.flows.get(index as usize) {
            Some(flow) => Ok(Conversation::Resent(Resend::through(
                self.alloc,
                flow,
                index,
                &self.proxy,
            )?)),
            None => unreachable!(),
        }
    }
}
