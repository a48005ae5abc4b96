//! The calls of a wire.
use crate::Ready;
use px_event::Step;
use px_message::Address;
use px_text::Bytes;

/// One call of a wire with its answer. Calls that answered out of memory are not listed, nor is `listen`.
#[derive(Drop)]
pub enum WireCall {
    /// `ready` told this, at this moment.
    Told {
        moment: u64,
        ready: Ready,
    },
    /// `ready` failed.
    NotReady,
    /// This address was dialled, for this step, and its slot.
    Dialled {
        address: Address,
        step: Step,
        slot: u32,
    },
    /// The step was noted.
    Noted {
        step: Step,
    },
    /// The wire took these bytes for the slot.
    Took {
        slot: u32,
        bytes: Bytes,
    },
    /// The wire took nothing: the slot can take no more at present.
    PutBlocked {
        slot: u32,
    },
    /// The wire took nothing: the slot's socket failed.
    PutBroke {
        slot: u32,
    },
    /// The wire gave these bytes from the slot.
    Gave {
        slot: u32,
        bytes: Bytes,
    },
    /// The wire gave nothing: the slot has nothing at present.
    GetBlocked {
        slot: u32,
    },
    /// The wire gave nothing: the slot's bytes have ended.
    GetEnded {
        slot: u32,
    },
    /// The wire gave nothing: the slot's socket failed.
    GetBroke {
        slot: u32,
    },
    /// The slot was shut.
    Shut {
        slot: u32,
    },
}
