//! Why bytes are no frames.
use px_text::NoMemory;
use std::alloc::{AllocError, AllocFailed};

/// What is wrong with a frame, in the order in which it is judged (RFC 6455 sections 5.1 to 5.5). The first five are told at byte 0, the
/// next two at byte 1, and the others at the last byte of the length.
#[derive(Clone, Copy, Debug, PartialEq, Eq)]
pub enum FrameFault {
    /// A reserved bit is set; no extension is in use.
    Reserved,
    /// The opcode is none of 0, 1, 2, 8, 9 and 10.
    BadOpcode,
    /// A control frame without FIN.
    SplitControl,
    /// A continuation where no message has begun.
    LoneContinuation,
    /// Text or binary where a message has begun and has not ended.
    NestedMessage,
    /// A client's frame is not masked, or a server's is.
    WrongMask,
    /// A control frame with a payload of more than 125 bytes.
    LongControl,
    /// A shorter form would state the length.
    NotShortest,
    /// A length of 2^63 or more.
    HighBit,
    /// A frame of data makes its message longer than 16,777,216 bytes, or no message may be completed any more.
    TooBig,
}

/// Why a reader gives no more frames.
#[derive(Clone, Copy, Debug, PartialEq, Eq)]
pub enum FrameError {
    /// The bytes are no frames behind those that were given. It is answered again for ever.
    Fault(FrameFault),
    /// Memory ran out. It says nothing of the bytes, and the reader may only be dropped.
    NoMemory,
}

impl From<NoMemory> for FrameError {
    ghost use Rattle.std.specs.Prelude.{◌≡◌};
    ghost use Rattle.px_frame.specs.declared.fault.FrameError.TheVariants as error;

    ghost from_gives = { λ _ e. e ≡ error.NoMemory };

    fn from(_: NoMemory) -> FrameError {
        FrameError::NoMemory
    }
}

impl From<AllocError> for FrameError {
    ghost use Rattle.std.specs.Prelude.{◌≡◌};
    ghost use Rattle.px_frame.specs.declared.fault.FrameError.TheVariants as error;

    ghost from_gives = { λ _ e. e ≡ error.NoMemory };

    fn from(_: AllocError) -> FrameError {
        FrameError::NoMemory
    }
}

impl<T: Drop> From<AllocFailed<T>> for FrameError {
    ghost use Rattle.std.specs.Prelude.{◌≡◌};
    ghost use Rattle.px_frame.specs.declared.fault.FrameError.TheVariants as error;

    ghost from_gives = { λ _ e. e ≡ error.NoMemory };

    fn from(_: AllocFailed<T>) -> FrameError {
        FrameError::NoMemory
    }
}
