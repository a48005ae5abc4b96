//! A frame at the front of bytes.
ghost use Rattle.std.specs.Prelude.{◌≡◌, ◌≤◌, IfOk, length};
ghost use Rattle.px_frame.specs.Head.{most, so_far};
ghost use Rattle.px_frame.specs.Frames as spec;
ghost use Rattle.px_frame.specs.Fronts.{IsBehind, IsFront};

use crate::fault::FrameFault;
use crate::head::{FrameHead, HeadStep, is_control, read_head};
use crate::mask::push_under_key;
use px_text::{Bytes, NoMemory};
use std::alloc::Global;

/// A frame: FIN, the opcode, and the payload without a mask.
#[derive(Debug, Drop)]
pub struct Frame {
    pub fin: bool,
    pub opcode: u8,
    pub payload: Bytes,
}

/// Where a frame stands: the payload so far, in bytes, of a message that has begun; how many messages may still be completed; and whether
/// the length of the frame was judged before.
#[derive(Clone, Copy, Debug)]
pub struct Standing {
    pub begun: Option<u64>,
    pub left: u64,
    pub judged: bool,
}

impl Standing {
    /// No message may be completed any more, for a frame whose length is judged now.
    fn is_last(self) -> bool
        ensures { result ≡ spec.is_last self }
    {
        self.left == 0 && !self.judged
    }

    /// Where the next frame stands.
    pub fn behind(self, frame: &Frame) -> Standing
        requires { so_far (spec.behind self frame.now).begun ≤ most }
        ensures { result ≡ spec.behind self frame.now }
    {
        if is_control(frame.opcode) {
            return Standing {
                begun: self.begun,
                left: self.left,
                judged: false,
            };
        }
        if frame.fin {
            return Standing {
                begun: None,
                left: self.left.saturating_sub(1),
                judged: false,
            };
        }
        Standing {
            begun: Some(self.begun.unwrap_or(0) + frame.payload.len() as u64),
            left: self.left,
            judged: false,
        }
    }
}

/// What stands at the front of bytes.
#[derive(Debug, Drop)]
pub enum Front {
    /// The bytes begin a frame, and nothing is wrong so far.
    Nothing,
    /// The first fault.
    Refused(FrameFault),
    /// A frame, and how many bytes it has.
    Stands(Frame, usize),
}

/// The frame at the front of the bytes.
pub fn read_front(
    alloc: Global,
    bytes: &[u8],
    masked: bool,
    at: Standing,
) -> Result<Front, NoMemory>
    ensures { IfOk result (λ front. IsFront masked at bytes.now front) }
{
    match read_head(bytes, masked, at.begun, at.is_last()) {
        HeadStep::More => Ok(Front::Nothing),
        HeadStep::Fault(fault) => Ok(Front::Refused(fault)),
        HeadStep::Head(head) => read_payload(alloc, bytes, head),
    }
}

// The frame of a head that stands at the front of the bytes.
fn read_payload(alloc: Global, bytes: &[u8], head: FrameHead) -> Result<Front, NoMemory>
    requires { head.size ≤ length bytes.now }
    ensures { IfOk result (λ front. IsBehind head bytes.now front) }
{
    let behind = &bytes[head.size..];
    let length = head.length as usize;
    if behind.len() < length {
        return Ok(Front::Nothing);
    }
    let mut payload = Vec::with_capacity(alloc, length)?;
    push_under_key(&mut payload, head.key, &behind[..length])?;
    let frame = Frame {
        fin: head.fin,
        opcode: head.opcode,
        payload: Bytes::new(payload)?,
    };
    Ok(Front::Stands(frame, head.size + length))
}
