//! A message, whole or as far as it has come.
ghost use Rattle.std.specs.Prelude.{◌≡◌, IfOk};
ghost use Rattle.std.specs.Str.{is_utf8 as utf8};
ghost use Rattle.px_relay.specs.Messages as spec;

use crate::lengths::Lengths;
use px_frame::Frame;
use px_text::{Bytes, NoMemory};
use std::alloc::Global;
use std::marker::Model;
use std::str;

/// A message, whole or as far as it has come. In a contract it is the record of `specs/Messages.antt`. The lengths of its fragments take less than a byte for
/// each byte of their frames (`Lengths`).
#[derive(Debug, Drop)]
pub(crate) struct Gathered {
    pub(crate) text: bool,
    pub(crate) lengths: Lengths,
    pub(crate) payload: Bytes,
}

impl Model for Gathered {
    ghost use Rattle.px_relay.specs.Messages.{Message};

    ghost Value = { Message };

    ghost view = { λ m. record { text = m.text; lengths = m.lengths; payload = m.payload } };
}

/// The message that has begun, if one has, with this frame of data more.
pub(crate) fn gather(
    alloc: Global,
    begun: Option<Gathered>,
    frame: Frame,
) -> Result<Gathered, NoMemory>
    ensures { IfOk result (λ made. made ≡ spec.gathered begun frame) }
{
    match begun {
        None => begin(alloc, frame),
        Some(message) => message.continued(alloc, frame),
    }
}

fn begin(alloc: Global, frame: Frame) -> Result<Gathered, NoMemory>
    ensures { IfOk result (λ made. made ≡ spec.gathered None frame) }
{
    Ok(Gathered {
        text: frame.opcode == 1,
        lengths: Lengths::new(alloc, frame.payload.len()),
        payload: frame.payload,
    })
}

impl Gathered {
    // With one frame more.
    fn continued(self, alloc: Global, frame: Frame) -> Result<Gathered, NoMemory>
        ensures { IfOk result (λ made. made ≡ spec.gathered (Some self) frame) }
    {
        let mut lengths = self.lengths;
        lengths.push(frame.payload.len())?;
        Ok(Gathered {
            text: self.text,
            lengths,
            payload: self.payload.append(alloc, frame.payload.as_slice())?,
        })
    }

    /// Whether this payload is none of a message of its kind: a text has to be UTF-8.
    pub(crate) fn refuses(&self, payload: &[u8]) -> bool
        ensures { result ≡ spec.is_bad_text self.now.text payload.now }
    {
        self.text && !is_utf8(payload)
    }
}

fn is_utf8(bytes: &[u8]) -> bool
    ensures { result ≡ utf8 bytes.now }
{
    str::from_utf8(bytes).is_ok()
}
