//! Why a WebSocket fails.
ghost use Rattle.std.specs.Prelude.{◌≡◌};
ghost use Rattle.px_relay.specs.Failures as spec;

use px_frame::FrameFault;

/// Why a WebSocket fails (RFC 6455 section 7.1.7).
#[derive(Clone, Copy, Debug, PartialEq, Eq)]
pub enum Failure {
    /// Bytes of a side are no frames.
    BadFrame(FrameFault),
    /// A text is no UTF-8.
    NotText,
}

impl Failure {
    /// The payload of the Close frame that tells it (section 7.4.1).
    pub(crate) fn payload(self) -> [u8; 2]
        ensures { result ≡ spec.failure_payload self }
    {
        self.code().to_be_bytes()
    }

    fn code(self) -> u16
        ensures { result ≡ spec.close_code self }
    {
        match self {
            Failure::BadFrame(FrameFault::TooBig) => 1009,
            Failure::BadFrame(_) => 1002,
            Failure::NotText => 1007,
        }
    }
}
