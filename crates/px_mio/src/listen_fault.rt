//! Why a wire could not listen.
ghost use Rattle.std.specs.Prelude.{◌≡◌};
ghost use Rattle.px_mio.specs.Listening.{fault_of, text_of};

use std::io::ErrorKind;

/// Why listening failed, as far as the system told.
#[derive(Clone, Copy, Debug, PartialEq, Eq)]
pub enum ListenFault {
    /// Another socket listens there.
    InUse,
    /// No socket of this machine can have the address.
    NoSuchAddress,
    /// The system does not permit it, as for ports below 1,024.
    NotPermitted,
    /// The host's name has no address.
    NoSuchName,
    /// Something else.
    Other,
}

impl ListenFault {
    /// The fault in words, for people.
    pub fn text(self) -> &'static str
        ensures text { result.now ≡ text_of self }
    {
        match self {
            ListenFault::InUse => "address in use",
            ListenFault::NoSuchAddress => "no such address",
            ListenFault::NotPermitted => "not permitted",
            ListenFault::NoSuchName => "no such name",
            ListenFault::Other => "other fault",
        }
    }

    /// The fault that an error of this kind is, where a socket could not be bound.
    pub(crate) fn of_kind(kind: ErrorKind) -> ListenFault
        ensures fault { result ≡ fault_of kind }
    {
        match kind {
            ErrorKind::AddrInUse => ListenFault::InUse,
            ErrorKind::AddrNotAvailable => ListenFault::NoSuchAddress,
            ErrorKind::PermissionDenied => ListenFault::NotPermitted,
            _ => ListenFault::Other,
        }
    }
}
