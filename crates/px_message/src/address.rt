//! Where a server, a proxy or a client is.
ghost use Rattle.std.specs.Prelude.{◌≡◌, ◌≢◌, IfOk};

use crate::Host;
use px_text::NoMemory;
use std::alloc::AllocError;

/// A host and a port. The port is not 0.
#[derive(Debug, Drop, PartialEq, Eq)]
pub struct Address {
    pub host: Host,
    pub port: u16,
    ghost port_not_zero: { port ≢ 0 },
}

impl Clone for Address {
    ghost is_clone = { λ x y. y ≡ x };

    fn clone(&self) -> Result<Address, AllocError> {
        Ok(Address {
            host: self.host.clone()?,
            port: self.port,
        })
    }
}

impl Address {
    /// A copy of the same host and port.
    pub fn try_clone(&self) -> Result<Address, NoMemory>
        ensures { IfOk result (λ copy. copy ≡ self.now) }
    {
        Ok(self.clone()?)
    }
}
