//! Which connections would come back to a door of the program's own.
ghost use Rattle.std.specs.Prelude.{◌≡◌, ◌≢◌, ◌⊎◌};
ghost use Rattle.std.specs.Net.Socket.{socket_ip, socket_port};
ghost use Rattle.std.specs.declared.net.ip_addr.IpAddr.{IpAddr as Ip};
ghost use Rattle.px_mio.specs.Own.{IsAnywhere, IsSeenAs};

use std::io::ErrorKind;
use std::net::{Net, SocketAddr, UdpSocket};

/// Whether a connection to an address comes to a door, as far as both addresses tell.
#[derive(Clone, Copy, Debug, PartialEq, Eq)]
pub(crate) enum Judged {
    /// It does not.
    Elsewhere,
    /// It does.
    Own,
    /// It does where the address is one of this machine's.
    OwnIfHere,
}

/// Whether a connection to the address comes to a door that listens at the other one: at each address of this machine where that is the
/// unspecified one, which stands for such an address also where it is connected to.
pub(crate) fn judge(to: SocketAddr, door: SocketAddr) -> Judged
    ensures other_port { socket_port to ≢ socket_port door → result ≡ Judged.Elsewhere }
    ensures own { (ip : Ip) → socket_port to ≡ socket_port door → IsSeenAs (socket_ip to) ip → IsSeenAs (socket_ip door) ip → result ≡ Judged.Own }
    ensures anywhere { (ip own : Ip) → socket_port to ≡ socket_port door → IsSeenAs (socket_ip to) ip → IsSeenAs (socket_ip door) own → ip ≢ own → IsAnywhere ip ⊎ IsAnywhere own → result ≡ Judged.OwnIfHere }
    ensures elsewhere { (ip own : Ip) → IsSeenAs (socket_ip to) ip → IsSeenAs (socket_ip door) own → ip ≢ own → ¬ (IsAnywhere ip) → ¬ (IsAnywhere own) → result ≡ Judged.Elsewhere }
{
    if to.port() != door.port() {
        return Judged::Elsewhere;
    }
    let ip = to.ip().to_canonical();
    let own = door.ip().to_canonical();
    if ip == own {
        return Judged::Own;
    }
    if ip.is_unspecified() || own.is_unspecified() {
        return Judged::OwnIfHere;
    }
    Judged::Elsewhere
}

/// Whether a connection to the address comes to a door that listens at the other one.
pub(crate) fn leads_to<R: Net>(rt: &R, to: SocketAddr, door: SocketAddr) -> bool {
    match judge(to, door) {
        Judged::Elsewhere => false,
        Judged::Own => true,
        Judged::OwnIfHere => is_here(rt, to),
    }
}

// Whether the address is one of this machine's, so that a socket can be bound at it. Where the system does not tell, it counts as one.
fn is_here<R: Net>(rt: &R, mut place: SocketAddr) -> bool {
    place.set_port(0);
    match UdpSocket::bind(rt, place) {
        Ok(_) => true,
        Err(error) => error.kind() != ErrorKind::AddrNotAvailable,
    }
}
