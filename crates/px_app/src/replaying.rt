//! How far a run came with the requests that it sends again.
ghost use Rattle.std.specs.Prelude.{◌≡◌, false};
ghost use Rattle.px_app.specs.Replaying.{behind_flows, has_resent, is_resent};

use px_message::Flow;

/// The numbers of conversations without a client begin here.
pub(crate) const FIRST_NUMBER: u32 = 0x8000_0000;

/// How many of them have begun, and whether one is on its way: its flow is not finished.
#[derive(Clone, Copy, Debug, PartialEq, Eq)]
pub(crate) struct Replaying {
    pub(crate) begun: u32,
    pub(crate) going: bool,
}

impl Replaying {
    /// None has begun.
    pub(crate) fn new() -> Replaying
        ensures begun { result.begun ≡ 0 }
        ensures going { result.going ≡ false }
    {
        Replaying {
            begun: 0,
            going: false,
        }
    }

    /// Behind these flows, which are finished.
    pub(crate) fn behind(self, flows: &[Flow]) -> Replaying
        ensures { result ≡ behind_flows flows.now self }
    {
        Replaying {
            begun: self.begun,
            going: self.going && !has_resent(flows),
        }
    }
}

// Whether one of these flows is of a request that was sent again.
fn has_resent(flows: &[Flow]) -> bool
    ensures { result ≡ has_resent flows.now }
{
    flows.iter().any(|flow| is_resent(flow))
}

fn is_resent(flow: &Flow) -> bool
    ensures { result ≡ is_resent flow.now }
{
    flow.id.conv >= FIRST_NUMBER
}
