//! What an ask is answered with.
ghost use Rattle.std.specs.Prelude.{◌≡◌, IfOk};

use px_message::{Fault, Flow, Response};
use px_text::NoMemory;

/// An answer to a hook or a dial.
#[derive(Clone, Debug, Drop, PartialEq, Eq)]
pub enum Reply {
    /// Go on with the flow as it is here. At a head hook, a body above so many bytes may be streamed.
    Go { flow: Flow, stream: Option<u64> },
    /// Answer the request with this response.
    Respond(Response),
    /// End the flow and its conversation.
    Kill,
    /// Drop the WebSocket's message.
    Discard,
    /// The dialled server is connected.
    Dialled,
    /// The dial was refused, for this fault.
    Refused(Fault),
}

impl Reply {
    /// A copy of the same reply.
    pub fn try_clone(&self) -> Result<Reply, NoMemory>
        ensures { IfOk result (λ copy. copy ≡ self.now) }
    {
        Ok(self.clone()?)
    }
}
