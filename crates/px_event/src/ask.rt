//! What a layer asks and waits for.

/// A question about a flow, answered by the rules, the addons or the operator.
#[derive(Clone, Copy, Debug, PartialEq, Eq)]
pub enum Hook {
    /// The request's head was read; its body is not there yet.
    RequestHead,
    /// The request is whole.
    RequestBody,
    /// The final response's head was read; its body is not there yet.
    ResponseHead,
    /// The response is whole.
    ResponseBody,
    /// This message of the flow's WebSocket is whole, counted from 0 in both directions together.
    WsMessage(u64),
}

/// What is awaited: a hook of the conversation's flow of this index, or the dial of this server.
#[derive(Clone, Copy, Debug, PartialEq, Eq)]
pub enum Ask {
    Hook { flow: u32, hook: Hook },
    Dial { server: u32 },
}
