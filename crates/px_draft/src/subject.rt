//! What a hook is about.
ghost use Rattle.std.specs.Prelude.{◌≡◌};
ghost use Rattle.px_draft.specs.Subjects.{is_whole, subject_of};

use px_event::Hook;

/// The message of a flow that a hook is about.
#[derive(Clone, Copy)]
pub enum Subject {
    Request,
    Response,
    /// A message of a WebSocket.
    Message,
}

pub(crate) fn subject_of(hook: Hook) -> Subject
    ensures { result ≡ subject_of hook }
{
    match hook {
        Hook::RequestHead => Subject::Request,
        Hook::RequestBody => Subject::Request,
        Hook::ResponseHead => Subject::Response,
        Hook::ResponseBody => Subject::Response,
        Hook::WsMessage(_) => Subject::Message,
    }
}

// Whether the message is whole at the hook.
pub(crate) fn is_whole(hook: Hook) -> bool
    ensures { result ≡ is_whole hook }
{
    match hook {
        Hook::RequestHead | Hook::ResponseHead => false,
        Hook::RequestBody | Hook::ResponseBody | Hook::WsMessage(_) => true,
    }
}
