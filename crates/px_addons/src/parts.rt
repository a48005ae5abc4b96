//! The parts of a chain, and their order at each hook.
ghost use Rattle.std.specs.Prelude.{◌≡◌};
ghost use Rattle.px_addons.specs.Parts.{parts};

use px_event::Hook;

/// A part of a chain.
#[derive(Clone, Copy, Debug, PartialEq, Eq)]
pub enum Part {
    /// The block rules.
    Block,
    /// The map local rules.
    MapLocal,
    /// The map remote rules.
    MapRemote,
    /// The header rules.
    ModifyHeaders,
    /// The wish for an answer that is not kept elsewhere.
    Anticache,
    /// The wish for an answer in no coding.
    Anticomp,
    /// Kept cookies are sent to requests.
    StickyCookies,
    /// Authorizations that requests show are kept, and given to others.
    StickyAuth,
    /// The cookies that responses set are kept.
    KeepCookies,
    /// Server replay.
    ServerReplay,
    /// The body rules.
    ModifyBody,
    /// The addons that were handed in.
    Addons,
}

// The parts at the hook, in their order.
pub(crate) fn parts(hook: Hook) -> &'static [Part]
    ensures { result.now ≡ parts hook }
{
    match hook {
        Hook::RequestHead => &[
            Part::Block,
            Part::MapLocal,
            Part::MapRemote,
            Part::ModifyHeaders,
            Part::Anticache,
            Part::Anticomp,
            Part::StickyCookies,
            Part::StickyAuth,
            Part::Addons,
        ],
        Hook::RequestBody => &[Part::ServerReplay, Part::ModifyBody, Part::Addons],
        Hook::ResponseHead => &[Part::ModifyHeaders, Part::KeepCookies, Part::Addons],
        Hook::ResponseBody => &[Part::ModifyBody, Part::Addons],
        Hook::WsMessage(_) => &[Part::ModifyBody, Part::Addons],
    }
}
