//! How kept cookies and authorizations come to requests, and what is kept of them.
ghost use Rattle.std.specs.Prelude.{◌≡◌, OnOk};
ghost use Rattle.px_addons.specs.Sticky.{Authorizes, KeepsCookies, sent_cookies};

use px_core::Draft;
use px_message::Flow;
use px_refresh::{StickyAuth, StickyCookies};
use px_text::NoMemory;

// Sends the request the kept cookies that are for it, if cookies are kept.
pub(crate) fn send_cookies(cookies: &Option<StickyCookies>, flow: &mut Flow) -> Result<(), NoMemory>
    ensures { OnOk result (flow.new ≡ sent_cookies cookies.now flow.old) }
{
    match cookies {
        None => Ok(()),
        Some(cookies) => cookies.apply(flow),
    }
}

// Keeps the cookies that the response sets, if cookies are kept.
pub(crate) fn keep_cookies(
    cookies: &mut Option<StickyCookies>,
    draft: &Draft,
) -> Result<(), NoMemory>
    ensures { OnOk result (KeepsCookies draft.now cookies.old draft.now cookies.new) }
{
    match cookies {
        None => Ok(()),
        Some(cookies) => cookies.keep(&draft.flow),
    }
}

// Keeps the authorization that the request shows, or gives it the one that is kept for its host, if authorizations are kept.
pub(crate) fn authorize(auth: &mut Option<StickyAuth>, draft: &mut Draft) -> Result<(), NoMemory>
    ensures { OnOk result (Authorizes draft.old auth.old draft.new auth.new) }
{
    match auth {
        None => Ok(()),
        Some(auth) => auth.apply(&mut draft.flow),
    }
}
