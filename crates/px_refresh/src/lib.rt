//! What is kept from one flow for later ones: cookies and authorizations that requests are given again; and recorded responses whose
//! dates are moved (mitmproxy's options `stickycookie`, `stickyauth` and `server_replay_refresh`). The chain of px_addons asks it.
//!
//! **Cookies.** The value of a `Set-Cookie` is split at `;`, and its parts are what stands between, without blanks (`specs/Cookies.antt`;
//! RFC 6265 section 5.2). Of it are taken the name, the value and the path; a domain, an expiry and all other attributes are dropped. A cookie is
//! kept under its key: the host of the request in any case, its port, the path and the name. What is kept of cookies that were
//! set one behind the other is a list (`jar`): each key where it was first set, with the value that it was set to last, which is a search from
//! the end (`specs/Kept.antt`). A request is sent those of its host and port whose path is the beginning of its own path, in the order
//! of that list.
//!
//! **Authorizations.** The first value of a request's `Authorization` is kept for its host, byte by byte. A request that has none gets what was
//! kept for its host (`specs/Authorized.antt`).
//!
//! Those are definitions over all that came so far. No such list is kept or searched: the code holds what is kept, and the type's value in
//! a contract is that list; ordered maps find the place of a key, and the places of a site (`specs/Index.antt`). So a request costs
//! what the cookies of its own host and port cost, and setting one costs as much as finding its key. Maps with an order have no
//! bad keys that a server could choose, as hash tables have. A map of keys may hold one that is not kept, where memory ran out
//! behind it: so what it finds is looked at again.
//!
//! **Dates.** A recorded response is moved by a number of seconds: each value of `Date`, `Expires` and `Last-Modified` that httpdate reads as a date
//! becomes the date of the moved second, as IMF-fixdate (`specs/Refresh.antt`; RFC 9110 section 5.6.7). Which date a second is, is said by the
//! calendar alone (`specs/Date.antt`): it is come to from 1970-01-01 day by day.
#![tactic(auto)]

mod authorization;
mod authorizations;
mod blanks;
mod cookies;
mod fields;
mod jar;
mod key;
mod laws;
mod moving;
mod ordered;
mod places;
mod set_cookie;

pub use authorization::StickyAuth;
pub use cookies::StickyCookies;
pub use laws::{
    a_cookie_has_the_value_that_it_was_set_to_last, a_cookie_is_for_what_begins_with_its_path,
    a_host_has_the_value_that_it_was_shown_last, a_written_date_is_read_as_its_second,
    cookies_stand_in_the_order_in_which_they_were_first_set,
    kept_authorizations_are_those_of_all_requests, kept_cookies_are_those_of_all_responses,
    keys_are_compared_whole,
};
pub use moving::{refresh, shift_to};
