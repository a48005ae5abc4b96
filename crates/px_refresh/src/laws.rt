//! Laws of what is kept, and of dates. Each function does nothing; what it ensures is the law.
ghost use Rattle.std.specs.Prelude.{◌≡◌, ◌↔◌, ℕ, ◌<◌, true, List, [], ◌++◌, Some, map, nat_eq};
ghost use Rattle.std.specs.List.{flat_map, starts_with};
ghost use Rattle.httpdate.specs.Date.{parse_secs};
ghost use Rattle.px_message.specs.declared.flow.Flow.{Flow};
ghost use Rattle.px_text.specs.Prefix.{IsPrefixOf};
ghost use Rattle.px_refresh.specs.Authorized.{Authorization, authorizations, shown_by, value_for};
ghost use Rattle.px_refresh.specs.Cookies.{Cookie, jar, set_by};
ghost use Rattle.px_refresh.specs.Date.{date_of};
ghost use Rattle.px_refresh.specs.Kept.{firsts, latest};
ghost use Rattle.px_refresh.specs.Laws.{jar_after, shown_after};
ghost use Rattle.px_refresh.specs.Site.{is_same_cookie};
ghost use Rattle.px_refresh.specs.declared.key.CookieKey.{CookieKey};

/// Comparing keys part by part tells exactly whether they are equal.
pub fn keys_are_compared_whole()
    ensures { (a b : CookieKey) → (is_same_cookie a b ≡ true) ↔ (a ≡ b) }
{}

/// Under each key is kept the value that a cookie was set to last.
pub fn a_cookie_has_the_value_that_it_was_set_to_last()
    ensures { (set : List Cookie) (key : CookieKey) → latest is_same_cookie key (jar set) ≡ latest is_same_cookie key set }
{}

/// The kept cookies stand in the order in which their keys were first set, each key once.
pub fn cookies_stand_in_the_order_in_which_they_were_first_set()
    ensures { (set : List Cookie) → map (λ cookie. cookie.0) (jar set) ≡ firsts is_same_cookie (map (λ cookie. cookie.0) set) }
{}

/// What is kept after responses one behind the other is what is kept of all cookies that they set.
pub fn kept_cookies_are_those_of_all_responses()
    ensures { (flows : List Flow) → jar_after [] flows ≡ jar (flat_map set_by flows) }
{}

/// Each host has the value that it was shown last.
pub fn a_host_has_the_value_that_it_was_shown_last()
    ensures { (shown : List Authorization) (host : List ℕ) → value_for host (authorizations shown) ≡ value_for host shown }
{}

/// What is kept after requests one behind the other is what is kept of all values that they show.
pub fn kept_authorizations_are_those_of_all_requests()
    ensures { (flows : List Flow) → shown_after [] flows ≡ authorizations (flat_map (λ flow. shown_by flow.request) flows) }
{}

/// A cookie is for exactly the paths that begin with its own.
pub fn a_cookie_is_for_what_begins_with_its_path()
    ensures { (path own : List ℕ) → (starts_with nat_eq path own ≡ true) ↔ IsPrefixOf own path }
{}

/// A date that was written is read as its second.
pub fn a_written_date_is_read_as_its_second()
    ensures { (second : ℕ) → second < 253402300800 → parse_secs (date_of second) ≡ Some second }
{}
