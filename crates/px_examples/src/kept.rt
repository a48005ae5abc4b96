//! What is kept of cookies and authorizations, and dates that are moved.
ghost use Rattle.std.specs.Prelude.{map, pos};
ghost use Rattle.px_refresh.specs.Cookies.{cookie_in};
ghost use Rattle.px_refresh.specs.Refresh.{refreshed_field, shift_to};
ghost use Rattle.px_examples.specs.Kept.{given, sent, set, site, text_to, value_to};
ghost use Rattle.px_examples.specs.Refreshed.{ends, moved_lines, outside, refreshed_by, shifts, texts, undated};
ghost use Rattle.px_examples.specs.Rows.{Hold};

/// The cookies that values of `Set-Cookie` set, each of the host `h` and the port 80.
pub fn cookies_are_set()
    ensures { Hold (λ text. cookie_in (site "h" 80) text) set }
{}

/// The texts of kept cookies that requests are sent.
pub fn cookies_are_sent()
    ensures { Hold text_to sent }
{}

/// The values of `Authorization` that requests are given.
pub fn authorizations_are_given()
    ensures { Hold value_to given }
{}

/// By how many seconds dates are moved.
pub fn shifts_are_rounded_down()
    ensures { Hold (λ of. shift_to of.0 of.1) shifts }
{}

/// Dates that are moved, in each format.
pub fn dates_are_moved()
    ensures { Hold refreshed_by texts }
{}

/// Dates that are moved over the end of a month or a year.
pub fn dates_are_moved_over_ends()
    ensures { Hold refreshed_by ends }
{}

/// Dates that would be in no year from 1970 to 9999 stay.
pub fn dates_stay_in_their_years()
    ensures { Hold refreshed_by outside }
{}

/// Texts that are no dates stay.
pub fn other_texts_stay()
    ensures { Hold refreshed_by undated }
{}

/// Fields whose dates are moved by a day.
pub fn fields_are_moved()
    ensures { Hold (λ fields. map (refreshed_field (pos 86400)) fields) moved_lines }
{}
