//! Why options were refused, for people.
use crate::option_values::{parts_wanted, value_wanted};
use px_filter::FilterError;
use px_options::{OptionsError, read_options};
use px_rule::{RuleCause, SpecError};
use std::alloc::Global;

const UNKNOWN: &str =
    "no option has this name: docs/options.md has all of them, and docs/mitmproxy.md says what stands for mitmproxy's";

const MODE: &str =
    "a mode is \"regular\", \"reverse:http://HOST:PORT\", \"upstream:http://HOST:PORT\" or \"socks5\"";

const NO_TLS: &str = "https is not supported: a server and a proxy are asked by plain HTTP";

const NO_PATH: &str =
    "a reverse mode takes no path, and neither does an upstream one: only HOST or HOST:PORT stands behind http://";

// What begins a URL of TLS, and what stands in front of a URL's host.
const TLS: &[u8] = b"https://";

const BEHIND: &[u8] = b"://";

/// Tells why these bytes are no options, where they are none.
pub fn tell_causes<H: Eprint>(host: &H, alloc: Global, bytes: &[u8]) {
    match read_options(alloc, bytes) {
        Ok(options) => drop(options),
        Err(error) => {
            tell_error(host, alloc, bytes, &error);
            drop(error);
        }
    }
}

fn tell_error<H: Eprint>(host: &H, alloc: Global, bytes: &[u8], error: &OptionsError) {
    match error {
        OptionsError::BadToml => tell_toml(host, alloc, bytes),
        OptionsError::BadMode => tell(host, mode_cause(alloc, bytes)),
        OptionsError::UnknownOption(_) => tell(host, UNKNOWN),
        OptionsError::WrongKind(name) => tell(host, value_wanted(name.as_slice())),
        OptionsError::BadRule { name, cause, .. } => {
            tell(host, rule_cause(name.as_slice(), *cause));
        }
        OptionsError::BadFilter { cause, .. } => tell(host, filter_cause(*cause)),
        OptionsError::NoMemory => {}
    }
}

fn tell<H: Eprint>(host: &H, text: &str) {
    let _ = host.eprintln(text);
}

// Tells the line and the column at which the bytes are no TOML, and what is wrong there.
fn tell_toml<H: Eprint>(host: &H, alloc: Global, bytes: &[u8]) {
    match toml::table_from_slice(alloc, bytes) {
        Ok(table) => drop(table),
        Err(error) => {
            let _ = host.eprint(error);
        }
    }
}

// Why the mode of these bytes is none.
fn mode_cause(alloc: Global, bytes: &[u8]) -> &'static str {
    let Ok(table) = toml::table_from_slice(alloc, bytes) else {
        return MODE;
    };
    for (name, value) in table.iter() {
        if name.as_str() == "mode" {
            return match value.as_str() {
                Some(text) => cause_of_mode(text.as_bytes()),
                None => MODE,
            };
        }
    }
    MODE
}

fn cause_of_mode(text: &[u8]) -> &'static str {
    if text
        .windows(TLS.len())
        .any(|part| part.eq_ignore_ascii_case(TLS))
    {
        return NO_TLS;
    }
    match text.windows(BEHIND.len()).position(|part| part == BEHIND) {
        Some(at) if has_path(&text[at + BEHIND.len()..]) => NO_PATH,
        _ => MODE,
    }
}

// Whether more than a `/` stands behind the host.
fn has_path(place: &[u8]) -> bool {
    match place.iter().position(|byte| *byte == b'/') {
        Some(at) => at + 1 < place.len(),
        None => false,
    }
}

// Why a text is no rule of this option.
fn rule_cause(name: &[u8], cause: RuleCause) -> &'static str {
    match cause {
        RuleCause::Spec(SpecError::Empty) => parts_wanted(name),
        RuleCause::Spec(SpecError::WrongCount(_)) => parts_wanted(name),
        RuleCause::Filter(error) => filter_cause(error),
        RuleCause::Pattern => "this is no regular expression, or one that nests too deep",
        RuleCause::Name => "this is no name of a field",
        RuleCause::Value => "a field's value has no line feed, no carriage return and no NUL",
        RuleCause::Status => "a status is wanted here, a number from 200 to 999",
        RuleCause::NoMemory => "memory ran out",
    }
}

// Why a text is no filter.
fn filter_cause(cause: FilterError) -> &'static str {
    match cause {
        FilterError::Unknown(_) => "no operator has these letters: docs/filters.md has all of them",
        FilterError::MissingArgument(_) => "a word or a filter has to follow here",
        FilterError::BadPattern(_) => "this is no regular expression, or one that nests too deep",
        FilterError::BadNumber(_) => "~c takes a status of one to three digits",
        FilterError::Unclosed(_) => "this quote or parenthesis is not closed",
        FilterError::TooDeep(_) => "this stands inside too many others",
        FilterError::Trailing(_) => "this parenthesis closes nothing",
        FilterError::NoMemory => "memory ran out",
    }
}
