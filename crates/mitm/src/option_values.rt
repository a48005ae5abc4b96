//! What options take, in words.
use std::str;

const HOST_PORT: &str = "HOST:PORT is wanted, as \"127.0.0.1:8080\"";

const TRUTH: &str = "true or false is wanted";

const TEXTS: &str = "a list of texts is wanted, as [\"a\", \"b\"]";

const PATHS: &str = "a list of paths is wanted, as [\"a.flows\"]";

const RULES: &str = "a list of texts is wanted, each a rule, as [\"/hello/hi\"]: docs/filters.md";

const FILTER: &str = "a text is wanted, which is a filter, as \"~m POST\": docs/filters.md";

const OTHER: &str = "another value is wanted: docs/options.md";

/// What the option of this name takes.
pub fn value_wanted(name: &[u8]) -> &'static str {
    match str::from_utf8(name) {
        Ok(name) => value_of(name),
        Err(_) => OTHER,
    }
}

fn value_of(name: &str) -> &'static str {
    match name {
        "listen" | "control" => HOST_PORT,
        "mode" => "a text is wanted, as \"regular\" or \"reverse:http://HOST:PORT\"",
        "events" => "a whole number from 1 is wanted",
        "stream_large_bodies" => "a whole number from 0 is wanted",
        "save_stream_file" => "a path is wanted, a text that is not empty",
        "intercept" | "save_stream_filter" | "stickyauth" | "stickycookie" => FILTER,
        "client_replay" | "server_replay" => PATHS,
        _ => value_of_more(name),
    }
}

fn value_of_more(name: &str) -> &'static str {
    match name {
        "block_list" | "map_local" | "map_remote" | "modify_body" | "modify_headers" => RULES,
        "server_replay_ignore_params" | "server_replay_use_headers" => TEXTS,
        "server_replay_extra" => {
            "\"forward\", \"kill\", \"204\", \"400\", \"404\" or \"500\" is wanted"
        }
        _ => TRUTH,
    }
}

/// Of which parts a rule of the option of this name is made.
pub fn parts_wanted(name: &[u8]) -> &'static str {
    if name == b"block_list".as_slice() {
        return "a status is wanted, alone or behind a filter: /STATUS or /FILTER/STATUS";
    }
    "three parts between separators are wanted: /FILTER/SUBJECT/REPLACEMENT, or /SUBJECT/REPLACEMENT for every flow"
}
