//! The options file: one TOML table of which each key is an option.
//!
//! Each key has a line (`specs/Lines.antt`): its name, what values it takes, which is a function from a value of TOML to what the
//! option is, or the refusal, and its default. A table is refused by the first of its keys, in rising order of bytes, that has no
//! line or whose value its line refuses. Otherwise each option is what stands under its key, or its default (`specs/Options.antt`).
//! So the empty text is options, of regular mode.
//!
//! Which table a text is, is `toml`'s own definition, and so is what a value in it is; two lines of one key are no table. What an
//! address and a URL are is px_message's (RFC 9112 section 3.2), which texts are rules is px_rule's and px_map's, and which are filters
//! px_filter's. What the options of server replay mean is px_replay's.
//!
//! Of a refusal a person is shown a line, and of a rule or a filter its text with a mark under the place that is meant
//! (`specs/Shown.antt`).
#![tactic(auto)]

mod address;
mod count;
mod defaults;
mod error;
mod extra;
mod file_path;
mod flow_filter;
mod key;
mod laws;
mod lists;
mod mode;
mod names;
mod options;
mod path;
mod put;
mod rules;
mod shown;
mod table;
mod texts;
mod truth;

pub use error::OptionsError;
pub use file_path::{FilePath, FilePaths};
pub use laws::{
    a_bad_key_is_refused, a_part_stands_behind_those_in_front, a_table_is_a_table,
    an_empty_table_is_the_defaults, an_unknown_key_is_bad, bytes_say_one_thing,
    the_first_bad_key_decides,
};
pub use options::{Options, read_options};
pub use px_exchange::Mode;
pub use shown::{refusal_line, refusal_note};
