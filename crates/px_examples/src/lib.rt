//! Examples: tables of texts, each with what a definition says of it.
//!
//! The calls of px_message, px_write, px_filter, px_rule, px_har and px_refresh that these are about equal their definitions. So what these definitions say of a text is what a call does with it, and an example
//! needs no run. The tables are in `specs/`, a row a line; each function here does nothing, and what it ensures is that a definition says each row's
//! answer. What only a run shows, since its definition is a relation or the grammar of another library, is in the rows of `crates/rows/data/`.
#![tactic(auto)]

mod fields;
mod har;
mod kept;
mod lengths;
mod rules;
mod settled;
mod targets;
mod valid;
mod written;

pub use fields::{
    fields_are_added, fields_are_removed, fields_are_set, values_have_elements,
    values_have_empty_elements,
};
pub use har::{
    contents_are_exported, flows_are_exported, other_requests_are_exported, queries_are_exported,
    requests_are_exported, responses_are_exported, times_are_exported,
};
pub use kept::{
    authorizations_are_given, cookies_are_sent, cookies_are_set, dates_are_moved,
    dates_are_moved_over_ends, dates_stay_in_their_years, fields_are_moved, other_texts_stay,
    shifts_are_rounded_down,
};
pub use lengths::{lengths_by_code, lengths_of_requests, lengths_of_responses};
pub use rules::{
    refused_filters_are_shown, requests_are_uncached, requests_are_uncoded,
    texts_of_one_part_are_split, texts_of_two_parts_are_split,
};
pub use settled::{
    requests_are_settled, responses_are_settled, responses_without_a_body_are_settled,
    streamed_messages_are_settled,
};
pub use targets::{
    hosts_are_told, targets_are_read, targets_of_connect_are_read, targets_of_lowercase_are_read,
    urls_are_set,
};
pub use valid::{names_are_tokens, paths_are_told, statuses_are_told, values_are_told};
pub use written::{
    absolute_requests_are_written, faults_are_answered, faults_are_answered_to_head,
    interim_responses_are_written, requests_are_written, responses_are_written,
    short_responses_are_written, streamed_bodies_are_written,
};
