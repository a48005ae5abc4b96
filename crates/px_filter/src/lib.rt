//! Filter expressions, of mitmproxy's kind: docs/filters.md is the page for those who write them.
//!
//! A text is read from the left as tokens, each with the place of its first byte (`specs/Tokens.antt`); the letters behind a `~` name an operator
//! (`Operators.antt`). What the tokens make is a machine over them (`Reading.antt`): a list of the `!` and `(` that are open, and for each
//! stretch between parentheses the choices that are whole, the parts of the choice that is read, and the parts of its last part. So three
//! levels of binding need no function that calls itself, depth is the length of a list, and a value holds lists and no nested pairs. The
//! grammar itself stands beside it as a relation (`Grammar.antt`), and it derives exactly what is read.
//!
//! A text that is no filter has one refusal: what reading meets first, or a parenthesis that is not closed and stands before that
//! (`Parsing.antt`). `Filter::parse` answers exactly that, with its place; out of memory is free.
//!
//! An expression holds on a flow by the table of operators, by recursion on the expression (`Holds.antt`): each operator with a pattern has
//! a list of texts in which the pattern is looked for, and that it is found there is `regex`'s own statement (`Pattern.antt`). A pattern is
//! built when the text is read; a search takes a little memory of its own.
#![tactic(auto)]

mod fact;
mod filter;
mod holding;
mod laws;
mod lexing;
mod operator;
mod parenthesis;
mod part;
mod pattern;
mod reading;
mod show;
mod state;
mod token;
mod tree;

pub use filter::{Filter, FilterError};
pub use laws::{
    answers_hang_on_what_is_named, each_text_has_one_expression, more_blanks_change_no_expression,
    places_change_no_expression, refusals_stand_within_the_text, what_is_derived_is_read,
    what_is_read_is_derived, what_is_written_is_read,
};
pub use show::show_refusal;
