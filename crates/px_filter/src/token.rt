//! Tokens of filter expressions.
use crate::operator::Operator;
use px_text::Bytes;

/// A token.
#[derive(Debug, Drop, PartialEq, Eq)]
pub enum Token {
    /// `!`
    Not,
    /// `&`
    And,
    /// `|`
    Or,
    /// `(`
    Open,
    /// `)`
    Close,
    /// `~` and letters: the operator that they name, if there is one.
    Operator(Option<Operator>),
    /// A word: what it says, without its quotes.
    Word(Bytes),
    /// A quote that is not closed, with all that follows it.
    Unclosed,
}

/// A token and where its first character stands.
#[derive(Debug, Drop, PartialEq, Eq)]
pub struct Placed {
    pub place: usize,
    pub token: Token,
}
