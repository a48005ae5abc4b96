//! Filters.
ghost use Rattle.std.specs.Prelude.{◌≡◌, ◌⊎◌, Result, Ok, Err, IfOk, IfErr};
ghost use Rattle.px_filter.specs.Holds.{holds};
ghost use Rattle.px_filter.specs.Expression.{Expression};
ghost use Rattle.px_filter.specs.Parsing as specs;
ghost use Rattle.px_filter.specs.Parsing.{parse, place_of};
ghost use Rattle.px_filter.specs.Stands.{Meets};
ghost use Rattle.px_filter.specs.declared.filter.FilterError.{FilterError};
ghost use Rattle.px_filter.specs.View.{expression};
ghost use Rattle.px_filter.specs.declared.filter.FilterError.TheVariants as error;

use crate::holding::holds;
use crate::lexing::tokens_of;
use crate::parenthesis::unclosed;
use crate::reading::read;
use crate::tree::Tree;
use px_message::Flow;
use px_text::NoMemory;
use std::alloc::{AllocFailed, Global};

/// Why a text is no filter: the first refusal from the left, with the place of the token that it is about, in bytes from 0. At one
/// place `MissingArgument` is judged first, then `TooDeep`, then `Unclosed`, then the others.
#[derive(Debug, PartialEq, Eq, Clone, Copy)]
pub enum FilterError {
    /// No operator has the letters behind the `~`.
    Unknown(usize),
    /// What has to follow the operator or the sign does not; or the text does not begin with an operand, with place 0.
    MissingArgument(usize),
    /// The word is no pattern to `regex`, or nests too deep.
    BadPattern(usize),
    /// The argument of `~c` is not one to three digits.
    BadNumber(usize),
    /// The quote or the parenthesis is not closed.
    Unclosed(usize),
    /// The `!` or the `(` stands inside 64 others.
    TooDeep(usize),
    /// The `)` closes nothing.
    Trailing(usize),
    /// No memory, or a pattern that takes more than `regex` may build.
    NoMemory,
}

/// A filter: an expression that holds on a flow, or does not.
#[derive(Debug, Drop)]
pub struct Filter {
    alloc: Global,
    tree: Tree,
}

impl Filter {
    /// The filter that the text is; or why it is none.
    pub fn parse(alloc: Global, text: &str) -> Result<Filter, FilterError>
        ensures ok { IfOk result (λ filter. parse text.now ≡ Ok (expression filter)) }
        ensures err { IfErr result (λ e. (e ≡ error.NoMemory) ⊎ (parse text.now ≡ Err e)) }
    {
        let tokens = tokens_of(alloc, text.as_bytes())?;
        let read = read(alloc, tokens.as_slice());
        let tree = earlier(unclosed(tokens.as_slice()), read)?;
        Ok(Filter { alloc, tree })
    }

    /// Whether the filter holds on the flow.
    pub fn matches(&self, flow: &Flow) -> Result<bool, NoMemory>
        ensures { IfOk result (λ answer. answer ≡ holds flow.now (expression self.now)) }
    {
        holds(self.alloc, &self.tree, flow)
    }
}

// The refusal that stands first: a parenthesis that is not closed, or what reading met.
fn earlier(unclosed: Option<usize>, read: Result<Tree, FilterError>) -> Result<Tree, FilterError>
    ensures { (due : Result Expression FilterError) → Meets due read → Meets (specs.earlier unclosed due) result }
{
    let Some(place) = unclosed else {
        return read;
    };
    match read {
        Ok(tree) => {
            drop(tree);
            Err(FilterError::Unclosed(place))
        }
        Err(refusal) => {
            if refusal.place() <= place {
                Err(refusal)
            } else {
                Err(FilterError::Unclosed(place))
            }
        }
    }
}

impl FilterError {
    /// The place of the token that it is about; 0 when out of memory, which is about none.
    pub fn place(&self) -> usize
        ensures { result ≡ place_of self.now }
    {
        match self {
            FilterError::Unknown(place)
            | FilterError::MissingArgument(place)
            | FilterError::BadPattern(place)
            | FilterError::BadNumber(place)
            | FilterError::Unclosed(place)
            | FilterError::TooDeep(place)
            | FilterError::Trailing(place) => *place,
            FilterError::NoMemory => 0,
        }
    }
}

impl From<NoMemory> for FilterError {
    ghost use Rattle.std.specs.Prelude.{◌≡◌};
    ghost use Rattle.px_filter.specs.declared.filter.FilterError.TheVariants as error;

    ghost from_gives = { λ _ e. e ≡ error.NoMemory };

    fn from(_: NoMemory) -> FilterError {
        FilterError::NoMemory
    }
}

impl<T: Drop> From<AllocFailed<T>> for FilterError {
    ghost use Rattle.std.specs.Prelude.{◌≡◌};
    ghost use Rattle.px_filter.specs.declared.filter.FilterError.TheVariants as error;

    ghost from_gives = { λ _ e. e ≡ error.NoMemory };

    fn from(_: AllocFailed<T>) -> FilterError {
        FilterError::NoMemory
    }
}
