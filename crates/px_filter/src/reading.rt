//! Reading: one token after the other, each looked at with the next.
ghost use Rattle.std.specs.Prelude.{◌≡◌, ◌⊎◌, Ok, Err, IfOk, IfErr, OnOk};
ghost use Rattle.px_filter.specs.Reading as specs;
ghost use Rattle.px_filter.specs.Stands.{state_view};
ghost use Rattle.px_filter.specs.View.{view};
ghost use Rattle.px_filter.specs.declared.filter.FilterError.TheVariants as error;
ghost use Rattle.px_filter.specs.declared.token.Token.TheVariants as token_is;

use crate::FilterError;
use crate::operator::{Argued, Operator, Part};
use crate::pattern::{BadPattern, Pattern};
use crate::state::{Awaits, Frame, Level, State};
use crate::token::{Placed, Token};
use crate::tree::{Test, Tree};
use px_text::read_decimal;
use std::alloc::Global;
use std::mem;

const MOST_DEEP: usize = 64;

/// The expression that the tokens are; or the first refusal that is met in reading them.
pub fn read(alloc: Global, tokens: &[Placed]) -> Result<Tree, FilterError>
    ensures ok { IfOk result (λ tree. specs.read tokens.now specs.start ≡ Ok (view tree)) }
    ensures err { IfErr result (λ e. (e ≡ error.NoMemory) ⊎ (specs.read tokens.now specs.start ≡ Err e)) }
{
    let mut state = State::start(alloc);
    for i in 0..tokens.len() {
        state.step(&tokens[i], &tokens[i + 1..])?;
    }
    state.finish()
}

impl State {
    // What a token makes of the state, with the tokens behind it.
    fn step(&mut self, token: &Placed, rest: &[Placed]) -> Result<(), FilterError>
        ensures ok { OnOk result (specs.step (state_view self.old) token.now rest.now ≡ Ok (state_view self.new)) }
        ensures err { IfErr result (λ e. (e ≡ error.NoMemory) ⊎ (specs.step (state_view self.old) token.now rest.now ≡ Err e)) }
    {
        match self.awaits {
            Awaits::Operand => self.operand(token, rest),
            Awaits::Argument(kind) => self.argument(kind, token),
            Awaits::Joint => self.joint(token, rest),
        }
    }

    fn operand(&mut self, token: &Placed, rest: &[Placed]) -> Result<(), FilterError>
        ensures ok { OnOk result (specs.operand token.now.place token.now.token rest.now (state_view self.old) ≡ Ok (state_view self.new)) }
        ensures err { IfErr result (λ e. (e ≡ error.NoMemory)
            ⊎ (specs.operand token.now.place token.now.token rest.now (state_view self.old) ≡ Err e)) }
    {
        match &token.token {
            Token::Not => self.negation(token.place, rest),
            Token::Open => self.parenthesis(token.place, rest),
            Token::Operator(operator) => self.operator(token.place, *operator, rest),
            Token::Word(word) => self.search(token.place, Part::Url, word.as_slice()),
            Token::Unclosed => Err(FilterError::Unclosed(token.place)),
            Token::And | Token::Or | Token::Close => Err(FilterError::MissingArgument(0)),
        }
    }

    // A `!` at the place.
    fn negation(&mut self, place: usize, rest: &[Placed]) -> Result<(), FilterError>
        ensures ok { OnOk result (specs.operand place token_is.Not rest.now (state_view self.old) ≡ Ok (state_view self.new)) }
        ensures err { IfErr result (λ e. (e ≡ error.NoMemory) ⊎ (specs.operand place token_is.Not rest.now (state_view self.old) ≡ Err e)) }
    {
        self.may_open(place, rest)?;
        self.frames.push(Frame::Not)?;
        self.awaits = Awaits::Operand;
        Ok(())
    }

    // A `(` at the place.
    fn parenthesis(&mut self, place: usize, rest: &[Placed]) -> Result<(), FilterError>
        ensures ok { OnOk result (specs.operand place token_is.Open rest.now (state_view self.old) ≡ Ok (state_view self.new)) }
        ensures err { IfErr result (λ e. (e ≡ error.NoMemory) ⊎ (specs.operand place token_is.Open rest.now (state_view self.old) ≡ Err e)) }
    {
        self.may_open(place, rest)?;
        let outer = mem::replace(&mut self.level, Level::empty(self.alloc));
        self.frames.push(Frame::Paren(outer))?;
        self.awaits = Awaits::Operand;
        Ok(())
    }

    // Whether a `!` or a `(` at the place may stand there.
    fn may_open(&self, place: usize, rest: &[Placed]) -> Result<(), FilterError>
        ensures { (after : specs.State) → specs.opened place rest.now (state_view self.now).frames after ≡ specs.allowed result after }
    {
        if !is_followed_by_operand(rest) {
            return Err(FilterError::MissingArgument(place));
        }
        if MOST_DEEP <= self.frames.len() {
            return Err(FilterError::TooDeep(place));
        }
        Ok(())
    }

    fn operator(
        &mut self,
        place: usize,
        operator: Option<Operator>,
        rest: &[Placed],
    ) -> Result<(), FilterError>
        ensures ok { OnOk result (specs.operated place operator rest.now (state_view self.old) ≡ Ok (state_view self.new)) }
        ensures err { IfErr result (λ e. (e ≡ error.NoMemory) ⊎ (specs.operated place operator rest.now (state_view self.old) ≡ Err e)) }
    {
        match operator {
            None => Err(FilterError::Unknown(place)),
            Some(Operator::Alone(fact)) => Ok(self.end(Tree::Test(Test::Fact(fact)))?),
            Some(Operator::Argued(kind)) => {
                if !is_followed_by_word(rest) {
                    return Err(FilterError::MissingArgument(place));
                }
                self.awaits = Awaits::Argument(kind);
                Ok(())
            }
        }
    }

    // A word at the place, as the argument of an operator.
    fn argument(&mut self, kind: Argued, token: &Placed) -> Result<(), FilterError>
        ensures ok { OnOk result (specs.argument token.now.place kind token.now.token (state_view self.old) ≡ Ok (state_view self.new)) }
        ensures err { IfErr result (λ e. (e ≡ error.NoMemory)
            ⊎ (specs.argument token.now.place kind token.now.token (state_view self.old) ≡ Err e)) }
    {
        match (kind, &token.token) {
            (Argued::Code, Token::Word(word)) => self.code(token.place, word.as_slice()),
            (Argued::Part(part), Token::Word(word)) => {
                self.search(token.place, part, word.as_slice())
            }
            (_, Token::Unclosed) => Err(FilterError::Unclosed(token.place)),
            _ => Err(FilterError::MissingArgument(0)),
        }
    }

    // A word at the place, looked for in the part.
    fn search(&mut self, place: usize, part: Part, word: &[u8]) -> Result<(), FilterError>
        ensures ok { OnOk result (specs.searched place part word.now (state_view self.old) ≡ Ok (state_view self.new)) }
        ensures err { IfErr result (λ e. (e ≡ error.NoMemory) ⊎ (specs.searched place part word.now (state_view self.old) ≡ Err e)) }
    {
        match Pattern::new(self.alloc, word) {
            Ok(pattern) => Ok(self.end(Tree::Test(Test::Part(part, pattern)))?),
            Err(BadPattern::NoPattern) => Err(FilterError::BadPattern(place)),
            Err(BadPattern::NoMemory) => Err(FilterError::NoMemory),
        }
    }

    // The argument of `~c` at the place.
    fn code(&mut self, place: usize, word: &[u8]) -> Result<(), FilterError>
        ensures ok { OnOk result (specs.coded place (specs.code_of word.now) (state_view self.old) ≡ Ok (state_view self.new)) }
        ensures err { IfErr result (λ e. (e ≡ error.NoMemory) ⊎ (specs.coded place (specs.code_of word.now) (state_view self.old) ≡ Err e)) }
    {
        match code_of(word) {
            Some(code) => Ok(self.end(Tree::Test(Test::Code(code)))?),
            None => Err(FilterError::BadNumber(place)),
        }
    }

    // A token behind an operand.
    fn joint(&mut self, token: &Placed, rest: &[Placed]) -> Result<(), FilterError>
        ensures ok { OnOk result (specs.joint token.now.place token.now.token rest.now (state_view self.old) ≡ Ok (state_view self.new)) }
        ensures err { IfErr result (λ e. (e ≡ error.NoMemory)
            ⊎ (specs.joint token.now.place token.now.token rest.now (state_view self.old) ≡ Err e)) }
    {
        match &token.token {
            Token::And => self.join(token.place, rest),
            Token::Or => {
                self.join(token.place, rest)?;
                Ok(self.level.end_both(self.alloc)?)
            }
            Token::Close => self.close(token.place),
            _ => {
                self.level.end_choice(self.alloc)?;
                self.awaits = Awaits::Operand;
                self.operand(token, rest)
            }
        }
    }

    // A sign at the place that wants an operand behind it.
    fn join(&mut self, place: usize, rest: &[Placed]) -> Result<(), FilterError>
        ensures ok { OnOk result (specs.joined place rest.now (state_view self.old) (state_view self.old).level ≡ Ok (state_view self.new)) }
        ensures err { IfErr result (λ e. (level : specs.Level) → specs.joined place rest.now (state_view self.old) level ≡ Err e) }
    {
        if !is_followed_by_operand(rest) {
            return Err(FilterError::MissingArgument(place));
        }
        self.awaits = Awaits::Operand;
        Ok(())
    }

    // A `)` at the place.
    fn close(&mut self, place: usize) -> Result<(), FilterError>
        ensures ok { OnOk result (specs.closed place (state_view self.old).frames (state_view self.old).level ≡ Ok (state_view self.new)) }
        ensures err { IfErr result (λ e. (e ≡ error.NoMemory)
            ⊎ (specs.closed place (state_view self.old).frames (state_view self.old).level ≡ Err e)) }
    {
        let Some(Frame::Paren(outer)) = self.frames.pop() else {
            return Err(FilterError::Trailing(place));
        };
        let inner = mem::replace(&mut self.level, outer);
        let tree = inner.value(self.alloc)?;
        Ok(self.end(tree)?)
    }

    // At the text's end.
    fn finish(self) -> Result<Tree, FilterError>
        ensures ok { IfOk result (λ tree. specs.finished (state_view self).awaits (state_view self).level ≡ Ok (view tree)) }
        ensures err { IfErr result (λ e. (e ≡ error.NoMemory)
            ⊎ (specs.finished (state_view self).awaits (state_view self).level ≡ Err e)) }
    {
        match self.awaits {
            Awaits::Joint => Ok(self.level.value(self.alloc)?),
            _ => Err(FilterError::MissingArgument(0)),
        }
    }
}

fn is_followed_by_operand(rest: &[Placed]) -> bool
    ensures { result ≡ specs.is_followed specs.begins_operand rest.now }
{
    match rest.first() {
        None => false,
        Some(next) => !matches!(next.token, Token::And | Token::Or | Token::Close),
    }
}

fn is_followed_by_word(rest: &[Placed]) -> bool
    ensures { result ≡ specs.is_followed specs.begins_word rest.now }
{
    match rest.first() {
        None => false,
        Some(next) => matches!(next.token, Token::Word(_) | Token::Unclosed),
    }
}

// The number of one to three digits.
fn code_of(word: &[u8]) -> Option<u64>
    ensures { result ≡ specs.code_of word.now }
{
    if 3 < word.len() {
        return None;
    }
    read_decimal(word)
}
