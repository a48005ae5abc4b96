//! Reading tokens: each at most once, from the left.
ghost use Rattle.std.specs.Prelude.{◌≡◌, ◌<◌, ◌≤◌, ◌+◌, ◌∷◌, ◌++◌, List, ℕ, suc, drop, length, Some, None, IfOk, MatchOption};
ghost use Rattle.std.specs.Char.{is_ascii_alphabetic};
ghost use Rattle.px_filter.specs.Tokens.{is_bare, is_blank, run, tokens_within};
ghost use Rattle.px_filter.specs.Tokens as specs;
ghost use Rattle.px_filter.specs.Quoting.{behind, left};

use crate::operator::operator_of;
use crate::token::{Placed, Token};
use px_text::{Bytes, NoMemory};
use std::alloc::Global;

/// The tokens of the text, each with its place.
pub fn tokens_of(alloc: Global, text: &[u8]) -> Result<Vec<Placed>, NoMemory>
    ensures { IfOk result (λ tokens. tokens.items ≡ specs.tokens_of text.now) }
{
    let mut tokens = Vec::new(alloc);
    let mut rest = text;
    while 0 < rest.len() {
        let used = take(alloc, rest, text.len() - rest.len(), &mut tokens)?;
        rest = behind_bytes(rest, used);
    }
    Ok(tokens)
}

/// The text without its first bytes.
pub fn behind_bytes(text: &[u8], used: usize) -> &[u8]
    requires { used ≤ length text.now }
    ensures { result.now ≡ drop used text.now }
{
    &text[used..]
}

// Takes a blank or a token off the text, and tells how many bytes it has.
fn take(
    alloc: Global,
    text: &[u8],
    place: usize,
    tokens: &mut Vec<Placed>,
) -> Result<usize, NoMemory>
    requires { 0 < length text.now }
    ensures some { IfOk result (λ used. 0 < used) }
    ensures within { IfOk result (λ used. used ≤ length text.now) }
    ensures taken { IfOk result (λ used. (n : ℕ) → tokens.new.items ++ tokens_within n (place + used) (drop used text.now)
        ≡ tokens.old.items ++ tokens_within (suc n) place text.now) }
{
    if is_blank(text[0]) {
        return Ok(1);
    }
    let Front { token, used } = front_token(alloc, text)?;
    tokens.push(Placed { place, token })?;
    Ok(used)
}

// A token, and how many bytes it has.
#[derive(Debug, Drop)]
struct Front {
    token: Token,
    used: usize,
}

// The token at the front of the text, which begins with no blank.
fn front_token(alloc: Global, text: &[u8]) -> Result<Front, NoMemory>
    requires { 0 < length text.now }
    ensures token { IfOk result (λ f. (c : ℕ) (behind : List ℕ) → text.now ≡ c ∷ behind → (f.token, f.used) ≡ specs.front_token c behind) }
    ensures within { IfOk result (λ f. f.used ≤ length text.now) }
{
    match text[0] {
        b'!' => Ok(sign(Token::Not)),
        b'&' => Ok(sign(Token::And)),
        b'|' => Ok(sign(Token::Or)),
        b'(' => Ok(sign(Token::Open)),
        b')' => Ok(sign(Token::Close)),
        b'~' => Ok(operator_token(&text[1..])),
        b'\'' | b'"' => quoted_token(alloc, text[0], &text[1..]),
        _ => bare_token(alloc, text),
    }
}

fn sign(token: Token) -> Front
    ensures token { result.token ≡ token }
    ensures used { result.used ≡ 1 }
{
    Front { token, used: 1 }
}

fn operator_token(text: &[u8]) -> Front
    ensures token { (result.token, result.used) ≡ specs.operator_token text.now }
    ensures within { result.used ≤ length text.now + 1 }
{
    let letters = run_of_letters(text);
    Front {
        token: Token::Operator(operator_of(&text[..letters])),
        used: letters + 1,
    }
}

fn bare_token(alloc: Global, text: &[u8]) -> Result<Front, NoMemory>
    ensures token { IfOk result (λ f. (f.token, f.used) ≡ specs.bare_token text.now) }
    ensures within { IfOk result (λ f. f.used ≤ length text.now) }
{
    let used = run_of_bare(text);
    Ok(Front {
        token: Token::Word(Bytes::copied(alloc, &text[..used])?),
        used,
    })
}

fn quoted_token(alloc: Global, quote: u8, text: &[u8]) -> Result<Front, NoMemory>
    ensures token { IfOk result (λ f. (f.token, f.used)
        ≡ specs.quoted_token (specs.quoted quote text.now) (length text.now)) }
    ensures within { IfOk result (λ f. f.used ≤ length text.now + 1) }
{
    match quoted(alloc, quote, text)? {
        Some((word, used)) => Ok(Front {
            token: Token::Word(Bytes::new(word)?),
            used: used + 1,
        }),
        None => Ok(Front {
            token: Token::Unclosed,
            used: text.len() + 1,
        }),
    }
}

// Where the reading of a quoted word stands.
#[derive(Clone, Copy, PartialEq, Eq)]
enum Quoting {
    Within,
    // Behind a backslash.
    Escaped,
    Closed,
}

// What stands in front of the closing quote, and how many bytes that is with the quote.
fn quoted(alloc: Global, quote: u8, text: &[u8]) -> Result<Option<(Vec<u8>, usize)>, NoMemory>
    ensures { IfOk result (λ found. MatchOption found (specs.quoted quote text.now ≡ None)
        (λ q. (specs.quoted quote text.now ≡ Some (q.0.items, q.1)) × (q.1 ≤ length text.now))) }
{
    let mut word = Vec::new(alloc);
    let mut quoting = Quoting::Within;
    for i in 0..text.len() {
        quoting = quote_one(&mut word, quoting, quote, text[i])?;
        if quoting == Quoting::Closed {
            return Ok(Some((word, i + 1)));
        }
    }
    Ok(None)
}

// One character of a quoted word.
fn quote_one(word: &mut Vec<u8>, quoting: Quoting, quote: u8, c: u8) -> Result<Quoting, NoMemory>
    ensures { IfOk result (λ next. (i : ℕ) (text : List ℕ) → ¬ (quoting ≡ Quoting.Closed)
        → behind word.new.items (i + 1) (left next quote text) ≡ behind word.old.items i (left quoting quote (c ∷ text))) }
{
    if quoting == Quoting::Within {
        if c == quote {
            return Ok(Quoting::Closed);
        }
        if c == b'\\' {
            return Ok(Quoting::Escaped);
        }
    }
    word.push(c)?;
    Ok(Quoting::Within)
}

fn run_of_letters(text: &[u8]) -> usize
    ensures value { result ≡ run is_ascii_alphabetic text.now }
    ensures within { result ≤ length text.now }
{
    text.iter().take_while(|c| c.is_ascii_alphabetic()).count()
}

fn run_of_bare(text: &[u8]) -> usize
    ensures value { result ≡ run is_bare text.now }
    ensures within { result ≤ length text.now }
{
    text.iter().take_while(|c| is_bare(**c)).count()
}

fn is_bare(c: u8) -> bool
    ensures { result ≡ is_bare c }
{
    !matches!(c, b' ' | b'\t' | b'\'' | b'"' | b'(' | b')' | b'~')
}

fn is_blank(c: u8) -> bool
    ensures { result ≡ is_blank c }
{
    c == b' ' || c == b'\t'
}
