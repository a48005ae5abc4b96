//! Parentheses that are not closed.
ghost use Rattle.std.specs.Prelude.{◌≡◌, ◌+◌, ◌<◌, ◌^◌};
ghost use Rattle.px_filter.specs.Parsing as specs;

use crate::token::{Placed, Token};

/// The place of the first parenthesis that is not closed. The tokens are looked at once: of those that are open at a
/// place, the outermost is the first.
pub fn unclosed(tokens: &[Placed]) -> Option<usize>
    ensures { result ≡ specs.unclosed tokens.now }
{
    let mut depth = 0;
    let mut outermost = 0;
    for token in tokens {
        (depth, outermost) = after(token, depth, outermost);
    }
    if depth == 0 { None } else { Some(outermost) }
}

// How many parentheses are open behind a token, and where the outermost stands.
fn after(token: &Placed, depth: usize, outermost: usize) -> (usize, usize)
    requires { depth + 1 < 2 ^ 64 }
    ensures { (result.0, result.1) ≡ specs.after token.now.token token.now.place depth outermost }
{
    match token.token {
        Token::Open if depth == 0 => (1, token.place),
        Token::Open => (depth + 1, outermost),
        Token::Close => (depth.saturating_sub(1), outermost),
        _ => (depth, outermost),
    }
}
