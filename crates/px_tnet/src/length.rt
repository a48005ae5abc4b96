//! The length in front of a payload.
ghost use Rattle.std.specs.Prelude.{◌≡◌, ◌<◌, ◌≤◌, ◌+◌, ◌⊎◌, ◌++◌, ◌∷◌, List, ℕ, drop, length, decimal, IfOk, IfErr, MatchOption};
ghost use Rattle.px_tnet.specs.Digits.{IsFront, IsStep};
ghost use Rattle.px_tnet.specs.Frame.{BeginsLength, IsBadLength, colon, too_many};
ghost use Rattle.px_tnet.specs.declared.error.TnetError.TheVariants as error;

use crate::TnetError;

/// A length, and how many digits it has.
#[derive(Debug, Drop)]
pub struct Length {
    pub count: usize,
    pub digits: usize,
}

/// What a byte behind the digits so far is: one digit more, the colon at their end, or neither.
#[derive(Debug, Drop)]
pub enum Step {
    More(usize),
    End(usize),
    Bad,
}

/// The length in front, with a colon behind it. Cut where the text ends before the colon.
pub fn read_length(text: &[u8]) -> Result<Length, TnetError>
    ensures ok { IfOk result (λ l. (l.count < too_many) × (l.digits < length text.now)
        × (text.now ≡ decimal l.count ++ (colon ∷ drop (l.digits + 1) text.now))) }
    ensures err { IfErr result (λ e. ((e ≡ error.Cut) × BeginsLength text.now)
        ⊎ ((e ≡ error.BadLength) × IsBadLength text.now)) }
{
    let mut front = None;
    let mut digits = 0;
    while digits < text.len() {
        match judge(front, text[digits]) {
            Step::More(count) => front = Some(count),
            Step::End(count) => return Ok(Length { count, digits }),
            Step::Bad => return Err(TnetError::BadLength),
        }
        digits += 1;
    }
    Err(TnetError::Cut)
}

// No length has a digit behind a zero, or a tenth digit.
fn judge(front: Option<usize>, byte: u8) -> Step
    ensures { (text : List ℕ) → IsFront front text → IsStep text byte result }
{
    let Some(count) = front else {
        return match digit(byte) {
            Some(digit) => Step::More(digit),
            None => Step::Bad,
        };
    };
    if byte == b':' {
        return Step::End(count);
    }
    if count == 0 || 100_000_000 <= count {
        return Step::Bad;
    }
    match digit(byte) {
        Some(digit) => Step::More(count * 10 + digit),
        None => Step::Bad,
    }
}

fn digit(byte: u8) -> Option<usize>
    ensures { MatchOption result ((d : ℕ) → d < 10 → ¬ (byte ≡ 48 + d)) (λ d. (d < 10) × (byte ≡ 48 + d)) }
{
    if b'0' <= byte && byte <= b'9' {
        Some((byte - b'0') as usize)
    } else {
        None
    }
}
