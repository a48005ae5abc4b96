//! How many flows, in a word.
ghost use Rattle.std.specs.Prelude.{◌≡◌, ◌↔◌, ℕ, IsTrue, MatchOption, decimal};
ghost use Rattle.px_gen.specs.Word.{IsCount};

use itoa::Buffer;
use px_text::read_decimal;

const MOST_FLOWS: u64 = 10_000;

/// The number that the word is: decimal digits without a sign and without leading zeros, 10,000 at most. None for every other word.
pub fn read_count(word: &[u8]) -> Option<u64>
    ensures read { MatchOption result ((n : ℕ) → ¬ (IsCount word.now n)) (λ n. IsCount word.now n) }
{
    let Some(count) = read_decimal(word) else {
        return None;
    };
    if count > MOST_FLOWS {
        return None;
    }
    if !is_written(word, count) {
        return None;
    }
    Some(count)
}

// Whether the word is what is written of the number.
fn is_written(word: &[u8], count: u64) -> bool
    ensures { IsTrue result ↔ (word.now ≡ decimal count) }
{
    let mut buffer = Buffer::new();
    buffer.format(count).as_bytes() == word
}
