//! Which flow: the number of its conversation, a full stop, and its place in it.
ghost use Rattle.std.specs.Prelude.{◌≡◌, ◌<◌, ◌^◌, ℕ, decimal, position, ◌==◌, MatchOption};
ghost use Rattle.px_message.specs.declared.flow.FlowId.{FlowId};
ghost use Rattle.px_flowfile.specs.Simple.{IsId, id_text};

use itoa::Buffer;
use px_message::FlowId;
use std::str;

/// The flow that the text names: two numbers without a sign and a leading zero.
pub(crate) fn read_id(text: &[u8]) -> Option<FlowId>
    ensures { MatchOption result ((id : FlowId) → IsId id → ¬ (text.now ≡ id_text id)) (λ id. (text.now ≡ id_text id) × IsId id) }
{
    let Some(dot) = dot_in(text) else {
        return None;
    };
    let Some(conv) = number_of(&text[..dot]) else {
        return None;
    };
    let Some(index) = number_of(&text[dot + 1..]) else {
        return None;
    };
    Some(FlowId { conv, index })
}

// Where the first full stop stands.
fn dot_in(text: &[u8]) -> Option<usize>
    ensures { result ≡ position (λ b. b == 46) text.now }
{
    text.iter().position(|b| *b == b'.')
}

// The number whose digits these are, in its one spelling.
fn number_of(digits: &[u8]) -> Option<u32>
    ensures { MatchOption result ((n : ℕ) → n < 2 ^ 32 → ¬ (digits.now ≡ decimal n)) (λ n. (digits.now ≡ decimal n) × (n < 2 ^ 32)) }
{
    let Ok(text) = str::from_utf8(digits) else {
        return None;
    };
    let Ok(n) = u32::from_str_radix(text, 10) else {
        return None;
    };
    let mut buffer = Buffer::new();
    if buffer.format(n).as_bytes() == digits {
        Some(n)
    } else {
        None
    }
}
