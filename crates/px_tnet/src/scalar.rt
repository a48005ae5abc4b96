//! Payloads that hold no items.
ghost use Rattle.std.specs.Prelude.{◌≡◌, ◌↔◌, ℤ, Bool, IsTrue, MatchOption};
ghost use Rattle.std.specs.Str.{IsUtf8};
ghost use Rattle.px_tnet.specs.Kinds.{IsInt, truth};

use itoa::Buffer;
use std::str;

/// Whether the payload is UTF-8.
pub fn is_text(payload: &[u8]) -> bool
    ensures { IsTrue result ↔ IsUtf8 payload.now }
{
    str::from_utf8(payload).is_ok()
}

/// The number whose digits the payload is: the digits that are read, with a sign or zeros as they may be, are the
/// payload only if they are its one spelling.
pub fn int_of(payload: &[u8]) -> Option<i64>
    ensures { MatchOption result ((n : ℤ) → ¬ (IsInt n payload.now)) (λ n. IsInt n payload.now) }
{
    let Ok(text) = str::from_utf8(payload) else {
        return None;
    };
    let Ok(n) = i64::from_str_radix(text, 10) else {
        return None;
    };
    let mut buffer = Buffer::new();
    if buffer.format(n).as_bytes() == payload {
        Some(n)
    } else {
        None
    }
}

/// The truth that the payload is.
pub fn bool_of(payload: &[u8]) -> Option<bool>
    ensures { MatchOption result ((b : Bool) → ¬ (payload.now ≡ truth b)) (λ b. payload.now ≡ truth b) }
{
    match payload {
        b"true" => Some(true),
        b"false" => Some(false),
        _ => None,
    }
}
