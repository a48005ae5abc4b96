//! Numbers as digits: without a sign, read whole or refused, written without leading zeros.
//!
//! Content-Length and a status are decimal (RFC 9110 sections 8.6 and 15), a chunk's size is hexadecimal (RFC 9112
//! section 7.1). A text of digits is a number of 64 bits or none; leading zeros are read, and no other byte is.
ghost use Rattle.std.specs.Prelude.{◌≡◌, ◌≤◌, ◌++◌, MatchOption, OnOk, OnErr, decimal};
ghost use Rattle.px_text.specs.Number.{IsDecimal, IsHex, IsNumber, decimal_value, hex_value, hexadecimal};
ghost use Rattle.std.specs.Str.Parse.{digits_value};
ghost use Rattle.px_text.specs.Prefix.{AddsPrefixOf};

use crate::NoMemory;
use itoa::Buffer;
use std::str;

/// The value of decimal digits. None where there is no digit, where another byte stands, or where the value is 2^64
/// or more.
pub fn read_decimal(digits: &[u8]) -> Option<u64>
    ensures value { result ≡ decimal_value digits.now }
    ensures cases { MatchOption result (¬ (IsDecimal digits.now)) (λ n. IsDecimal digits.now × (n ≡ digits_value 10 digits.now)) }
{
    read_number(digits, 10)
}

/// The value of hexadecimal digits, their letters in either case. None where there is no digit, where another byte
/// stands, or where the value is 2^64 or more.
pub fn read_hex(digits: &[u8]) -> Option<u64>
    ensures value { result ≡ hex_value digits.now }
    ensures cases { MatchOption result (¬ (IsHex digits.now)) (λ n. IsHex digits.now × (n ≡ digits_value 16 digits.now)) }
{
    read_number(digits, 16)
}

/// Appends the number in decimal digits.
pub fn push_decimal(out: &mut Vec<u8>, n: u64) -> Result<(), NoMemory>
    ensures ok { OnOk result (out.new.items ≡ out.old.items ++ decimal n) }
    ensures err { OnErr result (AddsPrefixOf (decimal n) out.old.items out.new.items) }
{
    let mut buffer = Buffer::new();
    out.extend_from_slice(buffer.format(n).as_bytes())?;
    Ok(())
}

/// Appends the number in hexadecimal digits, their letters in lower case.
pub fn push_hex(out: &mut Vec<u8>, n: u64) -> Result<(), NoMemory>
    ensures ok { OnOk result (out.new.items ≡ out.old.items ++ hexadecimal n) }
    ensures err { OnErr result (AddsPrefixOf (hexadecimal n) out.old.items out.new.items) }
{
    let text = format!(in *out.allocator(); "{n:x}")?;
    out.extend_from_slice(text.as_bytes())?;
    Ok(())
}

// The value of the digits in the base. `from_str_radix` takes a plus sign in front, which is no digit.
fn read_number(digits: &[u8], base: u32) -> Option<u64>
    requires low { 2 ≤ base }
    requires high { base ≤ 36 }
    ensures { MatchOption result (¬ (IsNumber base digits.now)) (λ n. IsNumber base digits.now × (n ≡ digits_value base digits.now)) }
{
    if digits.first() == Some(&b'+') {
        return None;
    }
    let Ok(text) = str::from_utf8(digits) else {
        return None;
    };
    u64::from_str_radix(text, base).ok()
}
