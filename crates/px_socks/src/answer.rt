//! How a greeting and a request are answered (RFC 1928 sections 3 and 6).
ghost use Rattle.std.specs.Prelude.{◌≡◌, ◌++◌, OnErr, OnOk};
ghost use Rattle.px_text.specs.Prefix.{AddsPrefixOf};
ghost use Rattle.px_socks.specs.Answer.{answer_text, method_text};

use px_text::NoMemory;

/// Appends the answer of this code: 0 where the connection stands, 1 for a general failure, 7 for a command that is not
/// served, 8 for a type of address that is not served. Its address says nothing. After `NoMemory` a prefix of its bytes
/// may have been appended.
pub fn push_answer(code: u8, out: &mut Vec<u8>) -> Result<(), NoMemory>
    ensures ok { OnOk result (out.new.items ≡ out.old.items ++ answer_text code) }
    ensures err { OnErr result (AddsPrefixOf (answer_text code) out.old.items out.new.items) }
{
    out.extend_from_slice(&[5, code, 0, 1, 0, 0, 0, 0, 0, 0])?;
    Ok(())
}

/// Appends the answer to a greeting: the method that is taken, or FF where none of its methods is. After `NoMemory` a prefix of its bytes may
/// have been appended.
pub fn push_method(method: u8, out: &mut Vec<u8>) -> Result<(), NoMemory>
    ensures ok { OnOk result (out.new.items ≡ out.old.items ++ method_text method) }
    ensures err { OnErr result (AddsPrefixOf (method_text method) out.old.items out.new.items) }
{
    out.extend_from_slice(&[5, method])?;
    Ok(())
}
