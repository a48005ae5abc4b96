//! Masking (RFC 6455 section 5.3), eight bytes at a time.
ghost use Rattle.std.specs.Prelude.{◌≡◌, ◌++◌, IfOk, OnErr, OnOk, length};
ghost use Rattle.px_text.specs.Prefix.{AddsPrefixOf};
ghost use Rattle.px_frame.specs.Mask.{under, under_key};

use px_text::NoMemory;

/// Appends the payload, each byte XORed with the key in turn; without a key as it is. The same call takes the mask off.
pub fn push_under_key(
    out: &mut Vec<u8>,
    key: Option<[u8; 4]>,
    payload: &[u8],
) -> Result<(), NoMemory>
    ensures ok { OnOk result (out.new.items ≡ out.old.items ++ under_key key payload.now) }
    ensures err { OnErr result (AddsPrefixOf (under_key key payload.now) out.old.items out.new.items) }
{
    match key {
        None => {
            out.extend_from_slice(payload)?;
            Ok(())
        }
        Some(key) => push_under(out, key, payload),
    }
}

fn push_under(out: &mut Vec<u8>, key: [u8; 4], payload: &[u8]) -> Result<(), NoMemory>
    ensures ok { OnOk result (out.new.items ≡ out.old.items ++ under key 0 payload.now) }
    ensures err { OnErr result (AddsPrefixOf (under key 0 payload.now) out.old.items out.new.items) }
{
    out.reserve(payload.len())?;
    let mut rest = payload;
    'eights: while let [a, b, c, d, e, f, g, h, more @ ..] = rest {
        out.extend_from_slice(&[
            *a ^ key[0],
            *b ^ key[1],
            *c ^ key[2],
            *d ^ key[3],
            *e ^ key[0],
            *f ^ key[1],
            *g ^ key[2],
            *h ^ key[3],
        ])?;
        rest = more;
    }
    push_few(out, key, rest)
}

// The same, byte by byte.
#[tactic(auto, using(crate::proofs::MaskLemmas::take_whole))]
fn push_few(out: &mut Vec<u8>, key: [u8; 4], payload: &[u8]) -> Result<(), NoMemory>
    ensures ok { OnOk result (out.new.items ≡ out.old.items ++ under key 0 payload.now) }
    ensures err { OnErr result (AddsPrefixOf (under key 0 payload.now) out.old.items out.new.items) }
{
    for (i, byte) in payload.iter().enumerate() {
        out.push(*byte ^ key[i % 4])?;
    }
    Ok(())
}
