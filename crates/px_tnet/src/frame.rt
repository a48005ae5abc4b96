//! A payload in its frame.
ghost use Rattle.std.specs.Prelude.{◌≡◌, ◌⊎◌, IfOk, IfErr};
ghost use Rattle.px_tnet.specs.Frame.{Framed, IsBadLength, IsCut};
ghost use Rattle.px_tnet.specs.declared.error.TnetError.TheVariants as error;

use crate::TnetError;
use crate::length::read_length;
use px_text::Bytes;

/// A payload, and the byte behind it that tells its kind.
#[derive(Debug, Drop)]
pub struct Frame {
    pub payload: Bytes,
    pub tag: u8,
}

/// Takes the first frame off the text; its payload is a part of the text.
pub fn read_frame(text: &mut Bytes) -> Result<Frame, TnetError>
    ensures ok { IfOk result (λ f. Framed f.payload f.tag text.new text.old) }
    ensures err { IfErr result (λ e. (e ≡ error.NoMemory) ⊎ ((e ≡ error.Cut) × IsCut text.old)
        ⊎ ((e ≡ error.BadLength) × IsBadLength text.old)) }
{
    let length = read_length(text.as_slice())?;
    // The payload and its tag are there before anything is made of them.
    if text.len() - length.digits - 1 <= length.count {
        return Err(TnetError::Cut);
    }
    text.advance(length.digits + 1);
    let payload = text.split_to(length.count)?;
    let tag = text.as_slice()[0];
    text.advance(1);
    Ok(Frame { payload, tag })
}
