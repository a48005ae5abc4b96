//! How many bytes fields hold.
ghost use Rattle.std.specs.Prelude.{◌≡◌, ◌^◌, ◌-◌, min};
ghost use Rattle.px_read.specs.Kept.{fields_keep};

use px_message::Fields;

/// How many bytes the names and the values of these fields have together, or 2^64 - 1 where that is more.
pub fn fields_kept(fields: &Fields) -> usize
    ensures { result ≡ min (fields_keep fields.now) (2 ^ 64 - 1) }
{
    let mut size: usize = 0;
    let mut at = 0;
    while at < fields.len() {
        let (name, value) = fields.pair(at);
        size = size
            .saturating_add(name.bytes().len())
            .saturating_add(value.bytes().len());
        at += 1;
    }
    size
}
