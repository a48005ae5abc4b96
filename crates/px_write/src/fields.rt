//! Field lines, and the empty line that ends a head or trailers (RFC 9112 sections 5 and 7.1.2).
ghost use Rattle.std.specs.Prelude.{◌≡◌, ◌++◌, OnOk, OnErr};
ghost use Rattle.std.specs.List.{flat_map};
ghost use Rattle.px_text.specs.Prefix.{AddsPrefixOf};
ghost use Rattle.px_write.specs.Text.{field_line, fields_text};

use crate::append::{CRLF, append};
use px_message::{Fields, Name, Value};
use px_text::NoMemory;

/// Appends the fields and the empty line behind them.
pub(crate) fn write_fields(fields: &Fields, out: &mut Vec<u8>) -> Result<(), NoMemory>
    ensures ok { OnOk result (out.new.items ≡ out.old.items ++ fields_text fields.now) }
    ensures err { OnErr result (AddsPrefixOf (fields_text fields.now) out.old.items out.new.items) }
{
    write_field_lines(fields, out)?;
    append(out, &[CRLF])
}

fn write_field_lines(fields: &Fields, out: &mut Vec<u8>) -> Result<(), NoMemory>
    ensures ok { OnOk result (out.new.items ≡ out.old.items ++ flat_map field_line fields.now) }
    ensures err { OnErr result (AddsPrefixOf (flat_map field_line fields.now) out.old.items out.new.items) }
{
    for i in 0..fields.len() {
        let (name, value) = fields.pair(i);
        write_field(name, value, out)?;
    }
    Ok(())
}

fn write_field(name: &Name, value: &Value, out: &mut Vec<u8>) -> Result<(), NoMemory>
    ensures ok { OnOk result (out.new.items ≡ out.old.items ++ field_line (name.now, value.now)) }
    ensures err { OnErr result (AddsPrefixOf (field_line (name.now, value.now)) out.old.items out.new.items) }
{
    append(out, &[name.bytes(), b": ", value.bytes(), CRLF])
}
