//! The line that an operator is given of the entry of a flow.
//!
//! It is a part of the entry, as px_entry has it, and a line feed. So no line has more than 65,537 bytes, whatever a body has.
ghost use Rattle.std.specs.Prelude.{◌≡◌, ◌++◌, OnOk, OnErr};
ghost use Rattle.px_view.specs.Entry.{entry_line};

use px_entry::write_part;
use px_message::Flow;
use px_text::NoMemory;

/// Appends the line of the part of the flow's entry from that byte on, counted from 0: at most 65,536 bytes and a line feed. At the end of the
/// entry and behind it the line is empty. After `NoMemory` nothing was appended.
pub fn entry_line(flow: &Flow, from: u64, out: &mut Vec<u8>) -> Result<(), NoMemory>
    ensures ok { OnOk result (out.new.items ≡ out.old.items ++ entry_line from flow.now) }
    ensures err { OnErr result (out.new.items ≡ out.old.items) }
{
    let alloc = *out.allocator();
    let mut line = Vec::new(alloc);
    write_part(alloc, flow, from, &mut line)?;
    line.push(b'\n')?;
    out.extend_from_slice(&line)?;
    Ok(())
}
