//! Whole exports, and their parts.
ghost use Rattle.std.specs.Prelude.{◌≡◌, ◌++◌, ◌^◌, ◌<◌, All, IfOk, IfSome, IsUtf8, OnOk, OnErr, codes, length};
ghost use Rattle.px_text.specs.Prefix.{AddsPrefixOf};
ghost use Rattle.px_har.specs.Entry.{entry_value};
ghost use Rattle.px_har.specs.Export.{begin_text, end_text, entries_text, entry_text, har_text, har_value, placed_text, separator};
ghost use Rattle.px_har.specs.Puts.{value_tokens};
ghost use Rattle.px_har.specs.Read.{HasSizes, HasTimes, IsReadAs, IsReadable};
ghost use Rattle.px_har.specs.declared.export.Place.TheVariants.{First};

use crate::entry::put_entry;
use crate::times::has_times;
use json::Writer;
use px_message::{Flow, Request, Response, Shared};
use px_text::NoMemory;
use std::alloc::Global;

/// Where an entry stands in its export.
#[derive(Clone, Copy, Debug, PartialEq, Eq)]
pub enum Place {
    /// It is the first one.
    First,
    /// Another stands in front of it.
    Later,
}

/// Appends the export of the flows, in their order: one object of JSON without blanks. It takes the memory of its text, and of one
/// entry more; `begin_har`, `write_entry_at` and `end_har` append the same text in parts. After `NoMemory` a prefix of it was appended.
pub fn write_har(flows: &[Flow], out: &mut Vec<u8>) -> Result<(), NoMemory>
    ensures ok { OnOk result (out.new.items ≡ out.old.items ++ har_text flows.now) }
    ensures err { OnErr result (AddsPrefixOf (har_text flows.now) out.old.items out.new.items) }
    ensures read { OnOk result (IsReadAs (har_text flows.now) (har_value flows.now)) }
{
    begin_har(out)?;
    write_entries(flows, out)?;
    end_har(out)?;
    Ok(())
}

/// Appends what stands in front of the entries. After `NoMemory` nothing was appended.
pub fn begin_har(out: &mut Vec<u8>) -> Result<(), NoMemory>
    ensures ok { OnOk result (out.new.items ≡ out.old.items ++ begin_text) }
    ensures err { OnErr result (out.new.items ≡ out.old.items) }
{
    out.extend_from_slice(
        b"{\"log\":{\"creator\":{\"name\":\"mitm\",\"version\":\"1\"},\"entries\":[",
    )?;
    Ok(())
}

/// Appends the entry of a flow, by itself. After `NoMemory` nothing was appended.
pub fn write_entry(flow: &Flow, out: &mut Vec<u8>) -> Result<(), NoMemory>
    ensures ok { OnOk result (out.new.items ≡ out.old.items ++ entry_text flow.now) }
    ensures err { OnErr result (out.new.items ≡ out.old.items) }
    ensures readable { OnOk result (IsReadable flow.now) }
{
    write_entry_at(Place::First, flow, out)
}

/// Appends the entry of a flow at its place in an export: with a comma in front, where another stands there. After `NoMemory` nothing
/// was appended. It takes the memory of that entry alone.
pub fn write_entry_at(place: Place, flow: &Flow, out: &mut Vec<u8>) -> Result<(), NoMemory>
    ensures ok { OnOk result (out.new.items ≡ out.old.items ++ placed_text place flow.now) }
    ensures err { OnErr result (out.new.items ≡ out.old.items) }
    ensures readable { OnOk result (IsReadable flow.now) }
{
    let text = placed_text(*out.allocator(), place, flow)?;
    out.extend_from_slice(&text)?;
    Ok(())
}

/// Appends what stands behind the entries. After `NoMemory` nothing was appended.
pub fn end_har(out: &mut Vec<u8>) -> Result<(), NoMemory>
    ensures ok { OnOk result (out.new.items ≡ out.old.items ++ end_text) }
    ensures err { OnErr result (out.new.items ≡ out.old.items) }
{
    out.extend_from_slice(b"],\"pages\":[],\"version\":\"1.2\"}}")?;
    Ok(())
}

// The entries, with a comma between two.
fn write_entries(flows: &[Flow], out: &mut Vec<u8>) -> Result<(), NoMemory>
    ensures ok { OnOk result (out.new.items ≡ out.old.items ++ entries_text First flows.now) }
    ensures err { OnErr result (AddsPrefixOf (entries_text First flows.now) out.old.items out.new.items) }
    ensures readable { OnOk result (All IsReadable flows.now) }
{
    let mut place = Place::First;
    for flow in flows {
        write_entry_at(place, flow, out)?;
        place = Place::Later;
    }
    Ok(())
}

// The text of the entry at its place.
fn placed_text(alloc: Global, place: Place, flow: &Flow) -> Result<Vec<u8>, NoMemory>
    ensures text { IfOk result (λ text. text.items ≡ placed_text place flow.now) }
    ensures readable { OnOk result (IsReadable flow.now) }
{
    has_body(flow.request.get());
    has_sizes(&flow.response);
    has_times(flow.times);
    let front = separator(alloc, place)?;
    let mut writer = Writer::new(front);
    put_entry(alloc, &mut writer, flow)?;
    Ok(writer.into_inner())
}

fn separator(alloc: Global, place: Place) -> Result<Vec<u8>, NoMemory>
    ensures { IfOk result (λ text. text.items ≡ separator place) }
{
    let mut text = Vec::new(alloc);
    match place {
        Place::First => Ok(text),
        Place::Later => {
            text.push(b',')?;
            Ok(text)
        }
    }
}

// What the types say of a request.
fn has_body(request: &Request)
    ensures { length request.now.body < 2 ^ 64 }
{
    fits(request.body.bytes());
}

// What they say of a response that may be there.
fn has_sizes(response: &Option<Shared<Response>>)
    ensures { IfSome response.now HasSizes }
{
    if let Some(response) = response {
        fits_answer(response.get());
    }
}

fn fits_answer(response: &Response)
    ensures { HasSizes response.now }
{
    fits_code(response.status.code());
    fits(response.body.bytes());
}

fn fits_code(code: u16)
    ensures { code < 2 ^ 64 }
{
    let _ = code;
}

fn fits(bytes: &[u8])
    ensures { length bytes.now < 2 ^ 64 }
{
    let _ = bytes.len();
}
