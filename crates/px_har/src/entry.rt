//! An entry.
ghost use Rattle.std.specs.Prelude.{codes};
ghost use Rattle.serde_json.specs.Data.{no_members, object};
ghost use Rattle.px_har.specs.Entry.{entry_value, text_value, times_end};
ghost use Rattle.px_har.specs.Moment.{moment_text};
ghost use Rattle.px_har.specs.Puts.{Ends, Puts, PutsMember};

use crate::moment::push_moment;
use crate::request::put_request;
use crate::response::put_response;
use crate::times::{put_timings, total_millis};
use crate::values::{put_count_member, put_text_member};
use json::Writer;
use px_message::{Flow, Times};
use px_text::NoMemory;
use std::alloc::Global;

pub(crate) fn put_entry(alloc: Global, writer: &mut Writer, flow: &Flow) -> Result<(), NoMemory>
    ensures { Puts result writer.old writer.new (entry_value flow.now) }
{
    let request = flow.request.get();
    writer.begin_object()?;
    put_cache(writer)?;
    writer.key("request")?;
    put_request(alloc, writer, request)?;
    writer.key("response")?;
    put_response(alloc, writer, &flow.response)?;
    put_end(alloc, writer, flow.times)?;
    Ok(())
}

// Of a cache nothing is known.
fn put_cache(writer: &mut Writer) -> Result<(), NoMemory>
    ensures { PutsMember result writer.old writer.new (codes "cache") (object no_members) }
{
    writer.key("cache")?;
    writer.begin_object()?;
    writer.end_object()?;
    Ok(())
}

// `startedDateTime`, `time`, `timings`, and the end of the entry.
fn put_end(alloc: Global, writer: &mut Writer, times: Times) -> Result<(), NoMemory>
    ensures { Ends result writer.old writer.new (times_end times) }
{
    let total = total_millis(times);
    put_moment(alloc, writer, times.request_start)?;
    put_count_member(writer, "time", total)?;
    writer.key("timings")?;
    put_timings(writer, times)?;
    writer.end_object()?;
    Ok(())
}

fn put_moment(alloc: Global, writer: &mut Writer, moment: u64) -> Result<(), NoMemory>
    ensures { PutsMember result writer.old writer.new (codes "startedDateTime") (text_value (moment_text moment)) }
{
    let mut text = Vec::new(alloc);
    push_moment(moment, &mut text)?;
    put_text_member(alloc, writer, "startedDateTime", &text)
}
