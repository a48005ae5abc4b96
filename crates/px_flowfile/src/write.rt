//! Writing flows.
ghost use Rattle.std.specs.Prelude.{◌≡◌, ◌⊎◌, ◌++◌, take, drop, IfOk, IfErr, OnOk, OnErr};
ghost use Rattle.px_tnet.specs.Tree.{Pairs, pair as one_pair};
ghost use Rattle.px_tnet.specs.View.{pairs_view, view};
ghost use Rattle.px_tnet.specs.Written.{IsTooLong, written};
ghost use Rattle.px_tnet.specs.declared.error.WriteError.TheVariants as error;
ghost use Rattle.px_flowfile.specs.Answered.{response_table};
ghost use Rattle.px_flowfile.specs.Asked.{request_table};
ghost use Rattle.px_flowfile.specs.Ends.{end_table, error_table};
ghost use Rattle.px_flowfile.specs.FlowTable.{answered, answered_by, asked, flow_table, flow_tree};
ghost use Rattle.px_flowfile.specs.Kind.{or_null};
ghost use Rattle.px_flowfile.specs.OthersView.{others_view};
ghost use Rattle.px_flowfile.specs.Simple as specs;
ghost use Rattle.px_flowfile.specs.Table.{dictionary, lines, text_key};
ghost use Rattle.px_flowfile.specs.Unknown.{joined};
ghost use Rattle.px_flowfile.specs.declared.form.Form.TheVariants as forms;
ghost use Rattle.px_flowfile.specs.declared.key.Key.TheVariants as key;

use crate::put::{dict_tree, put, put_number, put_text};
use crate::put_socket::put_socket;
use crate::unknown::keep;
use crate::write_parts::{end_tree, error_tree, request_tree, response_tree};
use crate::{Entry, Key, Others};
use px_message::{Address, Flow, FlowId, Replayed, Response, Shared};
use px_text::{Bytes, NoMemory, push_decimal};
use px_tnet::{Tnet, TnetKey, WriteError, write};
use std::alloc::Global;

/// Appends the text of an entry in version 2: the keys of the tables as texts, in their order, and the other pairs behind them. Refused exactly where a
/// payload has 1,000,000,000 bytes or more; after an error nothing is appended. The bytes of the flow are copied.
pub fn write_flow(alloc: Global, entry: &Entry, out: &mut Vec<u8>) -> Result<(), WriteError>
    ensures ok { OnOk result (out.new.items ≡ out.old.items ++ written (flow_tree entry.now.flow (others_view entry.now.others))) }
    ensures fits { OnOk result (¬ (IsTooLong (flow_tree entry.now.flow (others_view entry.now.others)))) }
    ensures err { IfErr result (λ e. (e ≡ error.NoMemory)
        ⊎ ((e ≡ error.TooLong) × IsTooLong (flow_tree entry.now.flow (others_view entry.now.others)))) }
    ensures same { OnErr result (out.new.items ≡ out.old.items) }
{
    match entry_tree(alloc, entry) {
        Ok(tree) => write_tree(tree, out),
        Err(NoMemory) => Err(WriteError::NoMemory),
    }
}

fn write_tree(tree: Tnet, out: &mut Vec<u8>) -> Result<(), WriteError>
    ensures ok { OnOk result (out.new.items ≡ out.old.items ++ written (view tree)) }
    ensures fits { OnOk result (¬ (IsTooLong (view tree))) }
    ensures err { IfErr result (λ e. (e ≡ error.NoMemory) ⊎ ((e ≡ error.TooLong) × IsTooLong (view tree))) }
    ensures same { OnErr result (out.new.items ≡ out.old.items) }
{
    write(&tree, out)
}

fn entry_tree(alloc: Global, entry: &Entry) -> Result<Tnet, NoMemory>
    ensures { IfOk result (λ t. view t ≡ flow_tree entry.now.flow (others_view entry.now.others)) }
{
    let mut pairs = Vec::new(alloc);
    put_flow(alloc, &mut pairs, &entry.flow)?;
    put_others(&mut pairs, &entry.others)?;
    Ok(dict_tree(pairs))
}

fn put_flow(alloc: Global, pairs: &mut Vec<(TnetKey, Tnet)>, flow: &Flow) -> Result<(), NoMemory>
    ensures { OnOk result ((more : Pairs) → joined (pairs_view pairs.new.items) more
        ≡ joined (pairs_view pairs.old.items) (lines (flow_table forms.Second) flow.now more)) }
{
    put_front(alloc, pairs, flow)?;
    put_messages(alloc, pairs, flow)?;
    put_marks(alloc, pairs, flow)?;
    Ok(())
}

// The first five lines.
fn put_front(alloc: Global, pairs: &mut Vec<(TnetKey, Tnet)>, flow: &Flow) -> Result<(), NoMemory>
    ensures { OnOk result ((more : Pairs) → joined (pairs_view pairs.new.items) more
        ≡ joined (pairs_view pairs.old.items) (lines (take 5 (flow_table forms.Second)) flow.now more)) }
{
    put_number(alloc, pairs, Key::Version, 2)?;
    put_text(alloc, pairs, Key::Type, b"http")?;
    put_id(alloc, pairs, flow.id)?;
    put_end(alloc, pairs, Key::ClientConn, &flow.client)?;
    put_end(alloc, pairs, Key::ServerConn, &flow.server)?;
    Ok(())
}

// The three lines behind them.
fn put_messages(
    alloc: Global,
    pairs: &mut Vec<(TnetKey, Tnet)>,
    flow: &Flow,
) -> Result<(), NoMemory>
    ensures { OnOk result ((more : Pairs) → joined (pairs_view pairs.new.items) more
        ≡ joined (pairs_view pairs.old.items) (lines (take 3 (drop 5 (flow_table forms.Second))) flow.now more)) }
{
    put_asked(alloc, pairs, flow)?;
    put_answered(alloc, pairs, flow)?;
    put_told(alloc, pairs, flow)?;
    Ok(())
}

// The last three lines.
fn put_marks(alloc: Global, pairs: &mut Vec<(TnetKey, Tnet)>, flow: &Flow) -> Result<(), NoMemory>
    ensures { OnOk result ((more : Pairs) → joined (pairs_view pairs.new.items) more
        ≡ joined (pairs_view pairs.old.items) (lines (drop 8 (flow_table forms.Second)) flow.now more)) }
{
    put_replay(alloc, pairs, flow.replayed)?;
    put(alloc, pairs, Key::Marked, Tnet::Bool(flow.marked))?;
    put_socket(alloc, pairs, flow.websocket, &flow.messages)?;
    Ok(())
}

fn put_end(
    alloc: Global,
    pairs: &mut Vec<(TnetKey, Tnet)>,
    key: Key,
    end: &Option<Shared<Address>>,
) -> Result<(), NoMemory>
    ensures { OnOk result ((more : Pairs) → joined (pairs_view pairs.new.items) more
        ≡ joined (pairs_view pairs.old.items) (one_pair (text_key key) ((or_null (dictionary end_table)).write end.now) more)) }
{
    put(alloc, pairs, key, end_tree(alloc, end)?)
}

fn put_asked(alloc: Global, pairs: &mut Vec<(TnetKey, Tnet)>, flow: &Flow) -> Result<(), NoMemory>
    ensures { OnOk result ((more : Pairs) → joined (pairs_view pairs.new.items) more
        ≡ joined (pairs_view pairs.old.items) (one_pair (text_key key.Request) ((dictionary request_table).write (asked flow.now)) more)) }
{
    put(alloc, pairs, Key::Request, asked_tree(alloc, flow)?)
}

fn put_answered(
    alloc: Global,
    pairs: &mut Vec<(TnetKey, Tnet)>,
    flow: &Flow,
) -> Result<(), NoMemory>
    ensures { OnOk result ((more : Pairs) → joined (pairs_view pairs.new.items) more
        ≡ joined (pairs_view pairs.old.items)
        (one_pair (text_key key.Response) ((or_null (dictionary response_table)).write (answered flow.now)) more)) }
{
    put(alloc, pairs, Key::Response, answered_tree(alloc, flow)?)
}

fn put_told(alloc: Global, pairs: &mut Vec<(TnetKey, Tnet)>, flow: &Flow) -> Result<(), NoMemory>
    ensures { OnOk result ((more : Pairs) → joined (pairs_view pairs.new.items) more
        ≡ joined (pairs_view pairs.old.items)
        (one_pair (text_key key.Error) ((or_null (dictionary error_table)).write flow.now.error) more)) }
{
    put(alloc, pairs, Key::Error, error_tree(alloc, &flow.error)?)
}

fn asked_tree(alloc: Global, flow: &Flow) -> Result<Tnet, NoMemory>
    ensures { IfOk result (λ t. view t ≡ (dictionary request_table).write (asked flow.now)) }
{
    request_tree(
        alloc,
        flow.request.get(),
        flow.times.request_start,
        flow.times.request_end,
    )
}

fn answered_tree(alloc: Global, flow: &Flow) -> Result<Tnet, NoMemory>
    ensures { IfOk result (λ t. view t ≡ (or_null (dictionary response_table)).write (answered flow.now)) }
{
    optional_response(
        alloc,
        &flow.response,
        flow.times.response_start,
        flow.times.response_end,
    )
}

fn optional_response(
    alloc: Global,
    response: &Option<Shared<Response>>,
    start: Option<u64>,
    end: Option<u64>,
) -> Result<Tnet, NoMemory>
    ensures { IfOk result (λ t. view t ≡ (or_null (dictionary response_table)).write (answered_by start end response.now)) }
{
    match response {
        Some(response) => response_tree(alloc, response.get(), start, end),
        None => Ok(Tnet::Null),
    }
}

fn put_id(alloc: Global, pairs: &mut Vec<(TnetKey, Tnet)>, id: FlowId) -> Result<(), NoMemory>
    ensures { OnOk result ((more : Pairs) → joined (pairs_view pairs.new.items) more
        ≡ joined (pairs_view pairs.old.items) (one_pair (text_key key.Id) (specs.flow_id.write id) more)) }
{
    put(
        alloc,
        pairs,
        Key::Id,
        Tnet::Text(Bytes::new(id_text(alloc, id)?)?),
    )
}

fn id_text(alloc: Global, id: FlowId) -> Result<Vec<u8>, NoMemory>
    ensures { IfOk result (λ text. text.items ≡ specs.id_text id) }
{
    let mut text = Vec::new(alloc);
    push_decimal(&mut text, id.conv as u64)?;
    text.push(b'.')?;
    push_decimal(&mut text, id.index as u64)?;
    Ok(text)
}

fn put_replay(
    alloc: Global,
    pairs: &mut Vec<(TnetKey, Tnet)>,
    replayed: Replayed,
) -> Result<(), NoMemory>
    ensures { OnOk result ((more : Pairs) → joined (pairs_view pairs.new.items) more
        ≡ joined (pairs_view pairs.old.items) (one_pair (text_key key.IsReplay) (specs.replay.write replayed) more)) }
{
    match replayed {
        Replayed::No => put(alloc, pairs, Key::IsReplay, Tnet::Null),
        Replayed::Request => put_text(alloc, pairs, Key::IsReplay, b"request"),
        Replayed::Response => put_text(alloc, pairs, Key::IsReplay, b"response"),
    }
}

// Puts copies of the other pairs.
fn put_others(pairs: &mut Vec<(TnetKey, Tnet)>, others: &Others) -> Result<(), NoMemory>
    ensures { OnOk result (pairs_view pairs.new.items ≡ joined (pairs_view pairs.old.items) (others_view others.now)) }
{
    let mut rest = others.as_slice();
    while let Some((first, behind)) = rest.split_first() {
        keep(pairs, first)?;
        rest = behind;
    }
    Ok(())
}
