//! What is written of a WebSocket.
ghost use Rattle.std.specs.Prelude.{◌≡◌, ◌∷◌, ◌++◌, [], IfOk, OnOk};
ghost use Rattle.px_tnet.specs.Tree.{Pairs, blob, bool, pair as one_pair};
ghost use Rattle.px_tnet.specs.View.{pairs_view, trees_view, view};
ghost use Rattle.px_tnet.specs.declared.tree.Tnet.{Tnet};
ghost use Rattle.px_flowfile.specs.Message.{row_of};
ghost use Rattle.px_flowfile.specs.Sockets as specs;
ghost use Rattle.px_flowfile.specs.Table.{dictionary, lines, text_key};
ghost use Rattle.px_flowfile.specs.Unknown.{joined};
ghost use Rattle.px_flowfile.specs.declared.key.Key.TheVariants as key;

use crate::Key;
use crate::put::{dict_tree, put, put_moment};
use px_message::{Messages, WsRecord};
use px_text::{Bytes, NoMemory};
use px_tnet::{Tnet, TnetKey, TnetList};
use std::alloc::Global;

/// Puts the messages of a WebSocket, or nothing where it was none.
pub(crate) fn put_socket(
    alloc: Global,
    pairs: &mut Vec<(TnetKey, Tnet)>,
    websocket: bool,
    messages: &Messages,
) -> Result<(), NoMemory>
    ensures { OnOk result ((more : Pairs) → joined (pairs_view pairs.new.items) more
        ≡ joined (pairs_view pairs.old.items)
        (one_pair (text_key key.Websocket) (specs.second_socket.write (record { websocket = websocket; messages = messages.now })) more)) }
{
    if websocket {
        put(alloc, pairs, Key::Websocket, socket_tree(alloc, messages)?)
    } else {
        put(alloc, pairs, Key::Websocket, Tnet::Null)
    }
}

fn socket_tree(alloc: Global, messages: &Messages) -> Result<Tnet, NoMemory>
    ensures { IfOk result (λ t. view t ≡ (dictionary specs.socket_table).write messages.now) }
{
    let mut pairs = Vec::new(alloc);
    put(
        alloc,
        &mut pairs,
        Key::Messages,
        messages_tree(alloc, messages)?,
    )?;
    Ok(dict_tree(pairs))
}

fn messages_tree(alloc: Global, messages: &Messages) -> Result<Tnet, NoMemory>
    ensures { IfOk result (λ t. view t ≡ specs.messages.write messages.now) }
{
    Ok(Tnet::List(TnetList::new(message_trees(alloc, messages)?)))
}

fn message_trees(alloc: Global, messages: &Messages) -> Result<Vec<Tnet>, NoMemory>
    ensures { IfOk result (λ trees. trees_view trees.items ≡ row_of (dictionary specs.message_table) messages.now) }
{
    let mut trees = Vec::new(alloc);
    let mut i = 0;
    while i < messages.len() {
        push_message(alloc, &mut trees, messages.get(i))?;
        i += 1;
    }
    Ok(trees)
}

// Puts the tree of a message at the end.
fn push_message(alloc: Global, trees: &mut Vec<Tnet>, message: &WsRecord) -> Result<(), NoMemory>
    ensures { OnOk result ((t : Tnet) × (view t ≡ (dictionary specs.message_table).write message.now)
        × (trees.new.items ≡ trees.old.items ++ t ∷ [])) }
{
    trees.push(message_tree(alloc, message)?)?;
    Ok(())
}

fn message_tree(alloc: Global, message: &WsRecord) -> Result<Tnet, NoMemory>
    ensures { IfOk result (λ t. view t ≡ (dictionary specs.message_table).write message.now) }
{
    let mut pairs = Vec::new(alloc);
    put_message(alloc, &mut pairs, message)?;
    Ok(dict_tree(pairs))
}

fn put_message(
    alloc: Global,
    pairs: &mut Vec<(TnetKey, Tnet)>,
    message: &WsRecord,
) -> Result<(), NoMemory>
    ensures { OnOk result ((more : Pairs) → joined (pairs_view pairs.new.items) more
        ≡ joined (pairs_view pairs.old.items) (lines specs.message_table message.now more)) }
{
    put_truth(alloc, pairs, Key::FromClient, message.from_client)?;
    put_truth(alloc, pairs, Key::Text, message.text)?;
    put_payload(alloc, pairs, message.payload.try_clone()?)?;
    put_moment(alloc, pairs, Key::Timestamp, message.moment)?;
    put_truth(alloc, pairs, Key::Dropped, message.dropped)?;
    Ok(())
}

// Puts the payload of a message.
fn put_payload(
    alloc: Global,
    pairs: &mut Vec<(TnetKey, Tnet)>,
    payload: Bytes,
) -> Result<(), NoMemory>
    ensures { OnOk result ((more : Pairs) → joined (pairs_view pairs.new.items) more
        ≡ joined (pairs_view pairs.old.items) (one_pair (text_key key.Content) (blob payload) more)) }
{
    put(alloc, pairs, Key::Content, Tnet::Blob(payload))
}

fn put_truth(
    alloc: Global,
    pairs: &mut Vec<(TnetKey, Tnet)>,
    key: Key,
    truth: bool,
) -> Result<(), NoMemory>
    ensures { OnOk result ((more : Pairs) → joined (pairs_view pairs.new.items) more
        ≡ joined (pairs_view pairs.old.items) (one_pair (text_key key) (bool truth) more)) }
{
    put(alloc, pairs, key, Tnet::Bool(truth))
}
