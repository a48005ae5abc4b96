//! What a flow's dictionary tells of a WebSocket, in its two forms.
ghost use Rattle.std.specs.Prelude.{◌≡◌, ◌⊎◌, ◌∷◌, ◌++◌, [], IfOk, IfErr, OnOk};
ghost use Rattle.px_message.specs.declared.messages.WsRecord.{WsRecord};
ghost use Rattle.px_tnet.specs.View.{paired, pairs_view, trees_view, view};
ghost use Rattle.px_flowfile.specs.Message.{AreRead, FirstIsRefused};
ghost use Rattle.px_flowfile.specs.Sockets as specs;
ghost use Rattle.px_flowfile.specs.Table.{IsRefusedBy, Meets, ReadsAt, RefusesAt, dictionary};
ghost use Rattle.px_flowfile.specs.declared.error.FlowFileError.TheVariants as error;
ghost use Rattle.px_flowfile.specs.declared.key.Key.TheVariants as key;

use crate::find::{bool_in, dict_in, find, list_in};
use crate::form::Form;
use crate::message::bytes_at;
use crate::simple::{moment_at, truth_at};
use crate::socket::Socket;
use crate::{FlowFileError, Key};
use px_message::{Messages, WsRecord};
use px_tnet::{Tnet, TnetDict};
use std::alloc::Global;

/// Whether the flow was upgraded to a WebSocket, with its messages, of which the first form tells none.
pub(crate) fn socket_at(alloc: Global, dict: &TnetDict, form: Form) -> Result<Socket, FlowFileError>
    ensures ok { IfOk result (λ r. ReadsAt key.Websocket (specs.socket form) (pairs_view (paired dict.now)) r) }
    ensures err { IfErr result (λ e. (e ≡ error.NoMemory)
        ⊎ RefusesAt key.Websocket (specs.socket form) (pairs_view (paired dict.now)) e) }
{
    read_socket(alloc, form, Key::Websocket, find(dict, Key::Websocket)?)
}

fn read_socket(alloc: Global, form: Form, key: Key, tree: &Tnet) -> Result<Socket, FlowFileError>
    ensures ok { IfOk result (λ r. (specs.socket form).Reads (view tree.now) r) }
    ensures err { IfErr result (λ e. (e ≡ error.NoMemory) ⊎ (specs.socket form).Refuses key (view tree.now) e) }
{
    match form {
        Form::First => read_first(alloc, key, tree),
        Form::Second => read_second(alloc, key, tree),
    }
}

fn read_first(alloc: Global, key: Key, tree: &Tnet) -> Result<Socket, FlowFileError>
    ensures ok { IfOk result (λ r. specs.first_socket.Reads (view tree.now) r) }
    ensures err { IfErr result (λ e. (e ≡ error.NoMemory) ⊎ specs.first_socket.Refuses key (view tree.now) e) }
{
    Ok(Socket {
        websocket: bool_in(key, tree)?,
        messages: Messages::new(alloc),
    })
}

fn read_second(alloc: Global, key: Key, tree: &Tnet) -> Result<Socket, FlowFileError>
    ensures ok { IfOk result (λ r. specs.second_socket.Reads (view tree.now) r) }
    ensures err { IfErr result (λ e. (e ≡ error.NoMemory) ⊎ specs.second_socket.Refuses key (view tree.now) e) }
{
    match tree {
        Tnet::Null => Ok(Socket {
            websocket: false,
            messages: Messages::new(alloc),
        }),
        tree => Ok(Socket {
            websocket: true,
            messages: messages_in(alloc, key, tree)?,
        }),
    }
}

fn messages_in(alloc: Global, key: Key, tree: &Tnet) -> Result<Messages, FlowFileError>
    ensures ok { IfOk result (λ r. (dictionary specs.socket_table).Reads (view tree.now) r) }
    ensures err { IfErr result (λ e. (e ≡ error.NoMemory) ⊎ (dictionary specs.socket_table).Refuses key (view tree.now) e) }
{
    messages_at(alloc, dict_in(key, tree)?)
}

fn messages_at(alloc: Global, dict: &TnetDict) -> Result<Messages, FlowFileError>
    ensures ok { IfOk result (λ r. Meets specs.socket_table (pairs_view (paired dict.now)) r) }
    ensures err { IfErr result (λ e. (e ≡ error.NoMemory) ⊎ IsRefusedBy specs.socket_table (pairs_view (paired dict.now)) e) }
{
    read_messages(alloc, Key::Messages, find(dict, Key::Messages)?)
}

fn read_messages(alloc: Global, key: Key, tree: &Tnet) -> Result<Messages, FlowFileError>
    ensures ok { IfOk result (λ r. specs.messages.Reads (view tree.now) r) }
    ensures err { IfErr result (λ e. (e ≡ error.NoMemory) ⊎ specs.messages.Refuses key (view tree.now) e) }
{
    read_each(alloc, key, list_in(key, tree)?.as_slice())
}

fn read_each(alloc: Global, key: Key, trees: &[Tnet]) -> Result<Messages, FlowFileError>
    ensures ok { IfOk result (λ r. AreRead (dictionary specs.message_table) (trees_view trees.now) r) }
    ensures err { IfErr result (λ e. (e ≡ error.NoMemory)
        ⊎ FirstIsRefused (dictionary specs.message_table) key (trees_view trees.now) e) }
{
    let mut messages = Messages::new(alloc);
    let mut rest = trees;
    while let Some((tree, others)) = rest.split_first() {
        add_message(&mut messages, key, tree)?;
        rest = others;
    }
    Ok(messages)
}

// Puts the message that the tree is at the end.
fn add_message(messages: &mut Messages, key: Key, tree: &Tnet) -> Result<(), FlowFileError>
    ensures ok { OnOk result ((m : WsRecord) × (dictionary specs.message_table).Reads (view tree.now) m
        × (messages.new ≡ messages.old ++ m ∷ [])) }
    ensures err { IfErr result (λ e. (e ≡ error.NoMemory) ⊎ (dictionary specs.message_table).Refuses key (view tree.now) e) }
{
    let message = read_message(dict_in(key, tree)?)?;
    messages.push(message)?;
    Ok(())
}

fn read_message(dict: &TnetDict) -> Result<WsRecord, FlowFileError>
    ensures ok { IfOk result (λ r. Meets specs.message_table (pairs_view (paired dict.now)) r) }
    ensures err { IfErr result (λ e. (e ≡ error.NoMemory) ⊎ IsRefusedBy specs.message_table (pairs_view (paired dict.now)) e) }
{
    let from_client = truth_at(dict, Key::FromClient)?;
    let text = truth_at(dict, Key::Text)?;
    let moment = moment_at(dict, Key::Timestamp);
    let dropped = truth_at(dict, Key::Dropped);
    let payload = bytes_at(dict, Key::Content)?;
    match (moment, dropped) {
        (Ok(moment), Ok(dropped)) => Ok(WsRecord {
            from_client,
            text,
            payload,
            moment,
            dropped,
        }),
        (Ok(_), Err(e)) => Err(e),
        (Err(e), _) => Err(e),
    }
}
