//! Writing. A length stands in front of its payload, so a text is written from its end, and turned round when it is
//! whole: each byte is moved a fixed number of times, however deep the tree.
ghost use Rattle.std.specs.Prelude.{◌≡◌, ◌<◌, ◌≤◌, ◌⊎◌, ◌++◌, ◌∷◌, Bool, List, ℕ, length, take, drop, decimal, reverse, OnOk, OnErr, IfErr};
ghost use Rattle.px_text.specs.Prefix.{IsPrefixOf};
ghost use Rattle.px_tnet.specs.Frame.{colon, too_many};
ghost use Rattle.px_tnet.specs.Tree.{key_tree};
ghost use Rattle.px_tnet.specs.View.{key_view, listed, paired, pairs_view, trees_view, view};
ghost use Rattle.px_tnet.specs.Written.{IsTooLong, kind_of, payload, written, written_key, written_pairs, written_trees};
ghost use Rattle.px_tnet.specs.declared.error.WriteError.TheVariants as error;

use crate::kind::{Kind, tag};
use crate::{Tnet, TnetDict, TnetKey, TnetList, WriteError};
use itoa::Buffer;

const TOO_MANY: usize = 1_000_000_000;

/// Appends the text of the tree. After an error nothing is appended.
pub fn write(tree: &Tnet, out: &mut Vec<u8>) -> Result<(), WriteError>
    ensures ok { OnOk result (out.new.items ≡ out.old.items ++ written (view tree.now)) }
    ensures fits { OnOk result (¬ (IsTooLong (view tree.now))) }
    ensures err { IfErr result (λ e. (e ≡ error.NoMemory) ⊎ ((e ≡ error.TooLong) × IsTooLong (view tree.now))) }
    ensures same { OnErr result (out.new.items ≡ out.old.items) }
{
    let start = out.len();
    match push_tree(tree, out) {
        Ok(()) => {
            turn(out, start);
            Ok(())
        }
        Err(cause) => {
            out.truncate(start);
            Err(cause)
        }
    }
}

// What is pushed is turned round.
#[cycle(push)]
fn push_tree(tree: &Tnet, out: &mut Vec<u8>) -> Result<(), WriteError>
    ensures ok { OnOk result (out.new.items ≡ out.old.items ++ reverse (written (view tree.now))) }
    ensures fits { OnOk result (¬ (IsTooLong (view tree.now))) }
    ensures err { IfErr result (λ e. (e ≡ error.NoMemory) ⊎ ((e ≡ error.TooLong) × IsTooLong (view tree.now))) }
    ensures kept { IsPrefixOf out.old.items out.new.items }
{
    out.push(tag(kind(tree)))?;
    let start = out.len();
    push_payload(tree, out)?;
    push_length(out.len() - start, out)
}

#[cycle(push)]
fn push_payload(tree: &Tnet, out: &mut Vec<u8>) -> Result<(), WriteError>
    ensures ok { OnOk result (out.new.items ≡ out.old.items ++ reverse (payload (view tree.now))) }
    ensures err { IfErr result (λ e. (e ≡ error.NoMemory) ⊎ ((e ≡ error.TooLong) × IsTooLong (view tree.now))) }
    ensures kept { IsPrefixOf out.old.items out.new.items }
{
    match tree {
        Tnet::Blob(bytes) => push_bytes(bytes.as_slice(), out),
        Tnet::Text(bytes) => push_bytes(bytes.as_slice(), out),
        Tnet::Float(bytes) => push_bytes(bytes.as_slice(), out),
        Tnet::Int(n) => {
            let mut buffer = Buffer::new();
            push_turned(buffer.format(*n).as_bytes(), out)
        }
        Tnet::Bool(true) => push_turned(b"true", out),
        Tnet::Bool(false) => push_turned(b"false", out),
        Tnet::Null => Ok(()),
        Tnet::List(list) => push_list(list, out),
        Tnet::Dict(dict) => push_dict(dict, out),
    }
}

#[cycle(push)]
fn push_list(list: &TnetList, out: &mut Vec<u8>) -> Result<(), WriteError>
    ensures ok { OnOk result (out.new.items ≡ out.old.items ++ reverse (written_trees (trees_view (listed list.now)))) }
    ensures err { IfErr result (λ e. (e ≡ error.NoMemory)
        ⊎ ((e ≡ error.TooLong) × (too_many ≤ length (written_trees (trees_view (listed list.now)))))) }
    ensures kept { IsPrefixOf out.old.items out.new.items }
{
    for tree in list.as_slice().iter().rev() {
        push_tree(tree, out)?;
    }
    Ok(())
}

#[cycle(push)]
fn push_dict(dict: &TnetDict, out: &mut Vec<u8>) -> Result<(), WriteError>
    ensures ok { OnOk result (out.new.items ≡ out.old.items ++ reverse (written_pairs (pairs_view (paired dict.now)))) }
    ensures err { IfErr result (λ e. (e ≡ error.NoMemory)
        ⊎ ((e ≡ error.TooLong) × (too_many ≤ length (written_pairs (pairs_view (paired dict.now)))))) }
    ensures kept { IsPrefixOf out.old.items out.new.items }
{
    for (key, value) in dict.as_slice().iter().rev() {
        push_tree(value, out)?;
        push_key(key, out)?;
    }
    Ok(())
}

fn push_key(key: &TnetKey, out: &mut Vec<u8>) -> Result<(), WriteError>
    ensures ok { OnOk result (out.new.items ≡ out.old.items ++ reverse (written_key (key_view key.now))) }
    ensures err { IfErr result (λ e. (e ≡ error.NoMemory)
        ⊎ ((e ≡ error.TooLong) × (too_many ≤ length key.now.bytes))) }
    ensures kept { IsPrefixOf out.old.items out.new.items }
{
    out.push(tag(kind_of_key(key.text)))?;
    push_bytes(key.bytes.as_slice(), out)?;
    push_length(key.bytes.len(), out)
}

// A length, and the colon behind it.
fn push_length(count: usize, out: &mut Vec<u8>) -> Result<(), WriteError>
    ensures ok { OnOk result (out.new.items ≡ out.old.items ++ (colon ∷ reverse (decimal count))) }
    ensures fits { OnOk result (count < too_many) }
    ensures err { IfErr result (λ e. (e ≡ error.NoMemory) ⊎ ((e ≡ error.TooLong) × (too_many ≤ count))) }
    ensures kept { IsPrefixOf out.old.items out.new.items }
{
    if TOO_MANY <= count {
        return Err(WriteError::TooLong);
    }
    out.push(b':')?;
    let mut buffer = Buffer::new();
    push_turned(buffer.format(count).as_bytes(), out)
}

// A payload that is too long is not copied.
fn push_bytes(bytes: &[u8], out: &mut Vec<u8>) -> Result<(), WriteError>
    ensures ok { OnOk result (out.new.items ≡ out.old.items ++ reverse bytes.now) }
    ensures err { IfErr result (λ e. (e ≡ error.NoMemory) ⊎ ((e ≡ error.TooLong) × (too_many ≤ length bytes.now))) }
    ensures kept { IsPrefixOf out.old.items out.new.items }
{
    if TOO_MANY <= bytes.len() {
        return Err(WriteError::TooLong);
    }
    push_turned(bytes, out)
}

fn push_turned(bytes: &[u8], out: &mut Vec<u8>) -> Result<(), WriteError>
    ensures ok { OnOk result (out.new.items ≡ out.old.items ++ reverse bytes.now) }
    ensures err { IfErr result (λ e. e ≡ error.NoMemory) }
    ensures kept { IsPrefixOf out.old.items out.new.items }
{
    let start = out.len();
    out.extend_from_slice(bytes)?;
    turn(out, start);
    Ok(())
}

// Turns round what stands from `start` on.
fn turn(out: &mut Vec<u8>, start: usize)
    requires { start ≤ length out.old.items }
    ensures { out.new.items ≡ take start out.old.items ++ reverse (drop start out.old.items) }
{
    out[start..].reverse();
}

fn kind(tree: &Tnet) -> Kind
    ensures { result ≡ kind_of (view tree.now) }
{
    match tree {
        Tnet::Blob(_) => Kind::Blob,
        Tnet::Text(_) => Kind::Text,
        Tnet::Int(_) => Kind::Int,
        Tnet::Float(_) => Kind::Float,
        Tnet::Bool(_) => Kind::Bool,
        Tnet::Null => Kind::Null,
        Tnet::List(_) => Kind::List,
        Tnet::Dict(_) => Kind::Dict,
    }
}

fn kind_of_key(text: bool) -> Kind
    ensures { (bytes : List ℕ) → result ≡ kind_of (key_tree (record { text = text; bytes = bytes })) }
{
    if text { Kind::Text } else { Kind::Blob }
}
