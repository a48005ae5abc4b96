//! Reading: a text is taken apart from its front, and every payload is a part of it. A stated length takes no memory
//! before its bytes are there, and lists and dictionaries inside one another are counted.
ghost use Rattle.std.specs.Prelude.{◌≡◌, ◌≤◌, ◌⊎◌, List, ℕ, [], drop, length, IfOk, IfErr, IsErrAnd, MatchResult};
ghost use Rattle.px_tnet.specs.Items.{First, FirstRefused, IsItem, IsRefused, Joins, Within, most_deep};
ghost use Rattle.px_tnet.specs.Items as specs;
ghost use Rattle.px_tnet.specs.Kinds.{Holds, Lacks};
ghost use Rattle.px_tnet.specs.Tree.{Tree};
ghost use Rattle.px_tnet.specs.View.{trees_view, view};
ghost use Rattle.px_tnet.specs.declared.error.TnetError.{TnetError};
ghost use Rattle.px_tnet.specs.declared.error.TnetError.TheVariants as error;

use crate::dict::dict_of;
use crate::frame::{Frame, read_frame};
use crate::kind::{Kind, kind_of};
use crate::scalar::{bool_of, int_of, is_text};
use crate::{Tnet, TnetError, TnetList};
use px_text::Bytes;
use std::alloc::Global;

const MOST_DEEP: usize = 64;

/// The tree at the front of the bytes, and how many bytes its text has; or why there is none, which is the first refusal in
/// the order in which each item is judged. The bytes of the tree are parts of those that are read.
pub fn read(alloc: Global, bytes: &Bytes) -> Result<(Tnet, usize), TnetError>
    ensures ok { IfOk result (λ r. (r.1 ≤ length bytes.now) × IsItem most_deep (view r.0) bytes.now (drop r.1 bytes.now)) }
    ensures err { IfErr result (λ e. (e ≡ error.NoMemory) ⊎ IsRefused most_deep bytes.now e) }
    ensures read { (tree : Tree) (rest : List ℕ) → IsItem most_deep tree bytes.now rest
        → MatchResult result (λ r. (view r.0 ≡ tree) × (drop r.1 bytes.now ≡ rest)) (λ e. e ≡ error.NoMemory) }
    ensures refused { (cause : TnetError) → IsRefused most_deep bytes.now cause
        → IsErrAnd result (λ e. (e ≡ error.NoMemory) ⊎ (e ≡ cause)) }
{
    read_front(alloc, bytes)
}

fn read_front(alloc: Global, bytes: &Bytes) -> Result<(Tnet, usize), TnetError>
    ensures ok { IfOk result (λ r. (r.1 ≤ length bytes.now) × IsItem most_deep (view r.0) bytes.now (drop r.1 bytes.now)) }
    ensures err { IfErr result (λ e. (e ≡ error.NoMemory) ⊎ IsRefused most_deep bytes.now e) }
{
    let mut rest = bytes.try_clone()?;
    match read_item(alloc, &mut rest, MOST_DEEP) {
        Ok(tree) => Ok((tree, bytes.len() - rest.len())),
        Err(cause) => Err(cause),
    }
}

// Takes the first item off the text.
#[cycle(read)]
fn read_item(alloc: Global, text: &mut Bytes, depth: usize) -> Result<Tnet, TnetError>
    ensures ok { IfOk result (λ t. IsItem depth (view t) text.old text.new) }
    ensures err { IfErr result (λ e. (e ≡ error.NoMemory) ⊎ IsRefused depth text.old e) }
{
    let Frame { payload, tag } = read_frame(text)?;
    match kind_of(tag) {
        Some(kind) => read_payload(alloc, kind, payload, depth),
        None => Err(TnetError::BadTag),
    }
}

#[cycle(read)]
fn read_payload(alloc: Global, kind: Kind, payload: Bytes, depth: usize) -> Result<Tnet, TnetError>
    ensures ok { IfOk result (λ t. Holds (Within depth) kind payload (view t)) }
    ensures err { IfErr result (λ e. (e ≡ error.NoMemory) ⊎ Lacks (Within depth) (First depth) kind payload e) }
{
    match kind {
        Kind::Blob => Ok(Tnet::Blob(payload)),
        Kind::Float => Ok(Tnet::Float(payload)),
        Kind::Text => {
            if is_text(payload.as_slice()) {
                Ok(Tnet::Text(payload))
            } else {
                Err(TnetError::BadPayload)
            }
        }
        Kind::Int => match int_of(payload.as_slice()) {
            Some(n) => Ok(Tnet::Int(n)),
            None => Err(TnetError::BadPayload),
        },
        Kind::Bool => match bool_of(payload.as_slice()) {
            Some(b) => Ok(Tnet::Bool(b)),
            None => Err(TnetError::BadPayload),
        },
        Kind::Null => {
            if payload.is_empty() {
                Ok(Tnet::Null)
            } else {
                Err(TnetError::BadPayload)
            }
        }
        Kind::List => Ok(Tnet::List(TnetList::new(read_within(alloc, payload, depth)?))),
        Kind::Dict => dict_of(alloc, read_within(alloc, payload, depth)?),
    }
}

#[cycle(read)]
fn read_within(alloc: Global, payload: Bytes, depth: usize) -> Result<Vec<Tnet>, TnetError>
    ensures ok { IfOk result (λ ts. Within depth (trees_view ts.items) payload) }
    ensures err { IfErr result (λ e. (e ≡ error.NoMemory) ⊎ First depth payload e) }
{
    if depth == 0 {
        return Err(TnetError::TooDeep);
    }
    read_items(alloc, payload, depth - 1)
}

#[cycle(read)]
fn read_items(alloc: Global, payload: Bytes, depth: usize) -> Result<Vec<Tnet>, TnetError>
    ensures ok { IfOk result (λ ts. Joins (IsItem depth) (trees_view ts.items) payload []) }
    ensures err { IfErr result (λ e. (e ≡ error.NoMemory)
        ⊎ FirstRefused (IsItem depth) (IsRefused depth) payload e) }
{
    let mut rest = payload;
    let mut items = Vec::new(alloc);
    while !rest.is_empty() {
        match read_item(alloc, &mut rest, depth) {
            Ok(item) => items.push(item)?,
            Err(cause) => return Err(inside(cause)),
        }
    }
    Ok(items)
}

// The end of the payload is no end of the text.
fn inside(cause: TnetError) -> TnetError
    ensures { result ≡ specs.inside cause }
{
    match cause {
        TnetError::Cut => TnetError::BadPayload,
        other => other,
    }
}
