//! Trees of flows that are changed. A tree stands as its text: a dictionary is a row of pairs, each a key's text and an item's.
use px_rows::{RowError, unescape};
use px_text::push_decimal;
use std::alloc::Global;

/// The text of a tree with a change: `as it is`, `backwards` (the pairs of each dictionary), `without request.path`,
/// `request.port = 1:0#` or `x also 3:1.5^`, which puts a pair more behind the others, as `request.x also 3:1.5^` does within.
pub(crate) fn change_tree(alloc: Global, tree: &[u8], change: &str) -> Result<Vec<u8>, RowError> {
    match change {
        "as it is" => Ok(Vec::from_slice(alloc, tree)?),
        "backwards" => backwards(alloc, tree),
        _ => change_pairs(alloc, tree, change),
    }
}

fn change_pairs(alloc: Global, tree: &[u8], change: &str) -> Result<Vec<u8>, RowError> {
    if let Some(path) = change.strip_prefix("without ") {
        return change_at(alloc, tree, path, Change::Remove);
    }
    if let Some((path, text)) = change.split_once(" = ") {
        let new = unescape(alloc, text)?;
        return change_at(alloc, tree, path, Change::Set(new.as_slice()));
    }
    let Some((path, text)) = change.split_once(" also ") else {
        return Err(RowError::Bad);
    };
    let new = unescape(alloc, text)?;
    change_at(alloc, tree, path, Change::Add(new.as_slice()))
}

// What is done with the pair of a key, or of a new one behind the others.
#[derive(Clone, Copy)]
enum Change<'a> {
    Remove,
    Set(&'a [u8]),
    Add(&'a [u8]),
}

// The tree with a change at a path of one or two keys.
fn change_at(
    alloc: Global,
    tree: &[u8],
    path: &str,
    change: Change<'_>,
) -> Result<Vec<u8>, RowError> {
    let Some((outer, inner)) = path.split_once('.') else {
        return change_pair(alloc, tree, path, change);
    };
    let changed = change_pair(alloc, item_under(alloc, tree, outer)?, inner, change)?;
    change_pair(alloc, tree, outer, Change::Set(changed.as_slice()))
}

fn change_pair(
    alloc: Global,
    tree: &[u8],
    name: &str,
    change: Change<'_>,
) -> Result<Vec<u8>, RowError> {
    match change {
        Change::Add(_) => {}
        _ => {
            item_under(alloc, tree, name)?;
        }
    }
    let mut out = Vec::new(alloc);
    for (key, item) in &pairs_in(alloc, tree)? {
        let named = payload_in(*key)? == name.as_bytes();
        match (named, change) {
            (true, Change::Remove) => {}
            (true, Change::Set(new)) => push_pair(&mut out, *key, new)?,
            _ => push_pair(&mut out, *key, *item)?,
        }
    }
    if let Change::Add(new) = change {
        push_pair(
            &mut out,
            framed(alloc, name.as_bytes(), b';')?.as_slice(),
            new,
        )?;
    }
    framed(alloc, out.as_slice(), b'}')
}

fn push_pair(out: &mut Vec<u8>, key: &[u8], item: &[u8]) -> Result<(), RowError> {
    out.extend_from_slice(key)?;
    out.extend_from_slice(item)?;
    Ok(())
}

// What stands at this key, which is there.
fn item_under<'a>(alloc: Global, tree: &'a [u8], name: &str) -> Result<&'a [u8], RowError> {
    for (key, item) in &pairs_in(alloc, tree)? {
        if payload_in(*key)? == name.as_bytes() {
            return Ok(*item);
        }
    }
    Err(RowError::Bad)
}

// The pairs of a dictionary, a hundred at most.
fn pairs_in<'a>(alloc: Global, tree: &'a [u8]) -> Result<Vec<(&'a [u8], &'a [u8])>, RowError> {
    let mut rest = payload_in(tree)?;
    let mut pairs = Vec::new(alloc);
    for _ in 0..100 {
        if rest.is_empty() {
            return Ok(pairs);
        }
        let (key, behind) = cut(rest)?;
        let (item, behind) = cut(behind)?;
        pairs.push((key, item))?;
        rest = behind;
    }
    Err(RowError::Bad)
}

// The item at the front, and what stands behind it.
fn cut(text: &[u8]) -> Result<(&[u8], &[u8]), RowError> {
    let (_, end) = payload_at(text)?;
    match text.split_at_checked(end.saturating_add(1)) {
        Some(halves) => Ok(halves),
        None => Err(RowError::Bad),
    }
}

// What stands within an item.
fn payload_in(text: &[u8]) -> Result<&[u8], RowError> {
    let (start, end) = payload_at(text)?;
    match text.get(start..end) {
        Some(payload) => Ok(payload),
        None => Err(RowError::Bad),
    }
}

// Where the payload of the item at the front stands: behind a colon, and as long as the digits before it say.
fn payload_at(text: &[u8]) -> Result<(usize, usize), RowError> {
    let mut halves = text.splitn(2, |byte| *byte == b':');
    let Some(digits) = halves.next() else {
        return Err(RowError::Bad);
    };
    let start = digits.len().saturating_add(1);
    let Ok(digits) = str::from_utf8(digits) else {
        return Err(RowError::Bad);
    };
    match digits.parse::<usize>() {
        Ok(len) => Ok((start, start.saturating_add(len))),
        Err(_) => Err(RowError::Bad),
    }
}

// An item of this payload and this tag.
fn framed(alloc: Global, payload: &[u8], tag: u8) -> Result<Vec<u8>, RowError> {
    let mut out = Vec::new(alloc);
    push_decimal(&mut out, payload.len() as u64)?;
    out.push(b':')?;
    out.extend_from_slice(payload)?;
    out.push(tag)?;
    Ok(out)
}

fn backwards(alloc: Global, tree: &[u8]) -> Result<Vec<u8>, RowError> {
    let mut out = Vec::new(alloc);
    let pairs = pairs_in(alloc, tree)?;
    for (key, item) in pairs.iter().rev() {
        if item.ends_with(b"}") {
            push_pair(&mut out, *key, turned(alloc, *item)?.as_slice())?;
        } else {
            push_pair(&mut out, *key, *item)?;
        }
    }
    framed(alloc, out.as_slice(), b'}')
}

// A dictionary within, its pairs turned.
fn turned(alloc: Global, tree: &[u8]) -> Result<Vec<u8>, RowError> {
    let mut out = Vec::new(alloc);
    let pairs = pairs_in(alloc, tree)?;
    for (key, item) in pairs.iter().rev() {
        push_pair(&mut out, *key, *item)?;
    }
    framed(alloc, out.as_slice(), b'}')
}
