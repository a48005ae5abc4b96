//! What a line changes, by its words.
//!
//! Words are what stands between single spaces, so two spaces have an empty word between them. Whatever has no form is refused, and
//! nothing is guessed.
ghost use Rattle.std.specs.Prelude.{◌≡◌, ◌∷◌, Some, IfOk, IfErr, position};
ghost use Rattle.std.specs.List.{slice_split};
ghost use Rattle.px_draft.specs.declared.edit.ReadError.TheVariants as error;
ghost use Rattle.px_draft.specs.Changes.{IsNoChange, change_of, change_of_words, is_blank, lone_change, pair_change, triple_change};

use px_text::{Bytes, NoMemory};
use std::alloc::Global;

/// What a line changes, with its words as they were said.
#[derive(Debug, Drop, PartialEq, Eq)]
pub enum Edit {
    /// The request gets this method.
    Method(Bytes),
    /// The request goes to this URL.
    Url(Bytes),
    /// The response gets this status code, and its reason.
    Status(Bytes),
    /// The field of this name gets this value, in base64: in place of the first of its name, and no other of it stays.
    Set { name: Bytes, value: Bytes },
    /// A field of this name with this value, in base64, stands behind the others.
    Add { name: Bytes, value: Bytes },
    /// No field of this name stays.
    Remove(Bytes),
    /// The body is empty, or the payload of a WebSocket's message.
    ClearBody,
    /// These bytes, in base64, stand behind what the last line gave: the value of a field, or the body.
    More(Bytes),
}

/// Why a text is no change.
#[derive(Clone, Copy, Debug, PartialEq, Eq)]
pub enum ReadError {
    /// Its first word names no change, or the change has another number of words.
    UnknownCommand,
    /// Memory ran out; it says nothing of the text.
    NoMemory,
}

impl From<NoMemory> for ReadError {
    ghost from_gives = { λ _ y. y ≡ error.NoMemory };

    fn from(_value: NoMemory) -> ReadError {
        ReadError::NoMemory
    }
}

/// The change that a text says: what stands in a line `edit ID ..` behind the space behind ID, without the line's end. `UnknownCommand`
/// exactly where it says none. What its words are worth is judged where the change is made.
pub fn read_edit(alloc: Global, text: &[u8]) -> Result<Edit, ReadError>
    ensures ok { IfOk result (λ change. change_of text.now ≡ Some change) }
    ensures refused { IfErr result (IsNoChange (change_of text.now)) }
{
    match blank_in(text) {
        None => read_lone(text),
        Some(blank) => read_behind(alloc, &text[..blank], &text[blank + 1..]),
    }
}

// Where the first space stands.
fn blank_in(text: &[u8]) -> Option<usize>
    ensures { result ≡ position is_blank text.now }
{
    text.iter().position(|b| *b == b' ')
}

fn read_lone(word: &[u8]) -> Result<Edit, ReadError>
    ensures ok { IfOk result (λ change. lone_change word.now ≡ Some change) }
    ensures refused { IfErr result (IsNoChange (lone_change word.now)) }
{
    if word == b"body".as_slice() {
        Ok(Edit::ClearBody)
    } else {
        Err(ReadError::UnknownCommand)
    }
}

// A first word, and what stands behind the space.
fn read_behind(alloc: Global, word: &[u8], rest: &[u8]) -> Result<Edit, ReadError>
    ensures ok { IfOk result (λ change. change_of_words (word.now ∷ slice_split is_blank rest.now) ≡ Some change) }
    ensures refused { IfErr result (IsNoChange (change_of_words (word.now ∷ slice_split is_blank rest.now))) }
{
    match blank_in(rest) {
        None => read_pair(alloc, word, rest),
        Some(blank) => read_last(alloc, word, &rest[..blank], &rest[blank + 1..]),
    }
}

fn read_pair(alloc: Global, word: &[u8], value: &[u8]) -> Result<Edit, ReadError>
    ensures ok { IfOk result (λ change. pair_change word.now value.now ≡ Some change) }
    ensures refused { IfErr result (IsNoChange (pair_change word.now value.now)) }
{
    if word == b"method".as_slice() {
        Ok(Edit::Method(Bytes::copied(alloc, value)?))
    } else if word == b"url".as_slice() {
        Ok(Edit::Url(Bytes::copied(alloc, value)?))
    } else if word == b"status".as_slice() {
        Ok(Edit::Status(Bytes::copied(alloc, value)?))
    } else if word == b"remove".as_slice() {
        Ok(Edit::Remove(Bytes::copied(alloc, value)?))
    } else if word == b"more".as_slice() {
        Ok(Edit::More(Bytes::copied(alloc, value)?))
    } else {
        Err(ReadError::UnknownCommand)
    }
}

// Two words, and what stands behind the second space.
fn read_last(alloc: Global, word: &[u8], name: &[u8], rest: &[u8]) -> Result<Edit, ReadError>
    ensures ok { IfOk result (λ change. change_of_words (word.now ∷ name.now ∷ slice_split is_blank rest.now) ≡ Some change) }
    ensures refused { IfErr result (IsNoChange (change_of_words (word.now ∷ name.now ∷ slice_split is_blank rest.now))) }
{
    match blank_in(rest) {
        None => read_triple(alloc, word, name, rest),
        Some(_) => Err(ReadError::UnknownCommand),
    }
}

fn read_triple(alloc: Global, word: &[u8], name: &[u8], value: &[u8]) -> Result<Edit, ReadError>
    ensures ok { IfOk result (λ change. triple_change word.now name.now value.now ≡ Some change) }
    ensures refused { IfErr result (IsNoChange (triple_change word.now name.now value.now)) }
{
    if word == b"set".as_slice() {
        let name = Bytes::copied(alloc, name)?;
        let value = Bytes::copied(alloc, value)?;
        Ok(Edit::Set { name, value })
    } else if word == b"add".as_slice() {
        let name = Bytes::copied(alloc, name)?;
        let value = Bytes::copied(alloc, value)?;
        Ok(Edit::Add { name, value })
    } else {
        Err(ReadError::UnknownCommand)
    }
}
