//! An operator's line as an order.
//!
//! Words are what stands between single spaces, so two spaces have an empty word between them. Whatever has no form is
//! refused, and nothing is guessed.
ghost use Rattle.std.specs.Prelude.{◌≡◌, ◌⊎◌, ◌∷◌, [], Some, None, Ok, Err, IfOk, IfErr, position};
ghost use Rattle.std.specs.List.{slice_split};
ghost use Rattle.px_view.specs.declared.command.CommandError.TheVariants as error;
ghost use Rattle.px_draft.specs.Changes.{change_of};
ghost use Rattle.px_view.specs.Commands.{edit_order, flow_id, is_blank, is_dot, lone_order, order_of, order_of_words, pair_order, part_order, place_number, plain_order, small_number, triple_order};

use itoa::Buffer;
use px_core::Operation;
use px_draft::{Edit, ReadError, read_edit};
use px_message::FlowId;
use px_text::{Bytes, NoMemory, read_decimal};
use std::alloc::Global;

/// What a line asks for.
#[derive(Debug, Drop, PartialEq, Eq)]
pub enum Order {
    /// The live flows are listed.
    List,
    /// This flow is shown.
    Show(FlowId),
    /// A part of the entry of this flow is given, from that byte on.
    Entry(FlowId, u64),
    /// Something is done to a flow or an addon.
    Act(Operation),
    /// The run ends.
    Quit,
}

/// Why a line is no order.
#[derive(Clone, Copy, Debug, PartialEq, Eq)]
pub enum CommandError {
    /// Its first word is no command, or the command has another number of words; or behind `edit` and the word for a flow no change is said.
    UnknownCommand,
    /// The word for a flow names none, or the word for a place is no number.
    BadNumber,
    /// Memory ran out; it says nothing of the line.
    NoMemory,
}

impl From<NoMemory> for CommandError {
    ghost from_gives = { λ _ y. y ≡ error.NoMemory };

    fn from(_value: NoMemory) -> CommandError {
        CommandError::NoMemory
    }
}

/// The order of a line, or why it is none. The line has no line end.
pub fn read_command(alloc: Global, line: &[u8]) -> Result<Order, CommandError>
    ensures ok { IfOk result (λ order. order_of line.now ≡ Ok order) }
    ensures refused { IfErr result (λ e. (e ≡ error.NoMemory) ⊎ (order_of line.now ≡ Err e)) }
{
    match blank_in(line) {
        None => read_lone(line),
        Some(blank) => read_behind(alloc, &line[..blank], &line[blank + 1..]),
    }
}

// Where the first space stands.
fn blank_in(text: &[u8]) -> Option<usize>
    ensures { result ≡ position is_blank text.now }
{
    text.iter().position(|b| *b == b' ')
}

fn read_lone(word: &[u8]) -> Result<Order, CommandError>
    ensures { result ≡ lone_order word.now }
{
    if word == b"list".as_slice() {
        Ok(Order::List)
    } else if word == b"quit".as_slice() {
        Ok(Order::Quit)
    } else {
        Err(CommandError::UnknownCommand)
    }
}

// A first word, and what stands behind the space.
fn read_behind(alloc: Global, word: &[u8], rest: &[u8]) -> Result<Order, CommandError>
    ensures ok { IfOk result (λ order. order_of_words (word.now ∷ slice_split is_blank rest.now) ≡ Ok order) }
    ensures refused { IfErr result (λ e. (e ≡ error.NoMemory) ⊎ (order_of_words (word.now ∷ slice_split is_blank rest.now) ≡ Err e)) }
{
    match blank_in(rest) {
        None => read_two(alloc, word, rest),
        Some(blank) => read_more(alloc, word, &rest[..blank], &rest[blank + 1..]),
    }
}

// Two words, behind which nothing stands.
fn read_two(alloc: Global, word: &[u8], name: &[u8]) -> Result<Order, CommandError>
    ensures ok { IfOk result (λ order. order_of_words (word.now ∷ name.now ∷ []) ≡ Ok order) }
    ensures refused { IfErr result (λ e. (e ≡ error.NoMemory) ⊎ (order_of_words (word.now ∷ name.now ∷ []) ≡ Err e)) }
{
    if word == b"edit".as_slice() {
        Err(CommandError::UnknownCommand)
    } else {
        read_pair(alloc, word, name)
    }
}

// A first word, the next, and what stands behind the space behind it.
fn read_more(alloc: Global, word: &[u8], name: &[u8], rest: &[u8]) -> Result<Order, CommandError>
    ensures ok { IfOk result (λ order. order_of_words (word.now ∷ name.now ∷ slice_split is_blank rest.now) ≡ Ok order) }
    ensures refused { IfErr result (λ e. (e ≡ error.NoMemory) ⊎ (order_of_words (word.now ∷ name.now ∷ slice_split is_blank rest.now) ≡ Err e)) }
{
    if word == b"edit".as_slice() {
        read_change(alloc, name, rest)
    } else {
        read_plain(word, name, rest)
    }
}

// The change of a flow's draft that stands behind the flow's name.
fn read_change(alloc: Global, name: &[u8], rest: &[u8]) -> Result<Order, CommandError>
    ensures ok { IfOk result (λ order. edit_order (change_of rest.now) (flow_id name.now) ≡ Ok order) }
    ensures refused { IfErr result (λ e. (e ≡ error.NoMemory) ⊎ (edit_order (change_of rest.now) (flow_id name.now) ≡ Err e)) }
{
    match read_edit(alloc, rest) {
        Ok(edit) => edit_of(read_id(name), edit),
        Err(ReadError::UnknownCommand) => Err(CommandError::UnknownCommand),
        Err(ReadError::NoMemory) => Err(CommandError::NoMemory),
    }
}

// That change of that flow's draft.
fn edit_of(flow: Option<FlowId>, edit: Edit) -> Result<Order, CommandError>
    ensures { result ≡ edit_order (Some edit) flow }
{
    match flow {
        Some(id) => Ok(Order::Act(Operation::Edit(id, edit))),
        None => {
            drop(edit);
            Err(CommandError::BadNumber)
        }
    }
}

// A first word that is not `edit`, the next, and what stands behind the space behind it.
fn read_plain(word: &[u8], name: &[u8], rest: &[u8]) -> Result<Order, CommandError>
    ensures { result ≡ plain_order word.now name.now (slice_split is_blank rest.now) }
{
    match blank_in(rest) {
        None => read_triple(word, name, rest),
        Some(_) => Err(CommandError::UnknownCommand),
    }
}

fn read_triple(word: &[u8], name: &[u8], place: &[u8]) -> Result<Order, CommandError>
    ensures { result ≡ triple_order word.now name.now place.now }
{
    if word == b"entry".as_slice() {
        part_from(read_id(name), place_of(place))
    } else {
        Err(CommandError::UnknownCommand)
    }
}

// The part of the entry of that flow from that place on.
fn part_from(flow: Option<FlowId>, from: Option<u64>) -> Result<Order, CommandError>
    ensures { result ≡ part_order flow from }
{
    match flow {
        None => Err(CommandError::BadNumber),
        Some(id) => part_of_flow(id, from),
    }
}

fn part_of_flow(id: FlowId, from: Option<u64>) -> Result<Order, CommandError>
    ensures { result ≡ part_order (Some id) from }
{
    match from {
        None => Err(CommandError::BadNumber),
        Some(from) => Ok(Order::Entry(id, from)),
    }
}

fn read_pair(alloc: Global, word: &[u8], name: &[u8]) -> Result<Order, CommandError>
    ensures ok { IfOk result (λ order. pair_order word.now name.now ≡ Ok order) }
    ensures refused { IfErr result (λ e. (e ≡ error.NoMemory) ⊎ (pair_order word.now name.now ≡ Err e)) }
{
    if word == b"show".as_slice() {
        Ok(Order::Show(named(name)?))
    } else if word == b"resume".as_slice() {
        Ok(Order::Act(Operation::Resume(named(name)?)))
    } else if word == b"kill".as_slice() {
        Ok(Order::Act(Operation::Kill(named(name)?)))
    } else if word == b"mark".as_slice() {
        Ok(Order::Act(Operation::Mark(named(name)?)))
    } else if word == b"drop".as_slice() {
        Ok(Order::Act(Operation::DropAddon(Bytes::copied(alloc, name)?)))
    } else {
        Err(CommandError::UnknownCommand)
    }
}

// The flow of this name.
fn named(name: &[u8]) -> Result<FlowId, CommandError>
    ensures ok { IfOk result (λ id. flow_id name.now ≡ Some id) }
    ensures refused { IfErr result (λ e. (flow_id name.now ≡ None) × (e ≡ error.BadNumber)) }
{
    read_id(name).ok_or(CommandError::BadNumber)
}

// The flow that the text names.
fn read_id(text: &[u8]) -> Option<FlowId>
    ensures { result ≡ flow_id text.now }
{
    let dot = dot_in(text)?;
    let conv = number_of(&text[..dot])?;
    let index = number_of(&text[dot + 1..])?;
    Some(FlowId { conv, index })
}

// Where the first full stop stands.
fn dot_in(text: &[u8]) -> Option<usize>
    ensures { result ≡ position is_dot text.now }
{
    text.iter().position(|b| *b == b'.')
}

// The number whose digits these are, in its one spelling.
fn number_of(digits: &[u8]) -> Option<u32>
    ensures { result ≡ small_number digits.now }
{
    let n = u32::try_from(read_decimal(digits)?).ok()?;
    let mut buffer = Buffer::new();
    if buffer.format(n).as_bytes() == digits {
        Some(n)
    } else {
        None
    }
}

// The place whose digits these are, in its one spelling.
fn place_of(digits: &[u8]) -> Option<u64>
    ensures { result ≡ place_number digits.now }
{
    let n = read_decimal(digits)?;
    let mut buffer = Buffer::new();
    if buffer.format(n).as_bytes() == digits {
        Some(n)
    } else {
        None
    }
}
