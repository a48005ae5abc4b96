//! The messages of a WebSocket, in the order in which they were whole.
ghost use Rattle.std.specs.Prelude.{◌≡◌, ◌<◌, ◌+◌, ◌-◌, ◌^◌, ◌==◌, ◌&&◌, [], ◌∷◌, ◌++◌, length, slice_get, IfOk, OnOk, OnErr};
ghost use Rattle.std.specs.Cmp.Lexicographic.{pointwise};
ghost use Rattle.std.proofs.Common.{rules};
ghost use Rattle.std.specs.Cmp.Rules.{comparing};
ghost use Rattle.px_message.specs.Messages.{messages_of, messages_of_row, last_count_of, message_eq, is_even, IsEven, HasRightCounts};

use px_text::{Bytes, NoMemory};
use std::alloc::{AllocError, Global};
use std::marker::Model;
use std::rc::Rc;

/// A whole message of a WebSocket as it is kept (RFC 6455 section 5.6), and when it was whole, in microseconds since 1970.
#[derive(Debug, Drop, PartialEq, Eq)]
pub struct WsRecord {
    pub from_client: bool,
    pub text: bool,
    pub payload: Bytes,
    pub moment: u64,
    /// Whether it was kept from its receiver.
    pub dropped: bool,
}

impl Clone for WsRecord {
    ghost is_clone = { λ x y. y ≡ x };

    fn clone(&self) -> Result<WsRecord, AllocError> {
        Ok(WsRecord {
            from_client: self.from_client,
            text: self.text,
            payload: self.payload.clone()?,
            moment: self.moment,
            dropped: self.dropped,
        })
    }
}

impl WsRecord {
    /// A copy of the same message.
    pub fn try_clone(&self) -> Result<WsRecord, NoMemory>
        ensures { IfOk result (λ copy. copy ≡ self.now) }
    {
        Ok(self.clone()?)
    }
}

// One message, or some older ones, as many newer ones, and the newest.
#[derive(Debug, Drop)]
enum Tree {
    One(WsRecord),
    More(Rc<Tree>, Rc<Tree>, WsRecord),
}

impl Tree {
    // The message at that index, where there are so many.
    fn get(&self, len: usize, i: usize) -> &WsRecord
        requires even { IsEven self.now }
        requires counted { len ≡ length (messages_of self.now) }
        requires in_range { i < len }
        ensures { slice_get (messages_of self.now) i ≡ Some result.now }
    {
        match self {
            Tree::One(message) => message,
            Tree::More(older, newer, newest) => {
                let half = len / 2;
                if i < half {
                    older.get(half, i)
                } else if i < half + half {
                    newer.get(half, i - half)
                } else {
                    newest
                }
            }
        }
    }
}

// A tree with its number of messages, behind those of other trees. Of two that have as many one more message makes a tree, so there are no more trees than
// the number of all has binary digits, and one over.
#[derive(Debug, Drop)]
enum Row {
    First(usize, Rc<Tree>),
    Behind(Rc<Row>, usize, Rc<Tree>),
}

impl Row {
    // The message at that index, where there are so many.
    fn get(&self, len: usize, i: usize) -> &WsRecord
        requires counts { HasRightCounts self.now }
        requires counted { len ≡ length (messages_of_row self.now) }
        requires in_range { i < len }
        ensures { slice_get (messages_of_row self.now) i ≡ Some result.now }
    {
        match self {
            Row::First(count, tree) => tree.get(*count, i),
            Row::Behind(row, count, tree) => {
                let front = len - *count;
                if i < front {
                    row.get(front, i)
                } else {
                    tree.get(*count, i - front)
                }
            }
        }
    }
}

// The messages of the row, which are so many, and behind them that one: two trees in front of it that have as many become one with it.
fn push_behind(alloc: Global, row: &Rc<Row>, len: usize, message: WsRecord) -> Result<Row, NoMemory>
    requires counts { HasRightCounts row.now.value }
    requires counted { len ≡ length (messages_of_row row.now.value) }
    requires few { len < 2 ^ 64 - 1 }
    ensures pushed { IfOk result (λ made. messages_of_row made ≡ messages_of_row row.now.value ++ (message ∷ [])) }
    ensures counts { IfOk result HasRightCounts }
{
    match &**row {
        Row::First(_, _) => push_alone(alloc, row, message),
        Row::Behind(front, count, tree) => {
            if last_count(front) == *count {
                push_joined(alloc, front, *count, tree, message)
            } else {
                push_alone(alloc, row, message)
            }
        }
    }
}

// How many messages the last tree has.
fn last_count(row: &Row) -> usize
    ensures { result ≡ last_count_of row.now }
{
    match row {
        Row::First(count, _) => *count,
        Row::Behind(_, count, _) => *count,
    }
}

fn push_alone(alloc: Global, row: &Rc<Row>, message: WsRecord) -> Result<Row, NoMemory>
    requires counts { HasRightCounts row.now.value }
    ensures pushed { IfOk result (λ made. messages_of_row made ≡ messages_of_row row.now.value ++ (message ∷ [])) }
    ensures counts { IfOk result HasRightCounts }
{
    let tree = Rc::new(alloc, Tree::One(message))?;
    Ok(Row::Behind(row.clone()?, 1, tree))
}

// The last tree of the row, this one, which has as many, and the message as one.
fn push_joined(
    alloc: Global,
    row: &Rc<Row>,
    count: usize,
    newer: &Rc<Tree>,
    message: WsRecord,
) -> Result<Row, NoMemory>
    requires counts { HasRightCounts row.now.value }
    requires even { IsEven newer.now.value }
    requires counted { count ≡ length (messages_of newer.now.value) }
    requires as_many { last_count_of row.now.value ≡ count }
    requires few { length (messages_of_row row.now.value) + count < 2 ^ 64 - 1 }
    ensures pushed { IfOk result (λ made. messages_of_row made ≡ messages_of_row row.now.value ++ (messages_of newer.now.value ++ (message ∷ []))) }
    ensures counts { IfOk result HasRightCounts }
{
    match &**row {
        Row::First(_, older) => {
            let tree = joined(alloc, older, newer, message)?;
            Ok(Row::First(count + count + 1, tree))
        }
        Row::Behind(others, _, older) => {
            let tree = joined(alloc, older, newer, message)?;
            Ok(Row::Behind(others.clone()?, count + count + 1, tree))
        }
    }
}

fn joined(
    alloc: Global,
    older: &Rc<Tree>,
    newer: &Rc<Tree>,
    newest: WsRecord,
) -> Result<Rc<Tree>, NoMemory>
    ensures joined { IfOk result (λ made. messages_of made.value ≡ messages_of older.now.value ++ (messages_of newer.now.value ++ (newest ∷ []))) }
    ensures even { IfOk result (λ made. is_even made.value ≡ (length (messages_of older.now.value) == length (messages_of newer.now.value) && is_even older.now.value && is_even newer.now.value)) }
{
    Ok(Rc::new(alloc, Tree::More(older.clone()?, newer.clone()?, newest))?)
}

/// The messages of a WebSocket, in their order. In a contract they are a list.
///
/// Copies of it share what they have: a copy takes no memory, and one message more takes memory for itself and for some few words beside, however many
/// there are. What they have is never changed, so a message that is pushed to one copy is in no other. To find one takes as many steps as their count
/// has binary digits, twice at most.
#[derive(Debug, Drop)]
pub struct Messages {
    alloc: Global,
    len: usize,
    // None where there are no messages.
    row: Option<Rc<Row>>,
}

impl Model for Messages {
    ghost use Rattle.std.specs.Prelude.{◌≡◌, List, length};
    ghost use Rattle.px_message.specs.Messages.{messages_in, HasRightCountsIn};
    ghost use Rattle.px_message.specs.declared.messages.WsRecord.{WsRecord};

    ghost Value = { List WsRecord };

    ghost view = { λ m. messages_in (λ shared. shared.value) m.row };

    ghost invariant = { λ m. HasRightCountsIn (λ shared. shared.value) m.row × (m.len ≡ length (messages_in (λ shared. shared.value) m.row)) };
}

impl Clone for Messages {
    ghost is_clone = { λ x y. y ≡ x };

    fn clone(&self) -> Result<Messages, AllocError> {
        Ok(Messages {
            alloc: self.alloc,
            len: self.len,
            row: self.row.clone()?,
        })
    }
}

impl Messages {
    /// No messages. The allocator is kept for those that are pushed.
    pub fn new(alloc: Global) -> Messages
        ensures { result ≡ [] }
    {
        Messages {
            alloc,
            len: 0,
            row: None,
        }
    }

    /// How many messages there are.
    pub fn len(&self) -> usize
        ensures { result ≡ length self.now }
    {
        self.len
    }

    /// Whether there are none.
    pub fn is_empty(&self) -> bool
        ensures { result ≡ (length self.now == 0) }
    {
        self.len == 0
    }

    /// The message at that index, counted from 0.
    pub fn get(&self, i: usize) -> &WsRecord
        requires { i < length self.now }
        ensures { slice_get self.now i ≡ Some result.now }
    {
        match &self.row {
            Some(row) => row.get(self.len, i),
            None => unreachable!(),
        }
    }

    /// Puts a message at the end. After `NoMemory` they are as before.
    pub fn push(&mut self, message: WsRecord) -> Result<(), NoMemory>
        ensures pushed { OnOk result (self.new ≡ self.old ++ (message ∷ [])) }
        ensures unchanged { OnErr result (self.new ≡ self.old) }
    {
        if self.len == usize::MAX {
            return Err(NoMemory);
        }
        let row = match &self.row {
            Some(row) => push_behind(self.alloc, row, self.len, message)?,
            None => Row::First(1, Rc::new(self.alloc, Tree::One(message))?),
        };
        self.row = Some(Rc::new(self.alloc, row)?);
        self.len += 1;
        Ok(())
    }

    /// A copy with the same messages.
    pub fn try_clone(&self) -> Result<Messages, NoMemory>
        ensures { IfOk result (λ copy. copy ≡ self.now) }
    {
        Ok(self.clone()?)
    }
}

impl PartialEq for Messages {
    ghost eq = { pointwise message_eq };

    ghost laws = { Prim.search (comparing, rules) depth 10 };

    fn eq(&self, other: &Messages) -> bool {
        let n = self.len();
        if n != other.len() {
            return false;
        }
        let mut i = 0;
        while i < n {
            if self.get(i) != other.get(i) {
                return false;
            }
            i += 1;
        }
        true
    }
}

impl Eq for Messages {
    ghost laws = { Prim.search (comparing, rules) depth 10 };
}
