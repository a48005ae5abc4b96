//! Operators: whose connections are open, where their lines stand, and what is heard of them.
ghost use Rattle.std.specs.Prelude.{◌≡◌, ◌≢◌, ℕ, true, false, None, Some, IfOk, OnOk};
ghost use Rattle.px_view.specs.Desk.{fresh, stands, stand_of, told};
ghost use Rattle.px_app.specs.Operating.{is_open, stand_in};

use px_event::Heard;
use px_text::{Bytes, NoMemory};
use px_view::{Desk, Line};
use std::alloc::Global;
use std::collections::HashSet;

/// What something heard is: of no operator, bytes of an operator's lines, or that an operator leaves.
#[derive(Debug, Drop)]
pub(crate) enum Spoken {
    Nothing(Heard),
    Says(u32, Bytes),
    Leaves(u32),
}

/// The connections of operators that are open, and where their lines stand.
#[derive(Debug, Drop)]
pub(crate) struct Operators {
    pub(crate) open: HashSet<u32>,
    pub(crate) desk: Desk,
}

impl Operators {
    /// No connection is open.
    pub(crate) fn new(alloc: Global) -> Operators
        ensures none { (conv : ℕ) → stand_in result conv ≡ None }
        ensures none_open { (conv : ℕ) → is_open result conv ≢ true }
    {
        Operators {
            open: HashSet::new(alloc),
            desk: Desk::new(alloc),
        }
    }

    /// Whether the connection of this number is open.
    pub(crate) fn is_open(&self, conv: u32) -> bool
        ensures { result ≡ is_open self.now conv }
    {
        self.open.contains(&conv)
    }

    /// Opens the connection of this number; nothing was said over it.
    pub(crate) fn open(&mut self, conv: u32) -> Result<(), NoMemory>
        ensures opens { OnOk result (is_open self.new conv ≡ true) }
        ensures fresh { OnOk result (stand_of self.new.desk conv ≡ fresh) }
        ensures others { (other : ℕ) → other ≢ conv → OnOk result (is_open self.new other ≡ is_open self.old other) }
        ensures other_stands { (other : ℕ) → other ≢ conv → OnOk result (stand_of self.new.desk other ≡ stand_of self.old.desk other) }
    {
        self.desk.forget(conv);
        self.open.insert(conv)?;
        Ok(())
    }

    /// Opens the connection of this number, where one was accepted.
    pub(crate) fn welcome(&mut self, accepted: Option<u32>) -> Result<(), NoMemory>
        ensures stays { accepted ≡ None → self.new ≡ self.old }
        ensures opens { (conv : ℕ) → accepted ≡ Some conv → OnOk result (is_open self.new conv ≡ true) }
        ensures fresh { (conv : ℕ) → accepted ≡ Some conv → OnOk result (stand_of self.new.desk conv ≡ fresh) }
        ensures others { (conv other : ℕ) → accepted ≡ Some conv → other ≢ conv → OnOk result (is_open self.new other ≡ is_open self.old other) }
        ensures other_stands { (conv other : ℕ) → accepted ≡ Some conv → other ≢ conv → OnOk result (stand_of self.new.desk other ≡ stand_of self.old.desk other) }
    {
        match accepted {
            Some(conv) => self.open(conv),
            None => Ok(()),
        }
    }

    /// Closes the connection of this number, and forgets it.
    pub(crate) fn close(&mut self, conv: u32)
        ensures closes { is_open self.new conv ≢ true }
        ensures others { (other : ℕ) → other ≢ conv → is_open self.new other ≡ is_open self.old other }
        ensures other_stands { (other : ℕ) → other ≢ conv → stand_of self.new.desk other ≡ stand_of self.old.desk other }
    {
        self.desk.forget(conv);
        self.open.remove(&conv);
    }

    /// Closes the connection of this number, where its operator has left.
    pub(crate) fn settle(&mut self, conv: u32, has_left: bool)
        ensures closes { has_left ≡ true → is_open self.new conv ≢ true }
        ensures stays { has_left ≡ false → self.new ≡ self.old }
        ensures others { (other : ℕ) → other ≢ conv → is_open self.new other ≡ is_open self.old other }
        ensures other_stands { (other : ℕ) → other ≢ conv → stand_of self.new.desk other ≡ stand_of self.old.desk other }
    {
        if has_left {
            self.close(conv);
        }
    }

    /// Takes bytes of a connection that is open, and gives the lines that they complete.
    pub(crate) fn take(
        &mut self,
        alloc: Global,
        conv: u32,
        bytes: &[u8],
    ) -> Result<Vec<Line>, NoMemory>
        ensures lines { IfOk result (λ lines. lines.items ≡ told bytes.now (stand_of self.old.desk conv)) }
        ensures stands { OnOk result (stand_of self.new.desk conv ≡ stands bytes.now (stand_of self.old.desk conv)) }
        ensures open { self.new.open ≡ self.old.open }
        ensures other_stands { (other : ℕ) → other ≢ conv → stand_of self.new.desk other ≡ stand_of self.old.desk other }
    {
        let mut lines = Vec::new(alloc);
        self.desk.take(conv, bytes, &mut lines)?;
        Ok(lines)
    }
}
