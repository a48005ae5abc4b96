//! Where the reading of an expression stands.
ghost use Rattle.std.specs.Prelude.{◌≡◌, ◌<◌, ◌∷◌, length, IfOk, OnOk, MatchBool};
ghost use Rattle.px_filter.specs.Reading as specs;
ghost use Rattle.px_filter.specs.Expression as specs_of;
ghost use Rattle.px_filter.specs.View.{view, views};
ghost use Rattle.px_filter.specs.Stands.{frames_view, level_view, state_view, IsNoNegation};

use crate::operator::Argued;
use crate::tree::Tree;
use px_text::NoMemory;
use std::alloc::Global;
use std::mem;

/// What has to come next.
#[derive(Debug, Clone, Copy, PartialEq, Eq)]
pub enum Awaits {
    /// An operand.
    Operand,
    /// The argument of an operator.
    Argument(Argued),
    /// An operand has just ended: a sign that joins it, the end of a parenthesis, the next operand or the end.
    Joint,
}

/// The expression so far, between two parentheses or at the top: the choices that are whole, the parts of the choice that
/// is read, and the parts of its last part.
#[derive(Debug, Drop)]
pub struct Level {
    pub choices: Vec<Tree>,
    pub boths: Vec<Tree>,
    pub unaries: Vec<Tree>,
}

/// What is open: a negation, or a parenthesis with the level that it interrupts.
#[derive(Debug, Drop)]
pub enum Frame {
    Not,
    Paren(Level),
}

/// Where the reading stands. The innermost frame is the last.
#[derive(Debug, Drop)]
pub struct State {
    pub alloc: Global,
    pub frames: Vec<Frame>,
    pub level: Level,
    pub awaits: Awaits,
}

impl State {
    /// Before the first token.
    pub fn start(alloc: Global) -> State
        ensures { state_view result ≡ specs.start }
    {
        State {
            alloc,
            frames: Vec::new(alloc),
            level: Level::empty(alloc),
            awaits: Awaits::Operand,
        }
    }

    /// An operand ends, and with it the negations around it.
    pub fn end(&mut self, tree: Tree) -> Result<(), NoMemory>
        ensures { OnOk result (state_view self.new ≡ specs.ended (state_view self.old) (view tree)) }
    {
        let tree = negate(self.alloc, &mut self.frames, tree)?;
        self.level.add(tree)?;
        self.awaits = Awaits::Joint;
        Ok(())
    }
}

// Takes the negations off the end, and negates the tree by each.
fn negate(alloc: Global, frames: &mut Vec<Frame>, tree: Tree) -> Result<Tree, NoMemory>
    ensures tree { IfOk result (λ t. view t ≡ specs.negate (frames_view frames.old.items) (view tree)) }
    ensures frames { IfOk result (λ _. frames_view frames.new.items ≡ specs.behind_negations (frames_view frames.old.items)) }
{
    let mut tree = tree;
    while take_negation(frames) {
        tree = Tree::Not(Box::new(alloc, tree)?);
    }
    Ok(tree)
}

// Takes a negation off the end, if there is one.
fn take_negation(frames: &mut Vec<Frame>) -> bool
    ensures taken { MatchBool result (frames_view frames.old.items ≡ specs.bang ∷ frames_view frames.new.items)
        (frames.new.items ≡ frames.old.items) }
    ensures none { MatchBool result (length frames.new.items < length frames.old.items) (IsNoNegation (frames_view frames.old.items)) }
{
    match frames.last() {
        Some(Frame::Not) => {
            drop(frames.pop());
            true
        }
        _ => false,
    }
}

impl Level {
    /// Nothing yet.
    pub fn empty(alloc: Global) -> Level
        ensures { level_view result ≡ specs.empty_level }
    {
        Level {
            choices: Vec::new(alloc),
            boths: Vec::new(alloc),
            unaries: Vec::new(alloc),
        }
    }

    /// One more operand.
    pub fn add(&mut self, tree: Tree) -> Result<(), NoMemory>
        ensures { OnOk result (level_view self.new ≡ specs.with_unary (level_view self.old) (view tree)) }
    {
        self.unaries.push(tree)?;
        Ok(())
    }

    /// Behind a `|`.
    pub fn end_both(&mut self, alloc: Global) -> Result<(), NoMemory>
        ensures { OnOk result (level_view self.new ≡ specs.both_whole (level_view self.old)) }
    {
        let unaries = mem::replace(&mut self.unaries, Vec::new(alloc));
        self.boths.push(all_of(unaries))?;
        Ok(())
    }

    /// Before an operand that no sign joins.
    pub fn end_choice(&mut self, alloc: Global) -> Result<(), NoMemory>
        ensures { OnOk result (level_view self.new ≡ specs.choice_whole (level_view self.old)) }
    {
        self.end_both(alloc)?;
        let boths = mem::replace(&mut self.boths, Vec::new(alloc));
        self.choices.push(any_of(boths))?;
        Ok(())
    }

    /// The expression, where it ends here.
    pub fn value(self, alloc: Global) -> Result<Tree, NoMemory>
        ensures { IfOk result (λ tree. view tree ≡ specs.value (level_view self)) }
    {
        let mut level = self;
        level.end_choice(alloc)?;
        Ok(all_of(level.choices))
    }
}

fn all_of(trees: Vec<Tree>) -> Tree
    ensures { view result ≡ specs_of.all_of (views trees.items) }
{
    let mut trees = trees;
    if trees.len() == 1 {
        if let Some(tree) = trees.pop() {
            return tree;
        }
    }
    Tree::All(trees)
}

fn any_of(trees: Vec<Tree>) -> Tree
    ensures { view result ≡ specs_of.any_of (views trees.items) }
{
    let mut trees = trees;
    if trees.len() == 1 {
        if let Some(tree) = trees.pop() {
            return tree;
        }
    }
    Tree::Any(trees)
}
