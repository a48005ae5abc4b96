//! Expressions as trees. A tree is at most 64 negations and parentheses deep where it was read; what stands side by side
//! is in a list, so a long text makes no deep tree.
use crate::operator::{Fact, Part};
use crate::pattern::Pattern;

/// What one operator asks of a flow.
#[derive(Debug, Drop)]
pub enum Test {
    Fact(Fact),
    /// The response's status.
    Code(u64),
    /// The pattern is found in the part.
    Part(Part, Pattern),
}

/// An expression.
#[derive(Debug, Drop)]
#[cycle(tree)]
pub enum Tree {
    /// All of these hold.
    All(Vec<Tree>),
    /// Any of these holds.
    Any(Vec<Tree>),
    /// It does not hold.
    Not(Box<Tree>),
    Test(Test),
}
