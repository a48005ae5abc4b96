//! Whether an expression holds on a flow.
ghost use Rattle.std.specs.Prelude.{◌≡◌, is_some, IfOk};
ghost use Rattle.px_filter.specs.Holds as specs;
ghost use Rattle.px_filter.specs.View.{view, views};
ghost use Rattle.px_filter.specs.Expression.{row};

use crate::fact::fact_holds;
use crate::part::part_has;
use crate::tree::{Test, Tree};
use px_message::{Flow, Response, Shared};
use px_text::NoMemory;
use std::alloc::Global;

/// Whether the expression holds on the flow.
#[cycle(holds)]
pub fn holds(alloc: Global, tree: &Tree, flow: &Flow) -> Result<bool, NoMemory>
    ensures { IfOk result (λ answer. answer ≡ specs.holds flow.now (view tree.now)) }
{
    match tree {
        Tree::All(trees) => all_hold(alloc, trees, flow),
        Tree::Any(trees) => any_holds(alloc, trees, flow),
        Tree::Not(inner) => Ok(!holds(alloc, inner, flow)?),
        Tree::Test(test) => test_holds(alloc, test, flow),
    }
}

#[cycle(holds)]
fn all_hold(alloc: Global, trees: &Vec<Tree>, flow: &Flow) -> Result<bool, NoMemory>
    ensures { IfOk result (λ answer. answer ≡ specs.all_hold flow.now (row (views trees.now.items))) }
{
    for tree in trees {
        if !holds(alloc, tree, flow)? {
            return Ok(false);
        }
    }
    Ok(true)
}

#[cycle(holds)]
fn any_holds(alloc: Global, trees: &Vec<Tree>, flow: &Flow) -> Result<bool, NoMemory>
    ensures { IfOk result (λ answer. answer ≡ specs.any_holds flow.now (row (views trees.now.items))) }
{
    for tree in trees {
        if holds(alloc, tree, flow)? {
            return Ok(true);
        }
    }
    Ok(false)
}

fn test_holds(alloc: Global, test: &Test, flow: &Flow) -> Result<bool, NoMemory>
    ensures { IfOk result (λ answer. answer ≡ specs.test_holds flow.now test.now) }
{
    match test {
        Test::Fact(fact) => Ok(fact_holds(*fact, flow)),
        Test::Code(code) => Ok(has_status(*code, &flow.response)),
        Test::Part(part, pattern) => part_has(&mut pattern.seeker(alloc)?, *part, flow, alloc),
    }
}

fn has_status(code: u64, response: &Option<Shared<Response>>) -> bool
    ensures { result ≡ specs.has_status code response.now }
{
    match response {
        None => false,
        Some(response) => u64::from(response.get().status.code()) == code,
    }
}
