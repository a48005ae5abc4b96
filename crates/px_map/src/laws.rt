//! Laws of rules. Each function does nothing; what it ensures is the law.
ghost use Rattle.std.specs.Prelude.{◌≡◌, ◌≤◌, ℕ, true, List, ◌∷◌, ◌++◌, Option, Some, None, Ok};
ghost use Rattle.px_message.specs.declared.flow.Flow.{Flow};
ghost use Rattle.px_message.specs.declared.response.Response.{Response};
ghost use Rattle.px_outside.specs.declared.files.FileCall.{FileCall};
ghost use Rattle.px_rule.specs.Laws.{HoldNowhere};
ghost use Rattle.px_rule.specs.Rule.{Rule, applies};
ghost use Rattle.px_map.specs.Block.{BlockRule, block_rule, block_status};
ghost use Rattle.px_map.specs.Laws.{BlockNowhere};
ghost use Rattle.px_map.specs.Reads.{Begins, IsAnswer};
ghost use Rattle.px_map.specs.Remote.{remote_rules};
ghost use Rattle.px_map.specs.Served.{local_names};
ghost use Rattle.px_map.specs.Within.{IsOfRule, ReadsOnly};

/// Of the block rules that hold on a flow the first decides, whatever the others say.
pub fn the_first_block_rule_that_holds_decides()
    ensures { (before after : List BlockRule) (rule : BlockRule) (flow : Flow) → BlockNowhere before flow → applies rule.filter flow ≡ true →
        block_status (before ++ rule ∷ after) flow ≡ Some rule.status }
{}

/// Block rules of which none holds on the flow block nothing.
pub fn block_rules_that_hold_nowhere_block_nothing()
    ensures { (rules : List BlockRule) (flow : Flow) → BlockNowhere rules flow → block_status rules flow ≡ None }
{}

/// The status of a block rule that is read is from 200 to 999.
pub fn a_block_rule_has_a_status()
    ensures { (text : List ℕ) (rule : BlockRule) → block_rule text ≡ Ok rule → (200 ≤ rule.status) × (rule.status ≤ 999) }
{}

/// Map remote rules of which none holds on the flow leave it as it is.
pub fn remote_rules_that_hold_nowhere_change_nothing()
    ensures { (rules : List Rule) (flow : Flow) → HoldNowhere rules flow → remote_rules rules flow ≡ Ok flow }
{}

/// No request has a file read that a rule does not name or that its directory does not hold: each call that is made for a
/// flow is a read, of a rule's own file or of a path that is the rule's directory followed by a name of which no segment is `..`
/// and which does not begin with a slash. So it is of all reads that end in an answer, and of those before memory ran out.
pub fn no_request_reads_beside_a_directory()
    ensures begun { (rules : List Rule) (flow : Flow) (made : List FileCall) → Begins (local_names rules flow) made → ReadsOnly (IsOfRule rules) made }
    ensures answered { (rules : List Rule) (flow : Flow) (made : List FileCall) (answer : Option Response) →
        IsAnswer (local_names rules flow) made answer → ReadsOnly (IsOfRule rules) made }
{}
