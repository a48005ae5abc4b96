//! Laws of rules. Each function does nothing; what it ensures is the law.
ghost use Rattle.std.specs.Prelude.{◌≡◌, ℕ, Bool, true, false, List, [], ◌∷◌, ◌++◌, codes, Ok};
ghost use Rattle.std.specs.List.{AllPass};
ghost use Rattle.px_message.specs.Fields.{is_same_name, values_of};
ghost use Rattle.px_message.specs.Valid.{is_field};
ghost use Rattle.px_message.specs.declared.flow.Flow.{Flow};
ghost use Rattle.px_rule.specs.Body.{body_rules};
ghost use Rattle.px_rule.specs.Header.{changed, header_rules, put};
ghost use Rattle.px_rule.specs.Laws.{HoldNowhere, has_name, joined, puts_field};
ghost use Rattle.px_rule.specs.Requests.{uncached, uncoded};
ghost use Rattle.px_rule.specs.Rule.{Rule, header_rule};
ghost use Rattle.px_rule.specs.Spec.{split_up_to};
ghost use Rattle.px_rule.specs.declared.content.Content.{Content};

/// The parts of a text, with the separator between them again, are what stands behind its first character.
pub fn parts_are_the_text()
    ensures { (most separator : ℕ) (text : List ℕ) → joined separator (split_up_to most separator text) ≡ text }
{}

/// Header rules of which none holds on the flow leave it as it is.
pub fn header_rules_that_hold_nowhere_change_nothing()
    ensures { (response : Bool) (rules : List Rule) (flow : Flow) → HoldNowhere rules flow → header_rules response rules flow ≡ flow }
{}

/// What stands under a name that a rule has is what the rules put there, in their order.
pub fn a_rules_name_has_what_the_rules_put()
    ensures { (name : List ℕ) (rules : List Rule) (fields : List (List ℕ × List ℕ)) → has_name name rules ≡ true →
        values_of name (changed rules fields) ≡ values_of name (put rules) }
{}

/// What stands under another name stays.
pub fn another_name_keeps_its_values()
    ensures { (name : List ℕ) (rules : List Rule) (fields : List (List ℕ × List ℕ)) → has_name name rules ≡ false →
        values_of name (changed rules fields) ≡ values_of name fields }
{}

/// A rule that is read puts a field whose name is a token, and whose value has no CR, LF and NUL.
pub fn a_header_rule_puts_a_field()
    ensures { (text : List ℕ) (rule : Rule) → header_rule text ≡ Ok rule → puts_field rule ≡ true }
{}

/// So fields are names and values still when header rules have changed them.
pub fn changed_fields_are_names_and_values()
    ensures { (rules : List Rule) (fields : List (List ℕ × List ℕ)) → AllPass puts_field rules → AllPass is_field fields →
        AllPass is_field (changed rules fields) }
{}

/// Body rules of which none holds on the flow leave it as it is.
pub fn body_rules_that_hold_nowhere_change_nothing()
    ensures { (content : Content) (rules : List Rule) (flow : Flow) → HoldNowhere rules flow → body_rules content rules flow ≡ flow }
{}

/// Body rules behind others are asked of the flow as those left it.
pub fn body_rules_go_on()
    ensures { (content : Content) (first others : List Rule) (flow : Flow) →
        body_rules content (first ++ others) flow ≡ body_rules content others (body_rules content first flow) }
{}

/// No field is left that asks whether a kept answer still stands, and every other name keeps its values.
pub fn no_condition_is_left()
    ensures none_match { (fields : List (List ℕ × List ℕ)) → values_of (codes "If-None-Match") (uncached fields) ≡ [] }
    ensures modified { (fields : List (List ℕ × List ℕ)) → values_of (codes "If-Modified-Since") (uncached fields) ≡ [] }
    ensures others { (name : List ℕ) (fields : List (List ℕ × List ℕ)) → is_same_name (codes "If-None-Match") name ≡ false →
        is_same_name (codes "If-Modified-Since") name ≡ false → values_of name (uncached fields) ≡ values_of name fields }
{}

/// The wish for an answer without a coding stands alone, and every other name keeps its values.
pub fn no_coding_is_wished()
    ensures wish { (fields : List (List ℕ × List ℕ)) → values_of (codes "Accept-Encoding") (uncoded fields) ≡ codes "identity" ∷ [] }
    ensures others { (name : List ℕ) (fields : List (List ℕ × List ℕ)) → is_same_name (codes "Accept-Encoding") name ≡ false →
        values_of name (uncoded fields) ≡ values_of name fields }
{}
