//! Laws of filters. Each function does nothing; what it ensures is the law.
ghost use Rattle.std.specs.List.{list_any};
ghost use Rattle.std.specs.Prelude.{◌≡◌, ◌<◌, ◌==◌, ◌⊎◌, true, List, [], ◌∷◌, ◌++◌, ℕ, Ok, Err, length, map};
ghost use Rattle.px_message.specs.declared.flow.Flow.{Flow};
ghost use Rattle.px_filter.specs.Blanks.{IsMoreBlank};
ghost use Rattle.px_filter.specs.Expression.{Expression};
ghost use Rattle.px_filter.specs.Grammar.{IsFilter};
ghost use Rattle.px_filter.specs.Holds.{holds};
ghost use Rattle.px_filter.specs.Named.{SameNamed};
ghost use Rattle.px_filter.specs.Parsing.{parse, place_of};
ghost use Rattle.px_filter.specs.Reading.{most_deep};
ghost use Rattle.px_filter.specs.Tokens.{is_blank, tokens_of};
ghost use Rattle.px_filter.specs.Written.{MayBeWritten, written};
ghost use Rattle.px_filter.specs.declared.filter.FilterError.{FilterError};

/// A text that the grammar derives is read as its expression, and refused for nothing.
pub fn what_is_derived_is_read()
    ensures { (text : List ℕ) (expression : Expression) → IsFilter text expression → parse text ≡ Ok expression }
{}

/// What a text is read as is derived by the grammar.
pub fn what_is_read_is_derived()
    ensures { (text : List ℕ) (expression : Expression) → parse text ≡ Ok expression → IsFilter text expression }
{}

/// A text has one expression at most.
pub fn each_text_has_one_expression()
    ensures { (text : List ℕ) (expression other : Expression) → IsFilter text expression → IsFilter text other → expression ≡ other }
{}

/// An expression that is written out with all its parentheses is read as itself, where they nest at most 64 deep, each list in it has two members
/// at least, its words are patterns, and its statuses have one to three digits.
pub fn what_is_written_is_read()
    ensures { (expression : Expression) → MayBeWritten expression most_deep → parse (written expression) ≡ Ok expression }
{}

/// Where its tokens stand changes no expression: a text with the same tokens, with more blanks between them or fewer, is the same.
pub fn places_change_no_expression()
    ensures { (text other : List ℕ) (expression : Expression)
        → map (λ t. t.token) (tokens_of text) ≡ map (λ t. t.token) (tokens_of other)
        → parse text ≡ Ok expression → parse other ≡ Ok expression }
{}

/// More blanks between tokens, before the first or behind the last, change no expression: with them a text has the same tokens as without, so
/// it is the same expression, and is refused exactly if it is refused without. A blank may be put in front of each token, and at the end.
pub fn more_blanks_change_no_expression()
    ensures tokens { (text other : List ℕ) → IsMoreBlank text other → map (λ t. t.token) (tokens_of text) ≡ map (λ t. t.token) (tokens_of other) }
    ensures more { (text other : List ℕ) (expression : Expression) → IsMoreBlank text other
        → parse text ≡ Ok expression → parse other ≡ Ok expression }
    ensures fewer { (text other : List ℕ) (expression : Expression) → IsMoreBlank text other
        → parse other ≡ Ok expression → parse text ≡ Ok expression }
    ensures before { (front behind : List ℕ) (blank : ℕ) → is_blank blank ≡ true
        → list_any (λ t. t.place == length front) (tokens_of (front ++ behind)) ≡ true
        → IsMoreBlank (front ++ behind) (front ++ (blank ∷ behind)) }
    ensures behind { (text : List ℕ) (blank : ℕ) → is_blank blank ≡ true → IsMoreBlank text (text ++ (blank ∷ [])) }
{}

/// A filter's answer hangs on what its operators look at, and on nothing else of the flow.
pub fn answers_hang_on_what_is_named()
    ensures { (expression : Expression) (flow other : Flow) → SameNamed expression flow other
        → holds flow expression ≡ holds other expression }
{}

/// A refusal stands within the text, or at its beginning.
pub fn refusals_stand_within_the_text()
    ensures { (text : List ℕ) (refusal : FilterError) → parse text ≡ Err refusal
        → (place_of refusal ≡ 0) ⊎ (place_of refusal < length text) }
{}
