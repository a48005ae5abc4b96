//! Laws of options files. Each function does nothing; what it ensures is the law.
ghost use Rattle.std.specs.Prelude.{◌≡◌, ◌≢◌, ℕ, List, None, Some, Ok, Err, Result, IsErr, drop, length, slice_get, take};
ghost use Rattle.std.specs.Str.{IsUtf8};
ghost use Rattle.px_rule.specs.Spec.{spec_parts};
ghost use Rattle.toml.specs.Data.{Data, Members, no_members, member};
ghost use Rattle.px_options.specs.Keys.{key_of};
ghost use Rattle.px_options.specs.Laws.{followed};
ghost use Rattle.px_options.specs.Options.{IsNoTable, Says, Settings, defaults, first_refusal, options_of, refusal_of};
ghost use Rattle.px_options.specs.Shown.{behind_parts, separator_length};
ghost use Rattle.px_options.specs.declared.error.OptionsError.{OptionsError};
ghost use Rattle.px_options.specs.declared.error.OptionsError.TheVariants as error;

/// A table without keys is every option's default.
pub fn an_empty_table_is_the_defaults()
    ensures { options_of no_members ≡ Ok defaults }
{}

/// The first bad key decides, whatever stands behind it.
pub fn the_first_bad_key_decides()
    ensures { (front : List (List ℕ × Data)) (name : List ℕ) (value : Data) (behind : Members) (e : OptionsError) →
        first_refusal (followed front no_members) ≡ None → refusal_of name value ≡ Some e →
        options_of (followed front (member name value behind)) ≡ Err e }
{}

/// A bad key is refused, whatever else the table has.
pub fn a_bad_key_is_refused()
    ensures { (front : List (List ℕ × Data)) (name : List ℕ) (value : Data) (behind : Members) (e : OptionsError) →
        refusal_of name value ≡ Some e → IsErr (options_of (followed front (member name value behind))) }
{}

/// A key that is no option's name is bad, and its refusal names it.
pub fn an_unknown_key_is_bad()
    ensures { (name : List ℕ) (value : Data) → key_of name ≡ None → refusal_of name value ≡ Some (error.UnknownOption name) }
{}

/// Bytes say one thing: options, or a refusal. So where they say options no refusal is answered, and where they say a refusal no
/// other is.
pub fn bytes_say_one_thing()
    ensures one { (bytes : List ℕ) (a b : Result Settings OptionsError) → Says bytes a → Says bytes b → a ≡ b }
    ensures none { (bytes : List ℕ) (a : Result Settings OptionsError) → IsNoTable bytes → ¬ (Says bytes a) }
{}

/// A table is never refused as no TOML, nor when out of memory.
pub fn a_table_is_a_table()
    ensures toml { (table : Members) → options_of table ≢ Err error.BadToml }
    ensures memory { (table : Members) → options_of table ≢ Err error.NoMemory }
{}

/// Each part of a rule's text stands behind the parts in front of it. So a mark at such a place stands under the part that is meant.
pub fn a_part_stands_behind_those_in_front()
    ensures { (most n : ℕ) (text part : List ℕ) → IsUtf8 text → slice_get (spec_parts most text) n ≡ Some part →
        take (length part) (drop (behind_parts (separator_length text) (take n (spec_parts most text))) text) ≡ part }
{}
