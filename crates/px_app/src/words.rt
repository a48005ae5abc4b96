//! The words of the command line.
//!
//! `serve OPTIONS` names an options file by its path, `flows FILE FILTER` and `har FILE FILTER` a file of flows by its path and a filter by its text,
//! `convert FILE OUT` two files by their paths, `pick FILE FILTER OUT` two files and between them a filter, and `gen N` a number from 0 to 10,000 in decimal digits, without a sign or a leading zero. Whatever else stands
//! there has no form, and the program answers with its usage. So a word is either taken whole or refused, and nothing is guessed.
ghost use Rattle.std.specs.Prelude.{◌≡◌, ◌∷◌, [], ℕ, List, MatchOption, map};
ghost use Rattle.std.specs.String.{string_bytes};
ghost use Rattle.px_app.specs.Words.{IsConvert, IsFlows, IsGen, IsHar, IsPick, IsServe};

use px_gen::read_count;

/// The path in the words `serve OPTIONS`. None exactly where the words have no such form.
pub(crate) fn options_path(words: &[String]) -> Option<&str>
    ensures { MatchOption result ((path : List ℕ) → ¬ (IsServe (map string_bytes words.now) path)) (λ path. IsServe (map string_bytes words.now) path.now) }
{
    let [command, path] = words else {
        return None;
    };
    if command.as_str() != "serve" {
        return None;
    }
    Some(path.as_str())
}

/// The path and the filter's text in the words `flows FILE FILTER`. None exactly where the words have no such form.
pub(crate) fn flow_words(words: &[String]) -> Option<(&str, &str)>
    ensures { MatchOption result ((path text : List ℕ) → ¬ (IsFlows (map string_bytes words.now) path text)) (λ found. IsFlows (map string_bytes words.now) found.0.now found.1.now) }
{
    two_behind(words, "flows")
}

/// The two paths in the words `convert FILE OUT`. None exactly where the words have no such form.
pub(crate) fn convert_words(words: &[String]) -> Option<(&str, &str)>
    ensures { MatchOption result ((path to : List ℕ) → ¬ (IsConvert (map string_bytes words.now) path to)) (λ found. IsConvert (map string_bytes words.now) found.0.now found.1.now) }
{
    two_behind(words, "convert")
}

/// The path and the filter's text in the words `har FILE FILTER`. None exactly where the words have no such form.
pub(crate) fn har_words(words: &[String]) -> Option<(&str, &str)>
    ensures { MatchOption result ((path text : List ℕ) → ¬ (IsHar (map string_bytes words.now) path text)) (λ found. IsHar (map string_bytes words.now) found.0.now found.1.now) }
{
    two_behind(words, "har")
}

// The two words behind this one, where the words are these three.
fn two_behind<'a>(words: &'a [String], name: &str) -> Option<(&'a str, &'a str)>
    ensures { MatchOption result ((a b : List ℕ) → ¬ (map string_bytes words.now ≡ name.now ∷ a ∷ b ∷ [])) (λ found. map string_bytes words.now ≡ name.now ∷ found.0.now ∷ found.1.now ∷ []) }
{
    let [command, path, text] = words else {
        return None;
    };
    if command.as_str() != name {
        return None;
    }
    Some((path.as_str(), text.as_str()))
}

/// The path, the filter's text and the other path in the words `pick FILE FILTER OUT`. None exactly where the words have no such form.
pub(crate) fn pick_words(words: &[String]) -> Option<(&str, &str, &str)>
    ensures { MatchOption result ((path text to : List ℕ) → ¬ (IsPick (map string_bytes words.now) path text to)) (λ found. IsPick (map string_bytes words.now) found.0.now found.1.now found.2.now) }
{
    let [command, path, text, to] = words else {
        return None;
    };
    if command.as_str() != "pick" {
        return None;
    }
    Some((path.as_str(), text.as_str(), to.as_str()))
}

/// The number in the words `gen N`. None exactly where the words have no such form.
pub(crate) fn flow_count(words: &[String]) -> Option<u64>
    ensures { MatchOption result ((count : ℕ) → ¬ (IsGen (map string_bytes words.now) count)) (λ count. IsGen (map string_bytes words.now) count) }
{
    let [command, count] = words else {
        return None;
    };
    if command.as_str() != "gen" {
        return None;
    }
    read_count(count.as_bytes())
}
