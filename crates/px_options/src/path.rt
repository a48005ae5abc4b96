//! The paths that values are.
ghost use Rattle.std.specs.Prelude.{◌≡◌, ◌≢◌, ◌⊎◌, [], ◌∷◌, ◌++◌, None, Some, Ok, Err, IfOk, IfErr, OnOk, map, string_bytes};
ghost use Rattle.toml.specs.View.{view};
ghost use Rattle.px_options.specs.Keys.{name_of};
ghost use Rattle.px_options.specs.Replay.{file_paths, paths_of};
ghost use Rattle.px_options.specs.Save.{file_path, path_of};
ghost use Rattle.px_options.specs.View.{path_view, paths_view};
ghost use Rattle.px_options.specs.declared.error.OptionsError.TheVariants as error;

use crate::OptionsError;
use crate::error::wrong_kind;
use crate::file_path::{FilePath, FilePaths};
use crate::key::Key;
use crate::texts::read_texts;
use std::alloc::Global;
use toml::Value;

impl FilePath {
    /// The text.
    pub fn as_str(&self) -> &str
        ensures text { result.now ≡ path_view self.now }
        ensures not_empty { result.now ≢ [] }
    {
        self.text.as_str()
    }
}

impl FilePaths {
    /// No path. It takes no memory.
    pub fn none(alloc: Global) -> FilePaths
        ensures { paths_view result ≡ [] }
    {
        FilePaths {
            items: Vec::new(alloc),
        }
    }

    /// The paths.
    pub fn as_slice(&self) -> &[FilePath]
        ensures { map path_view result.now ≡ paths_view self.now }
    {
        self.items.as_slice()
    }
}

/// The path that a value is.
pub(crate) fn read_path(alloc: Global, key: Key, value: &Value) -> Result<FilePath, OptionsError>
    ensures ok { IfOk result (λ p. file_path key (view value.now) ≡ Ok (Some (path_view p))) }
    ensures err { IfErr result (λ e. (e ≡ error.NoMemory) ⊎ (file_path key (view value.now) ≡ Err e)) }
{
    match value.as_str() {
        Some(text) => path_of(alloc, key, text),
        None => Err(wrong_kind(alloc, key)),
    }
}

/// The paths that a value is.
pub(crate) fn read_paths(alloc: Global, key: Key, value: &Value) -> Result<FilePaths, OptionsError>
    ensures ok { IfOk result (λ ps. file_paths key (view value.now) ≡ Ok (paths_view ps)) }
    ensures err { IfErr result (λ e. (e ≡ error.NoMemory) ⊎ (file_paths key (view value.now) ≡ Err e)) }
{
    let texts = read_texts(alloc, key, value)?;
    paths_of(alloc, key, &texts)
}

// The paths that texts are.
fn paths_of(alloc: Global, key: Key, texts: &[String]) -> Result<FilePaths, OptionsError>
    ensures ok { IfOk result (λ ps. paths_of (map string_bytes texts.now) ≡ Some (paths_view ps)) }
    ensures err { IfErr result (λ e. (e ≡ error.NoMemory) ⊎ ((e ≡ error.WrongKind (name_of key)) × (paths_of (map string_bytes texts.now) ≡ None))) }
{
    let mut items = Vec::new(alloc);
    for text in texts {
        match push_path(alloc, key, text.as_str(), &mut items) {
            Ok(()) => {}
            Err(e) => return Err(e),
        }
    }
    Ok(FilePaths { items })
}

// Adds the path that the text is.
fn push_path(
    alloc: Global,
    key: Key,
    text: &str,
    items: &mut Vec<FilePath>,
) -> Result<(), OptionsError>
    ensures ok { OnOk result (map path_view items.new.items ≡ map path_view items.old.items ++ text.now ∷ []) }
    ensures err { IfErr result (λ e. (e ≡ error.NoMemory) ⊎ ((e ≡ error.WrongKind (name_of key)) × (text.now ≡ []))) }
{
    items.push(path_of(alloc, key, text)?)?;
    Ok(())
}

// The path that a text is.
fn path_of(alloc: Global, key: Key, text: &str) -> Result<FilePath, OptionsError>
    ensures ok { IfOk result (λ p. path_of key text.now ≡ Ok (Some (path_view p))) }
    ensures err { IfErr result (λ e. (e ≡ error.NoMemory) ⊎ (path_of key text.now ≡ Err e)) }
{
    if text.is_empty() {
        return Err(wrong_kind(alloc, key));
    }
    Ok(FilePath {
        text: String::from_str(alloc, text)?,
    })
}
