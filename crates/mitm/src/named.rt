//! The file that the words of the command line name.
use std::alloc::AllocError;

/// The file that the words name, by its path.
#[derive(Drop)]
pub enum Named {
    /// A file of options, by which a run serves.
    Options(String),
    /// A file of flows.
    Flows(String),
    /// They name none.
    Nothing,
}

impl Named {
    /// Whether this is its path.
    pub fn is_at(&self, path: &str) -> bool {
        match self {
            Named::Options(own) | Named::Flows(own) => own.as_str() == path,
            Named::Nothing => false,
        }
    }
}

/// The file that the words name.
pub fn named_path(words: &[String]) -> Result<Named, AllocError> {
    match words {
        [word, path] if word.as_str() == "serve" => Ok(Named::Options(path.clone()?)),
        [word, path, _] if is_of_a_file(word.as_str()) => Ok(Named::Flows(path.clone()?)),
        [word, path, _, _] if word.as_str() == "pick" => Ok(Named::Flows(path.clone()?)),
        _ => Ok(Named::Nothing),
    }
}

// Whether the word behind it names a file of flows.
fn is_of_a_file(word: &str) -> bool {
    match word {
        "flows" | "har" | "convert" => true,
        _ => false,
    }
}
