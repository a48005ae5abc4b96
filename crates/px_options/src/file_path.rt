//! Paths of files.
ghost use Rattle.std.specs.Prelude.{◌≢◌, [], string_bytes};

/// The path of a file: a text that is not empty.
#[derive(Debug, Drop)]
pub struct FilePath {
    pub(crate) text: String,
    ghost not_empty: { string_bytes text ≢ [] },
}

/// Paths of files, in their order.
#[derive(Debug, Drop)]
pub struct FilePaths {
    pub(crate) items: Vec<FilePath>,
}
