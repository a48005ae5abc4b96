//! The options file of a run.
ghost use Rattle.std.specs.Prelude.{Ok, IfOk, IfErr, List, ℕ, [], ◌∷◌};
ghost use Rattle.px_outside.specs.declared.files.FileCall.TheVariants.{Read as WasRead};
ghost use Rattle.px_map.specs.Reads.{Made, seen};
ghost use Rattle.px_options.specs.Options.{Says};
ghost use Rattle.px_options.specs.View.{settings};
ghost use Rattle.px_app.specs.Opened.{IsNoOptions, IsNotOpened};

use px_options::{Options, OptionsError, read_options};
use px_outside::{FileError, Files};
use std::alloc::Global;

/// Why there are no options.
#[derive(Debug, Drop)]
pub enum OpenError {
    /// The file is absent, or was not read.
    NotRead,
    /// It is no options file.
    Refused(OptionsError),
    /// Memory ran out.
    NoMemory,
}

/// The options that the file of this path says. It is read once.
pub(crate) fn read_file<F: Files>(
    alloc: Global,
    path: &str,
    files: &mut F,
) -> Result<Options, OpenError>
    ensures ok { IfOk result (λ o. (bytes : List ℕ) × Made (WasRead path.now bytes ∷ []) (seen F.contents F.calls F.misses F.faults F.losses files.old) (seen F.contents F.calls F.misses F.faults F.losses files.new) × Says bytes (Ok (settings o))) }
    ensures err { IfErr result (λ e. IsNotOpened path.now e (seen F.contents F.calls F.misses F.faults F.losses files.old) (seen F.contents F.calls F.misses F.faults F.losses files.new)) }
{
    match files.read(path) {
        Ok(bytes) => judge(alloc, &bytes),
        Err(FileError::Absent) => Err(OpenError::NotRead),
        Err(FileError::Failed) => Err(OpenError::NotRead),
        Err(FileError::NoMemory) => Err(OpenError::NoMemory),
    }
}

// The options that these bytes are.
fn judge(alloc: Global, bytes: &[u8]) -> Result<Options, OpenError>
    ensures ok { IfOk result (λ o. Says bytes.now (Ok (settings o))) }
    ensures err { IfErr result (λ e. IsNoOptions bytes.now e) }
{
    match read_options(alloc, bytes) {
        Ok(options) => Ok(options),
        Err(OptionsError::NoMemory) => Err(OpenError::NoMemory),
        Err(error) => Err(OpenError::Refused(error)),
    }
}
