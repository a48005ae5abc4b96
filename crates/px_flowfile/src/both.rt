//! Two answers joined.
ghost use Rattle.std.specs.Prelude.{◌≡◌};
ghost use Rattle.px_flowfile.specs.Both.{both_of};

use crate::FlowFileError;

/// The first of the two that is an error, or else both.
pub(crate) fn both<A: Drop, B: Drop>(
    first: Result<A, FlowFileError>,
    second: Result<B, FlowFileError>,
) -> Result<(A, B), FlowFileError>
    ensures { result ≡ both_of first second }
{
    match (first, second) {
        (Ok(a), Ok(b)) => Ok((a, b)),
        (Ok(_), Err(e)) => Err(e),
        (Err(e), _) => Err(e),
    }
}
