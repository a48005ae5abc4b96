//! Where a block of lines ends.
//!
//! A head ends at its first empty line (RFC 9112 section 2.1). A line may end in LF alone (section 2.2), so a block
//! that ends in an empty line ends in LF LF, or in LF CR LF. The search looks at one end after the other, so whoever
//! keeps the place where it stopped may go on there: two bytes before it are enough.
ghost use Rattle.std.specs.Prelude.{◌≡◌, ◌≤◌, length};
ghost use Rattle.px_text.specs.Blank.{blank_end, ends_blank};

/// The least end `e` such that `bytes[start..e]` ends in LF LF or in LF CR LF: the end of the block of lines that
/// begins at `start`, with its empty line. None where no block ends.
pub fn find_blank(bytes: &[u8], start: usize) -> Option<usize>
    requires { start ≤ length bytes.now }
    ensures { result ≡ blank_end bytes.now start }
{
    for end in start..bytes.len() + 1 {
        if is_blank_end(bytes, start, end) {
            return Some(end);
        }
    }
    None
}

// Whether the bytes from `start` to `end` end in an empty line.
fn is_blank_end(bytes: &[u8], start: usize, end: usize) -> bool
    requires { end ≤ length bytes.now }
    ensures { result ≡ ends_blank bytes.now start end }
{
    if end < 2 || end - 2 < start || bytes[end - 1] != b'\n' {
        return false;
    }
    bytes[end - 2] == b'\n'
        || (end - 2 > start && bytes[end - 2] == b'\r' && bytes[end - 3] == b'\n')
}
