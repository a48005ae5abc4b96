//! Flow files of another program.

// The key under which a flow's dictionary has the number of its form.
const KEY: &[u8] = b"7:version";

/// Whether a file that is no flow file looks as one of mitmproxy's own: it begins with a length, and the first `version` in it is of no form of this program.
pub fn is_mitmproxys(bytes: &[u8]) -> bool {
    if !bytes.first().is_some_and(|byte| byte.is_ascii_digit()) {
        return false;
    }
    match bytes.windows(KEY.len()).position(|part| part == KEY) {
        Some(at) => !is_own(&bytes[at + KEY.len()..]),
        None => false,
    }
}

// Whether this stands behind the key in a file of this program: the end of a text or of bytes, and one of its two forms.
fn is_own(rest: &[u8]) -> bool {
    rest.starts_with(b";1:1#")
        || rest.starts_with(b";1:2#")
        || rest.starts_with(b",1:1#")
        || rest.starts_with(b",1:2#")
}
