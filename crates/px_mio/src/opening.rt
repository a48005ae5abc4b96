//! What is read at the door for operators.
ghost use Rattle.std.specs.Prelude.{◌≡◌, ◌≤◌, ◌<◌, length, position, IfSome};
ghost use Rattle.px_mio.specs.Opening.{begins_with, is_line_feed, is_request, line_len, may_be_request};

// Whether the text begins so.
fn begins(text: &[u8], front: &[u8]) -> bool
    ensures { result ≡ begins_with text.now front.now }
{
    text.len() >= front.len() && &text[..front.len()] == front
}

/// Whether a text begins with a method and a space, as a request of HTTP does and no operator's line.
pub(crate) fn is_request(text: &[u8]) -> bool
    ensures { result ≡ is_request text.now }
{
    begins(text, b"GET ")
        || begins(text, b"HEAD ")
        || begins(text, b"POST ")
        || begins(text, b"PUT ")
        || begins(text, b"DELETE ")
        || begins(text, b"OPTIONS ")
        || begins(text, b"TRACE ")
        || begins(text, b"PATCH ")
}

/// Whether a text may yet become one that begins so.
pub(crate) fn may_be_request(text: &[u8]) -> bool
    ensures { result ≡ may_be_request text.now }
{
    begins(b"GET ", text)
        || begins(b"HEAD ", text)
        || begins(b"POST ", text)
        || begins(b"PUT ", text)
        || begins(b"DELETE ", text)
        || begins(b"OPTIONS ", text)
        || begins(b"TRACE ", text)
        || begins(b"PATCH ", text)
}

// Where the first line feed is.
fn line_feed(text: &[u8]) -> Option<usize>
    ensures found { result ≡ position is_line_feed text.now }
    ensures within { IfSome result (λ at. at < length text.now) }
{
    text.iter().position(|byte| *byte == b'\n')
}

/// How many bytes are up to the end of the first line, its line feed among them: all where no line ends.
pub(crate) fn line_len(text: &[u8]) -> usize
    ensures line { result ≡ line_len text.now }
    ensures within { result ≤ length text.now }
    ensures some { 0 < length text.now → 0 < result }
{
    match line_feed(text) {
        Some(at) => at + 1,
        None => text.len(),
    }
}
