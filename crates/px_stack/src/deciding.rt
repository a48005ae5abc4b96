//! What the first bytes of a tunnel decide.
ghost use Rattle.std.specs.Prelude.{◌≡◌, ◌≤◌, take, length, bytes_eq};
ghost use Rattle.px_stack.specs.Decides.{begins_with, has_method, may_have_method};

// Whether the text begins so.
fn begins(text: &[u8], front: &[u8]) -> bool
    ensures { result ≡ begins_with text.now front.now }
{
    text.len() >= front.len() && &text[..front.len()] == front
}

/// Whether a text begins with a method and a space.
pub fn has_method(text: &[u8]) -> bool
    ensures { result ≡ has_method text.now }
{
    begins(text, b"GET ")
        || begins(text, b"HEAD ")
        || begins(text, b"POST ")
        || begins(text, b"PUT ")
        || begins(text, b"DELETE ")
        || begins(text, b"OPTIONS ")
        || begins(text, b"TRACE ")
        || begins(text, b"PATCH ")
}

/// Whether a text may yet become one that begins with a method and a space.
pub fn may_have_method(text: &[u8]) -> bool
    ensures { result ≡ may_have_method text.now }
{
    begins(b"GET ", text)
        || begins(b"HEAD ", text)
        || begins(b"POST ", text)
        || begins(b"PUT ", text)
        || begins(b"DELETE ", text)
        || begins(b"OPTIONS ", text)
        || begins(b"TRACE ", text)
        || begins(b"PATCH ", text)
}
