//! Letters compared as ASCII.
ghost use Rattle.std.specs.Prelude.{◌≡◌, ◌↔◌, IsTrue};
ghost use Rattle.px_text.specs.Ascii.{lowercase};

/// Whether the two texts are equal but for the case of ASCII letters (RFC 9110 section 5.1).
pub fn eq_ignore_case(a: &[u8], b: &[u8]) -> bool
    ensures { IsTrue result ↔ (lowercase a.now ≡ lowercase b.now) }
{
    a.eq_ignore_ascii_case(b)
}
