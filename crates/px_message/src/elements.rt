//! Comma lists in the values of fields (RFC 9110 section 5.6.1).
//!
//! A value is split at its commas; each part loses the spaces and tabs around it, and an empty part is no element.
//! Elements are compared without the case of ASCII letters. A comma in a quoted text splits too: no list that the proxy
//! reads has quoted texts.
ghost use Rattle.std.specs.Prelude.{◌≡◌, ◌==◌, ◌&&◌, not, length, reverse};
ghost use Rattle.std.specs.List.{list_any};
ghost use Rattle.px_message.specs.Fields.{elements, is_same_name, trim_blanks, trim_start};

/// Whether the two names are equal but for the case of ASCII letters.
pub(crate) fn is_same_name(a: &[u8], b: &[u8]) -> bool
    ensures { result ≡ is_same_name a.now b.now }
{
    px_text::eq_ignore_case(a, b)
}

/// Whether the comma list has the element, in any case.
pub(crate) fn is_among_elements(value: &[u8], element: &[u8]) -> bool
    ensures { result ≡ list_any (λ e. is_same_name e element.now) (elements value.now) }
{
    value
        .split(|b| *b == b',')
        .any(|part| is_element(part, element))
}

// Whether the part of a list, without the blanks around it, is the element and not empty.
fn is_element(part: &[u8], element: &[u8]) -> bool
    ensures { result ≡ (not (length (trim_blanks part.now) == 0) && is_same_name (trim_blanks part.now) element.now) }
{
    let trimmed = trim_blanks(part);
    !trimmed.is_empty() && is_same_name(trimmed, element)
}

/// The text without the spaces and tabs at its ends.
pub(crate) fn trim_blanks(text: &[u8]) -> &[u8]
    ensures { result.now ≡ trim_blanks text.now }
{
    trim_end(trim_start(text))
}

fn trim_start(text: &[u8]) -> &[u8]
    ensures { result.now ≡ trim_start text.now }
{
    let mut rest = text;
    while let [b' ' | b'\t', more @ ..] = rest {
        rest = more;
    }
    rest
}

fn trim_end(text: &[u8]) -> &[u8]
    ensures { result.now ≡ reverse (trim_start (reverse text.now)) }
{
    let mut rest = text;
    while let [more @ .., b' ' | b'\t'] = rest {
        rest = more;
    }
    rest
}
