//! The byte behind a payload, which tells what the payload is.
ghost use Rattle.std.specs.Prelude.{◌≡◌, MatchOption};
ghost use Rattle.px_tnet.specs.Kinds.{tag_of};

/// What a payload may be.
#[derive(Debug, PartialEq, Eq, Clone, Copy)]
pub enum Kind {
    Blob,
    Text,
    Int,
    Float,
    Bool,
    Null,
    List,
    Dict,
}

/// The kind that the tag tells, or none.
pub fn kind_of(tag: u8) -> Option<Kind>
    ensures { MatchOption result ((kind : Kind) → ¬ (tag ≡ tag_of kind)) (λ kind. tag ≡ tag_of kind) }
{
    match tag {
        b',' => Some(Kind::Blob),
        b';' => Some(Kind::Text),
        b'#' => Some(Kind::Int),
        b'^' => Some(Kind::Float),
        b'!' => Some(Kind::Bool),
        b'~' => Some(Kind::Null),
        b']' => Some(Kind::List),
        b'}' => Some(Kind::Dict),
        _ => None,
    }
}

/// The tag that tells the kind.
pub fn tag(kind: Kind) -> u8
    ensures { result ≡ tag_of kind }
{
    match kind {
        Kind::Blob => b',',
        Kind::Text => b';',
        Kind::Int => b'#',
        Kind::Float => b'^',
        Kind::Bool => b'!',
        Kind::Null => b'~',
        Kind::List => b']',
        Kind::Dict => b'}',
    }
}
