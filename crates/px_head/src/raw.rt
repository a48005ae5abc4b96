//! A head as it was read: bytes, with no rule applied to them but the grammar's.
ghost use Rattle.std.specs.Prelude.{◌≡◌, ◌↔◌, ◌<◌, IsTrue, [], length, Some, slice_get};

use px_text::Bytes;
use std::marker::Model;

/// The parts of a head, spelled as they came.
///
/// Of a request `first` is the method, `second` the target and `third` the version, as `HTTP/1.1`. Of a response
/// `first` is the version, `second` the three digits of the code and `third` the reason, which is empty where the line
/// has none. Of trailers all three are empty. `pairs` is the fields in their order.
#[derive(Debug, Drop)]
pub struct RawHead {
    pub first: Bytes,
    pub second: Bytes,
    pub third: Bytes,
    pub pairs: RawPairs,
}

/// The fields of a head in their order: each a name and a value, without the blanks around the value (RFC 9112 section
/// 5.1). In a contract it is the list of these pairs.
#[derive(Debug, Drop)]
pub struct RawPairs {
    items: Vec<(Bytes, Bytes)>,
}

impl Model for RawPairs {
    ghost use Rattle.std.specs.Prelude.{List, ℕ};

    ghost Value = { List (List ℕ × List ℕ) };

    ghost view = { λ p. p.items.items };
}

impl RawPairs {
    /// The same pairs, without taking memory.
    pub fn new(pairs: Vec<(Bytes, Bytes)>) -> RawPairs
        ensures { result ≡ pairs.items }
    {
        RawPairs { items: pairs }
    }

    /// The number of pairs.
    pub fn len(&self) -> usize
        ensures { result ≡ length self.now }
    {
        self.items.len()
    }

    /// Whether there is no pair.
    pub fn is_empty(&self) -> bool
        ensures { IsTrue result ↔ (self.now ≡ []) }
    {
        self.items.is_empty()
    }

    /// The name and the value of the pair at a place.
    pub fn pair(&self, i: usize) -> (&Bytes, &Bytes)
        requires { i < length self.now }
        ensures { slice_get self.now i ≡ Some (result.0.now, result.1.now) }
    {
        let pair = &self.items[i];
        (&pair.0, &pair.1)
    }

    /// The vector of pairs, without taking memory.
    pub fn into_vec(self) -> Vec<(Bytes, Bytes)>
        ensures { result.items ≡ self }
    {
        self.items
    }
}
