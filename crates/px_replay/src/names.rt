//! Lists of names.
ghost use Rattle.std.specs.Prelude.{◌≡◌, bytes_eq};
ghost use Rattle.px_replay.specs.Key.{is_listed};

use px_text::Bytes;
use std::marker::Model;

/// Names of parameters or of fields, in their order. In a contract they are the list of their bytes.
#[derive(Debug, Drop)]
pub struct Names {
    items: Vec<Bytes>,
}

impl Model for Names {
    ghost use Rattle.std.specs.Prelude.{List, ℕ};

    ghost Value = { List (List ℕ) };

    ghost view = { λ n. n.items.items };
}

impl Names {
    /// These names. It takes no memory.
    pub fn new(items: Vec<Bytes>) -> Names
        ensures { result ≡ items.items }
    {
        Names { items }
    }

    /// The names.
    pub fn as_slice(&self) -> &[Bytes]
        ensures { result.now ≡ self.now }
    {
        self.items.as_slice()
    }

    /// Whether the name is among them, byte by byte.
    pub fn contains(&self, name: &[u8]) -> bool
        ensures { result ≡ is_listed self.now name.now }
    {
        self.items.iter().any(|item| item.as_slice() == name)
    }
}
