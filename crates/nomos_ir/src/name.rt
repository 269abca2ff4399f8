//! Names as they stand in a text.
ghost use Rattle.std.specs.Prelude.{◌≡◌};

use std::marker::Model;

/// A name, which contracts see as the list of its bytes. Any bytes will do: a program's invariant says
/// which of them are names.
#[derive(Drop, Debug)]
pub struct Name {
    bytes: Vec<u8>,
}

impl Model for Name {
    ghost use Rattle.std.specs.Prelude.{List, ℕ};

    ghost Value = { List ℕ };

    ghost view = { λ name. name.bytes.items };
}

impl Name {
    /// The name with these bytes, in the vector's own memory.
    pub fn of_vec(bytes: Vec<u8>) -> Self
        ensures { result ≡ bytes.items }
    {
        Name { bytes }
    }

    /// The bytes of the name.
    pub fn as_bytes(&self) -> &[u8]
        ensures { result.now ≡ self.now }
    {
        self.bytes.as_slice()
    }
}
