//! A device's name.

ghost use Rattle.std.specs.Prelude.{◌≡◌, ℕ, List, [], ◌∷◌, ◌++◌, OnOk, OnErr};

use std::alloc::{AllocError, Global};
use std::marker::Model;

/// A name, as that of a device. Contracts see it as the list of its bytes.
#[derive(Debug, Drop)]
pub struct Name {
    held: Vec<u8>,
}

impl Model for Name {
    ghost Value = { List ℕ };

    ghost view = { λ n. n.held.items };
}

impl Name {
    /// The empty name.
    pub fn new(alloc: Global) -> Self
        ensures { result ≡ [] }
    {
        Name {
            held: Vec::new(alloc),
        }
    }

    /// The name of these bytes; it takes no memory.
    pub fn from_vec(held: Vec<u8>) -> Self
        ensures { result ≡ held.items }
    {
        Name { held }
    }

    /// The vector that holds its bytes; it takes no memory.
    pub fn into_vec(self) -> Vec<u8>
        ensures { result.items ≡ self }
    {
        self.held
    }

    /// Adds a byte at the end.
    pub fn push(&mut self, item: u8) -> Result<(), AllocError>
        ensures ok { OnOk result (self.new ≡ self.old ++ item ∷ []) }
        ensures err { OnErr result (self.new ≡ self.old) }
    {
        self.held.push(item)?;
        Ok(())
    }

    pub fn as_slice(&self) -> &[u8]
        ensures { result.now ≡ self.now }
    {
        self.held.as_slice()
    }
}
