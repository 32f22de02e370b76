//! A list of line numbers.

ghost use Rattle.std.specs.Prelude.{◌≡◌, ℕ, List, [], ◌∷◌, ◌++◌, OnOk, OnErr};

use std::alloc::{AllocError, Global};
use std::marker::Model;

/// A list of numbers, as of lines or of calls. Contracts see it as the list.
#[derive(Debug, Drop)]
pub struct Lines {
    held: Vec<u64>,
}

impl Model for Lines {
    ghost Value = { List ℕ };

    ghost view = { λ l. l.held.items };
}

impl Lines {
    /// No numbers.
    pub fn new(alloc: Global) -> Self
        ensures { result ≡ [] }
    {
        Lines {
            held: Vec::new(alloc),
        }
    }

    /// These numbers; it takes no memory.
    pub fn from_vec(held: Vec<u64>) -> Self
        ensures { result ≡ held.items }
    {
        Lines { held }
    }

    /// The vector that holds them; it takes no memory.
    pub fn into_vec(self) -> Vec<u64>
        ensures { result.items ≡ self }
    {
        self.held
    }

    /// Adds a number at the end.
    pub fn push(&mut self, item: u64) -> Result<(), AllocError>
        ensures ok { OnOk result (self.new ≡ self.old ++ item ∷ []) }
        ensures err { OnErr result (self.new ≡ self.old) }
    {
        self.held.push(item)?;
        Ok(())
    }

    pub fn as_slice(&self) -> &[u64]
        ensures { result.now ≡ self.now }
    {
        self.held.as_slice()
    }
}
