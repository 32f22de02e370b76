//! The regions of a table that is to be set.

ghost use Rattle.std.specs.Prelude.{◌≡◌, List, [], ◌∷◌, ◌++◌, OnOk, OnErr};

use std::alloc::{AllocError, Global};
use std::marker::Model;
use vd_model::Region;

/// Regions in the order in which they are given. Contracts see them as their list.
#[derive(Drop)]
pub struct Spans {
    held: Vec<Region>,
}

impl Model for Spans {
    ghost use Rattle.std.specs.Prelude.{List};
    ghost use Rattle.vd_model.specs.declared.memory.Region.{Region};

    ghost Value = { List Region };

    ghost view = { λ s. s.held.items };
}

impl Spans {
    /// No regions.
    pub fn new(alloc: Global) -> Self
        ensures { result ≡ [] }
    {
        Spans {
            held: Vec::new(alloc),
        }
    }

    /// These regions; it takes no memory.
    pub fn from_vec(held: Vec<Region>) -> Self
        ensures { result ≡ held.items }
    {
        Spans { held }
    }

    /// Adds a region at the end.
    pub fn push(&mut self, item: Region) -> Result<(), AllocError>
        ensures ok { OnOk result (self.new ≡ self.old ++ item ∷ []) }
        ensures err { OnErr result (self.new ≡ self.old) }
    {
        self.held.push(item)?;
        Ok(())
    }

    pub fn as_slice(&self) -> &[Region]
        ensures { result.now ≡ self.now }
    {
        self.held.as_slice()
    }
}
