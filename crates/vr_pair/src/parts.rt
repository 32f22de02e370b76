//! The parts of a chain, in a vector that is used again.
ghost use Rattle.std.specs.Prelude.{◌≡◌, [], ◌∷◌, ◌++◌, OnOk, OnErr};

use std::alloc::{AllocError, Global};
use std::marker::Model;
use vd_model::Part;

/// The buffers of a chain in their order. Contracts see them as their list.
#[derive(Drop)]
pub struct Parts {
    held: Vec<Part>,
}

impl Model for Parts {
    ghost use Rattle.std.specs.Prelude.{List};
    ghost use Rattle.vd_model.specs.declared.parts.Part.{Part};

    ghost Value = { List Part };

    ghost view = { λ p. p.held.items };
}

impl Parts {
    /// No buffers.
    pub fn new(alloc: Global) -> Self
        ensures { result ≡ [] }
    {
        Parts {
            held: Vec::new(alloc),
        }
    }

    /// Adds a buffer at the end.
    pub fn push(&mut self, part: Part) -> Result<(), AllocError>
        ensures ok { OnOk result (self.new ≡ self.old ++ part ∷ []) }
        ensures err { OnErr result (self.new ≡ self.old) }
    {
        self.held.push(part)?;
        Ok(())
    }

    /// Removes all buffers and keeps their room.
    pub fn clear(&mut self)
        ensures { self.new ≡ [] }
    {
        self.held.clear();
    }

    pub fn as_slice(&self) -> &[Part]
        ensures { result.now ≡ self.now }
    {
        self.held.as_slice()
    }
}
