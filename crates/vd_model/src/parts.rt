//! Descriptor chains.

ghost use Rattle.std.specs.Prelude.{◌≡◌, List, [], ◌∷◌, ◌++◌, OnOk, OnErr};

use std::alloc::{AllocError, Global};
use std::marker::Model;

/// A descriptor's buffer: its address, its length in bytes, and whether the device writes it.
#[derive(Clone, Copy, Debug, PartialEq, Eq)]
pub struct Part {
    pub at: u64,
    pub len: u32,
    pub writable: bool,
}

/// The buffers of a chain in their order. Contracts see them as their list.
#[derive(Drop)]
pub struct Parts {
    held: Vec<Part>,
}

impl Model for Parts {
    ghost use Rattle.std.specs.Prelude.{List};
    ghost use Rattle.vd_model.specs.declared.parts.Part.{Part};

    ghost Value = { List Part };

    ghost view = { λ p. p.held.items };
}

impl Parts {
    /// No buffers.
    pub fn new(alloc: Global) -> Self
        ensures { result ≡ [] }
    {
        Parts {
            held: Vec::new(alloc),
        }
    }

    /// These buffers; it takes no memory.
    pub fn from_vec(held: Vec<Part>) -> Self
        ensures { result ≡ held.items }
    {
        Parts { held }
    }

    /// Adds a buffer at the end.
    pub fn push(&mut self, item: Part) -> Result<(), AllocError>
        ensures ok { OnOk result (self.new ≡ self.old ++ item ∷ []) }
        ensures err { OnErr result (self.new ≡ self.old) }
    {
        self.held.push(item)?;
        Ok(())
    }

    pub fn as_slice(&self) -> &[Part]
        ensures { result.now ≡ self.now }
    {
        self.held.as_slice()
    }
}

/// A descriptor chain: its head, its buffers without the indirect descriptor, and how many bytes
/// the device reads and writes (virtio 1.2, section 2.7.5).
#[derive(Drop)]
pub struct Chain {
    pub head: u16,
    pub parts: Parts,
    pub readable: u64,
    pub writable: u64,
}
