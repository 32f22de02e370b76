//! The fields of a reply.

ghost use Rattle.std.specs.Prelude.{◌≡◌, List, [], ◌∷◌, ◌++◌, OnOk, OnErr};

use crate::answer::Item;
use std::alloc::{AllocError, Global};
use std::marker::Model;

/// The fields of a reply in their order. Contracts see them as their list.
#[derive(Drop)]
pub struct Items {
    held: Vec<Item>,
}

impl Model for Items {
    ghost use Rattle.std.specs.Prelude.{List};
    ghost use Rattle.vd_model.specs.declared.answer.Item.{Item};

    ghost Value = { List Item };

    ghost view = { λ p. p.held.items };
}

impl Items {
    /// No fields.
    pub fn new(alloc: Global) -> Self
        ensures { result ≡ [] }
    {
        Items {
            held: Vec::new(alloc),
        }
    }

    /// These fields; it takes no memory.
    pub fn from_vec(held: Vec<Item>) -> Self
        ensures { result ≡ held.items }
    {
        Items { held }
    }

    /// Adds a field at the end.
    pub fn push(&mut self, item: Item) -> Result<(), AllocError>
        ensures ok { OnOk result (self.new ≡ self.old ++ item ∷ []) }
        ensures err { OnErr result (self.new ≡ self.old) }
    {
        self.held.push(item)?;
        Ok(())
    }

    pub fn as_slice(&self) -> &[Item]
        ensures { result.now ≡ self.now }
    {
        self.held.as_slice()
    }
}
