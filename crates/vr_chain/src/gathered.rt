//! The parts of a chain so far.
ghost use Rattle.std.specs.Prelude.{◌≡◌, ◌≤◌, ◌+◌, false, List, [], OnOk, OnErr};
ghost use Rattle.std.specs.List.{list_any};
ghost use Rattle.vd_model.specs.declared.parts.Part.{Part};
ghost use Rattle.vd_model.specs.Trace.{readable_len, writable_len, total_len, is_indirect, with_part, chain_of};

use crate::descriptor::{is_indirect, part_of};
use std::alloc::{AllocError, Global};
use std::marker::Model;
use vd_model::{Chain, Descriptor, Parts};

/// Parts, with sums over them.
#[derive(Drop)]
pub struct Gathered {
    parts: Parts,
    readable: u64,
    writable: u64,
    any_writable: bool,
}

impl Model for Gathered {
    ghost Value = { List Part };

    ghost view = { λ g. g.parts };

    ghost invariant = { λ g. (g.readable ≡ readable_len g.parts) × (g.writable ≡ writable_len g.parts)
        × (g.any_writable ≡ list_any (λ q. q.writable) g.parts) × (g.readable + g.writable ≤ 16777216) };
}

impl Gathered {
    pub fn new(alloc: Global) -> Gathered
        ensures { result ≡ [] }
    {
        Gathered {
            parts: Parts::new(alloc),
            readable: 0,
            writable: 0,
            any_writable: false,
        }
    }

    pub fn total(&self) -> u64
        ensures value { result ≡ total_len self.now }
        ensures small { result ≤ 16777216 }
    {
        self.readable + self.writable
    }

    pub fn any_writable(&self) -> bool
        ensures { result ≡ list_any (λ q. q.writable) self.now }
    {
        self.any_writable
    }

    /// Takes the part of a descriptor, unless it is indirect.
    pub fn take(&mut self, d: &Descriptor) -> Result<(), AllocError>
        requires { is_indirect d.now ≡ false → total_len self.old + d.now.len ≤ 16777216 }
        ensures ok { OnOk result (self.new ≡ with_part self.old d.now) }
        ensures err { OnErr result (self.new ≡ self.old) }
    {
        if is_indirect(d) {
            return Ok(());
        }
        let part = part_of(d);
        self.parts.push(part)?;
        if part.writable {
            self.writable += part.len as u64;
            self.any_writable = true;
        } else {
            self.readable += part.len as u64;
        }
        Ok(())
    }

    pub fn into_chain(self, head: u16) -> Chain
        ensures { result ≡ chain_of head self }
    {
        Chain {
            head,
            parts: self.parts,
            readable: self.readable,
            writable: self.writable,
        }
    }
}
