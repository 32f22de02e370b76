//! The guest's memory behind its table.

ghost use Rattle.std.specs.Prelude.{◌≡◌, ◌+◌, ◌≤◌, ℕ, List, [], length, slice_index, unwrap_or, nat_le, IfOk, IfSome};
ghost use Rattle.vd_model.specs.AreaTurns.{first_region};
ghost use Rattle.vd_model.specs.Puts.{byte_in, each_from};
ghost use Rattle.vd_model.specs.declared.memory.Region.{Region as Span};
ghost use Rattle.vd_vhost_model.specs.GuestTable.{first_denial};
ghost use Rattle.vd_vhost_model.specs.declared.access.Access.TheVariants.{Write};
ghost use Rattle.vd_guest.specs.Kept.{AreWithin, StandsFor};
ghost use Rattle.vd_guest.specs.Parts.{Loads, Stores};

use crate::part::{bytes_of, denial, load, store, write};
use std::alloc::{AllocError, Global};
use std::marker::Model;
use vd_model::Region;
use vd_num::Range;
use vd_regions::Regions;
use vd_vhost_model::{Access, Denied};

/// The guest's memory, and the regions through which a daemon accesses it.
#[derive(Drop)]
pub struct Guest {
    memory: Vec<u8>,
    regions: Regions,
}

impl Model for Guest {
    ghost use Rattle.std.specs.Prelude.{length};
    ghost use Rattle.vd_guest.specs.Kept.{GuestParts, AreWithin};

    ghost Value = { GuestParts };

    ghost view = { λ g. record { memory = g.memory.items; regions = g.regions } };

    ghost invariant = { λ g. AreWithin (length g.memory.items) g.regions };
}

impl Guest {
    /// A memory of so many zero bytes, and no regions.
    pub fn new(alloc: Global, bytes: u64) -> Result<Guest, AllocError>
        ensures size { IfOk result (λ g. length g.memory ≡ bytes) }
        ensures zeros { IfOk result (λ g. (o : ℕ) → slice_index g.memory o ≡ 0) }
        ensures none { IfOk result (λ g. g.regions ≡ []) }
    {
        Ok(Guest {
            memory: vec![in alloc; 0; bytes as usize]?,
            regions: Regions::new(alloc),
        })
    }

    /// How many bytes the memory has.
    pub fn size(&self) -> u64
        ensures { result ≡ length self.now.memory }
    {
        self.memory.len() as u64
    }

    /// Whether these bytes, `len` from `offset` on, are all of the memory.
    pub fn has(&self, offset: u64, len: u64) -> bool
        ensures { result ≡ nat_le (offset + len) (length self.now.memory) }
    {
        offset <= self.size() && len <= self.size() - offset
    }

    /// The bytes of the memory from `offset` on.
    pub fn peek(&self, offset: u64, len: u64) -> &[u8]
        requires { offset + len ≤ length self.now.memory }
        ensures { (f : ℕ → ℕ) → ((o : ℕ) → slice_index self.now.memory o ≡ f o) →
            result.now ≡ each_from f offset len }
    {
        bytes_of(&self.memory, offset as usize, len as usize)
    }

    /// Writes bytes of the memory.
    pub fn poke(&mut self, offset: u64, bytes: &[u8])
        requires { offset + length bytes.now ≤ length self.old.memory }
        ensures bytes { (o : ℕ) →
            slice_index self.new.memory o
            ≡ unwrap_or (byte_in bytes.now offset o) (slice_index self.old.memory o) }
        ensures size { length self.new.memory ≡ length self.old.memory }
        ensures regions { self.new.regions ≡ self.old.regions }
    {
        write(&mut self.memory, offset as usize, bytes);
    }

    /// Sets the whole table, which lies within the memory.
    pub fn set_table(&mut self, regions: Regions)
        requires { AreWithin (length self.old.memory) regions }
        ensures regions { self.new.regions ≡ regions }
        ensures memory { self.new.memory ≡ self.old.memory }
    {
        self.regions = regions;
    }

    /// The region of least start that overlaps the range.
    pub fn first(&self, range: Range) -> Option<Region>
        ensures { result ≡ first_region self.now.regions range.start range.last }
    {
        self.regions.first(range)
    }

    /// Adds the bytes that `len` addresses from `at` on show, or tells what denies the access. In the latter
    /// case, and without memory, nothing is said of what was added.
    pub fn load(&self, at: u64, len: u64, into: &mut Vec<u8>) -> Result<Option<Denied>, AllocError>
        ensures { (given : List Span) → StandsFor given self.now.regions →
            IfOk result (λ told. Loads given self.now.memory at len into.old.items into.new.items told) }
    {
        load(&self.regions, &self.memory, at, len, into)
    }

    /// Stores all bytes at the addresses from `at` on, or none and tells what denies the access.
    pub fn store(&mut self, at: u64, bytes: &[u8]) -> Option<Denied>
        ensures told { (given : List Span) → StandsFor given self.old.regions →
            result ≡ first_denial given Write at (length bytes.now) }
        ensures stored { (given : List Span) → StandsFor given self.old.regions →
            Stores given at bytes.now self.old.memory self.new.memory }
        ensures denied { IfSome result (λ why. self.new.memory ≡ self.old.memory) }
        ensures size { length self.new.memory ≡ length self.old.memory }
        ensures regions { self.new.regions ≡ self.old.regions }
    {
        let len = bytes.len() as u64;
        let denied = denial(&self.regions, self.memory.len(), Access::Write, at, len);
        if denied.is_none() {
            store(&self.regions, &mut self.memory, at, bytes);
        }
        denied
    }
}
