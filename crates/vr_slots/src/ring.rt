//! The ring: its bytes, a descriptor at a time.
ghost use Rattle.std.specs.Prelude.{◌≡◌, ◌*◌, ◌%◌, ◌<◌, ◌≤◌, length, replicate, IfOk};
ghost use Rattle.vr_slots.specs.Slots.{empty_slot, slot_at, with_slot, wrap_of, slots_in};

use crate::slot::Slot;
use std::alloc::{AllocError, Global};
use std::marker::Model;

/// The descriptors of a ring. Contracts see their list.
#[derive(Drop)]
pub struct Slots {
    held: Vec<[u8; 16]>,
}

impl Model for Slots {
    ghost use Rattle.std.specs.Prelude.{List, ◌≡◌, ◌<◌, ◌≤◌, length, vec_len, map};
    ghost use Rattle.std.specs.List.{All};
    ghost use Rattle.vr_slots.specs.declared.slot.Slot.{Slot};
    ghost use Rattle.vr_slots.specs.Slots.{slot_of};

    ghost Value = { List Slot };

    ghost view = { λ s. map slot_of s.held.items };

    ghost invariant = { λ s. (0 < vec_len s.held) × (vec_len s.held ≤ 32768) × All (λ b. length b ≡ 16) s.held.items };
}

impl Slots {
    /// A ring of zeros.
    pub fn new(alloc: Global, size: u16) -> Result<Slots, AllocError>
        requires some { 0 < size }
        requires small { size ≤ 32768 }
        ensures { IfOk result (λ slots. slots ≡ replicate size empty_slot) }
    {
        let mut held = Vec::with_capacity(alloc, size as usize)?;
        for i in 0..size {
            held.push([0; 16])?;
        }
        Ok(Slots { held })
    }

    /// How many descriptors it has.
    pub fn len(&self) -> usize
        ensures len { result ≡ length self.now }
        ensures some { 0 < result }
        ensures small { result ≤ 32768 }
    {
        self.held.len()
    }

    /// The slot of a place.
    fn index(&self, place: u64) -> usize
        ensures index { result ≡ place % length self.now }
        ensures within { result < length self.now }
    {
        (place % self.held.len() as u64) as usize
    }

    /// The wrap counter at a place.
    pub fn wrap(&self, place: u64) -> bool
        ensures { result ≡ wrap_of (length self.now) place }
    {
        place / self.held.len() as u64 % 2 == 0
    }

    /// The descriptor at a place.
    pub fn get(&self, place: u64) -> Slot
        ensures { result ≡ slot_at self.now place }
    {
        let index = self.index(place);
        Slot::from_bytes(&self.held[index])
    }

    /// Writes the descriptor at a place.
    pub fn set(&mut self, place: u64, slot: Slot)
        ensures { self.new ≡ with_slot self.old place slot }
    {
        let index = self.index(place);
        self.held[index] = slot.to_bytes();
    }

    /// The bytes of the ring, 16 for each descriptor.
    pub fn as_bytes(&self) -> &[u8]
        ensures len { length result.now ≡ length self.now * 16 }
        ensures slots { slots_in (length self.now) result.now ≡ self.now }
    {
        self.held.as_slice().as_flattened()
    }
}
