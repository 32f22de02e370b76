//! The steps of both sides on the ring.
ghost use Rattle.std.specs.Prelude.{◌≡◌, ◌+◌, ◌<◌, ◌≤◌, ◌^◌, ◌++◌, ℕ, List, length, nat_lt, vec_capacity, IfOk, position, ◌==◌};
ghost use Rattle.std.specs.VecDeque.{deque_capacity};
ghost use Rattle.vd_model.specs.declared.parts.Part.{Part};
ghost use Rattle.vr_slots.specs.Slots.{slot_flags, with_slot, wrap_of};
ghost use Rattle.vr_packed.specs.Lies.{ChainLies, chain_written, used_slot, taken_of, without_taken, one_if, occurs};

use crate::chain::TakenChain;
use bitflags::Flags;
use std::alloc::{AllocError, Global};
use std::collections::VecDeque;
use vr_pair::{Part, Parts};
use vr_slots::{Slot, SlotFlags, Slots};

/// The ids of a ring, each once.
pub fn all_ids(alloc: Global, size: u16) -> Result<Vec<u16>, AllocError>
    requires { size ≤ 32768 }
    ensures ids { IfOk result (λ ids. (d : ℕ) → occurs d ids.items ≡ one_if (nat_lt d size)) }
    ensures len { IfOk result (λ ids. length ids.items ≡ size) }
    ensures room { IfOk result (λ ids. size ≤ vec_capacity ids) }
{
    let mut ids = Vec::with_capacity(alloc, size as usize)?;
    for id in 0..size {
        ids.push_reserved(id);
    }
    Ok(ids)
}

/// The flags of a descriptor.
fn flags(next: bool, writable: bool, available: bool, used: bool) -> u16
    ensures { result ≡ slot_flags next writable available used }
{
    let mut flags = 0;
    if next {
        flags |= SlotFlags::NEXT.bits();
    }
    if writable {
        flags |= SlotFlags::WRITE.bits();
    }
    if available {
        flags |= SlotFlags::AVAIL.bits();
    }
    if used {
        flags |= SlotFlags::USED.bits();
    }
    flags
}

/// Writes the parts of a chain from a place on, as available.
pub fn write_chain(slots: &mut Slots, place: u64, id: u16, parts: &[Part])
    requires { place + length parts.now < 2 ^ 64 }
    ensures { slots.new ≡ chain_written slots.old place id parts.now }
{
    for (i, part) in parts.iter().enumerate() {
        let at = place + i as u64;
        let wrap = slots.wrap(at);
        let slot = Slot {
            at: part.at,
            len: part.len,
            id,
            flags: flags(i + 1 < parts.len(), part.writable, wrap, !wrap),
        };
        slots.set(at, slot);
    }
}

/// Reads the chain that stands from a place on behind what is in `into`, and answers its id.
pub fn read_chain(slots: &Slots, place: u64, into: &mut Parts) -> Result<u16, AllocError>
    requires { place + length slots.now < 2 ^ 64 }
    ensures { (id : ℕ) (parts : List Part) → 0 < length parts → length parts ≤ length slots.now →
        ChainLies slots.now place id parts
        → IfOk result (λ found. (found ≡ id) × (into.new ≡ into.old ++ parts)) }
{
    let mut id = 0;
    for i in 0..slots.len() {
        let slot = slots.get(place + i as u64);
        id = slot.id;
        into.push(Part {
            at: slot.at,
            len: slot.len,
            writable: slot.is_writable(),
        })?;
        if !slot.has_next() {
            break;
        }
    }
    Ok(id)
}

/// Writes a used descriptor at a place: the id of the chain, and how many bytes were written.
pub fn write_used(slots: &mut Slots, place: u64, id: u16, len: u32)
    ensures { slots.new ≡ with_slot slots.old place (used_slot id len (wrap_of (length slots.old) place)) }
{
    let wrap = slots.wrap(place);
    let slot = Slot {
        at: 0,
        len,
        id,
        flags: flags(false, len > 0, wrap, wrap),
    };
    slots.set(place, slot);
}

/// Which of the taken chains has a number.
fn index_of(taken: &VecDeque<TakenChain>, number: u64) -> Option<usize>
    ensures { result ≡ position (λ chain. chain.number == number) taken.now.items }
{
    taken.iter().position(|chain| chain.number == number)
}

/// Takes the chain of a number out of those that are taken.
pub fn take_out(taken: &mut VecDeque<TakenChain>, number: u64) -> Option<TakenChain>
    ensures result { result ≡ taken_of number taken.old.items }
    ensures rest { taken.new.items ≡ without_taken number taken.old.items }
    ensures room { deque_capacity taken.new ≡ deque_capacity taken.old }
{
    let index = index_of(taken, number)?;
    taken.remove(index)
}
