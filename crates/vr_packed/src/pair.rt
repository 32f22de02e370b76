//! The pair of both sides.
ghost use Rattle.std.specs.Prelude.{◌≡◌, ◌*◌, ◌-◌, ◌<◌, ◌≤◌, ℕ, length, vec_capacity, nat_lt, IfOk};
ghost use Rattle.std.specs.VecDeque.{deque_capacity};
ghost use Rattle.vr_pair.specs.QueueLists.{QueueLists, empty_lists};
ghost use Rattle.vr_packed.specs.Lies.{one_if, occurs};
ghost use Rattle.vr_packed.specs.Packed.{PackedStands};
ghost use Rattle.vr_packed.specs.State.{sides_of, IsStood, WaitingLie};

use crate::chain::{ChainRecord, TakenChain};
use crate::sides::{DeviceSide, DriverSide};
use crate::steps::{all_ids, read_chain, take_out, write_chain, write_used};
use std::alloc::{AllocError, Global};
use std::collections::VecDeque;
use vr_pair::{Pair, PairError, Part, Parts, UsedChain};
use vr_slots::Slots;

/// Both sides of a packed queue, with the memory of its ring.
#[derive(Drop)]
pub struct PackedPair {
    slots: Slots,
    driver: DriverSide,
    device: DeviceSide,
    ghost room_for_ids: { length slots ≤ vec_capacity driver.free },
    ghost room_for_taken: { length slots ≤ deque_capacity device.taken },
    ghost stood: { ∥ IsStood (sides_of slots driver device) ∥₁ },
}

impl PackedPair {
    /// A queue to which nothing was added. Memory for descriptors is taken here alone.
    pub fn new(alloc: Global, size: u16) -> Result<PackedPair, AllocError>
        requires some { 0 < size }
        requires small { size ≤ 32768 }
        ensures lists { IfOk result
            (λ pair. PackedStands (sides_of pair.slots pair.driver pair.device) (empty_lists size)) }
        ensures placed { IfOk result (λ pair. pair.driver.placed ≡ 0) }
    {
        let count = size as usize;
        let slots = Slots::new(alloc, size)?;
        let no_record = ChainRecord {
            number: 0,
            count: 0,
        };
        let driver = DriverSide {
            placed: 0,
            reclaimed: 0,
            added: 0,
            free: all_ids(alloc, size)?,
            records: vec![in alloc; no_record; count]?,
        };
        let device = DeviceSide {
            read: 0,
            written: 0,
            given: 0,
            taken: VecDeque::with_capacity(alloc, count)?,
        };
        Ok(PackedPair {
            slots,
            driver,
            device,
        })
    }

    /// The bytes of the ring, 16 for each descriptor. The parts of the chains that wait stand there in order, from the
    /// place on that is the count of parts of all chains that `next` has given.
    pub fn slots(&self) -> &[u8]
        ensures len { length result.now ≡ length self.now.slots * 16 }
        ensures waiting { (q : QueueLists) →
            PackedStands (sides_of self.now.slots self.now.driver self.now.device) q →
            WaitingLie result.now q }
    {
        self.slots.as_bytes()
    }
}

impl Pair for PackedPair {
    ghost use Rattle.vr_pair.specs.QueueLists.{QueueLists};
    ghost use Rattle.vr_packed.specs.Packed.{PackedStands};
    ghost use Rattle.vr_packed.specs.State.{sides_of};

    ghost stands = { λ pair q. PackedStands (sides_of pair.slots pair.driver pair.device) q };

    ghost placed = { λ pair. pair.driver.placed };

    ghost placed_is = { λ pair q h. h.counts.placed };

    fn add(&mut self, parts: &[Part]) -> Result<u64, PairError> {
        let place = self.driver.placed;
        let number = self.driver.added;
        let held = (place - self.driver.reclaimed) as usize;
        if parts.len() > self.slots.len() - held {
            return Err(PairError::Full);
        }
        let Some(id) = self.driver.free.pop() else {
            unreachable!()
        };
        write_chain(&mut self.slots, place, id, parts);
        self.driver.records[id as usize] = ChainRecord {
            number,
            count: parts.len() as u16,
        };
        self.driver.placed = place + parts.len() as u64;
        self.driver.added = number + 1;
        Ok(number)
    }

    fn next(&mut self, into: &mut Parts) -> Result<Option<u64>, AllocError> {
        let place = self.device.read;
        let number = self.device.given;
        if !self.slots.get(place).is_available(self.slots.wrap(place)) {
            return Ok(None);
        }
        into.clear();
        let id = read_chain(&self.slots, place, into)?;
        let count = into.as_slice().len();
        self.device.taken.push_back_reserved(TakenChain {
            number,
            id,
            count: count as u16,
        });
        self.device.read = place + count as u64;
        self.device.given = number + 1;
        Ok(Some(number))
    }

    fn used(&mut self, number: u64, len: u32) -> bool {
        let Some(chain) = take_out(&mut self.device.taken, number) else {
            return false;
        };
        write_used(&mut self.slots, self.device.written, chain.id, len);
        self.device.written += chain.count as u64;
        true
    }

    fn reclaim(&mut self) -> Option<UsedChain> {
        let place = self.driver.reclaimed;
        let slot = self.slots.get(place);
        if !slot.is_used(self.slots.wrap(place)) {
            return None;
        }
        let record = self.driver.records[slot.id as usize];
        self.driver.free.push_reserved(slot.id);
        self.driver.reclaimed = place + record.count as u64;
        Some(UsedChain {
            number: record.number,
            len: slot.len,
        })
    }
}
