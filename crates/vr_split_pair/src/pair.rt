//! The pair of both sides.
ghost use Rattle.std.specs.Prelude.{◌≡◌, ◌≤◌, IfOk};
ghost use Rattle.std.specs.VecDeque.{deque_capacity};
ghost use Rattle.vd_model.specs.Rings.{IsRingSize};
ghost use Rattle.vr_pair.specs.QueueLists.{empty_lists};
ghost use Rattle.vr_split_pair.specs.Split.{SplitStands};
ghost use Rattle.vr_split_pair.specs.State.{sides_of, IsStood};

use crate::chain::{Chains, TakenChain};
use crate::steps::{accept, complete, copy, front, place, push_used, resume, take_out};
use std::alloc::{AllocError, Global};
use std::collections::VecDeque;
use vd_model::RingPlace;
use vr_device::DeviceRing;
use vr_driver::DriverRing;
use vr_pair::{Pair, PairError, Part, Parts, UsedChain};
use vr_split::{VecMem, layout_of};

/// Both sides of a split queue, with the memory of its ring.
#[derive(Drop)]
pub struct SplitPair {
    alloc: Global,
    memory: VecMem,
    driver: DriverRing,
    device: DeviceRing,
    chains: Chains,
    ghost room_for_taken: { driver.place.size ≤ deque_capacity chains.taken },
    ghost stood: { ∥ IsStood (sides_of memory driver device chains) ∥₁ },
}

impl SplitPair {
    /// A queue to which nothing was added. Memory for descriptors is taken here alone.
    pub fn new(alloc: Global, size: u16) -> Result<SplitPair, AllocError>
        requires { IsRingSize size }
        ensures lists { IfOk result
            (λ pair. SplitStands (sides_of pair.memory pair.driver pair.device pair.chains) (empty_lists size)) }
        ensures placed { IfOk result (λ pair. pair.chains.placed ≡ 0) }
    {
        let layout = layout_of(size);
        let place = RingPlace {
            size,
            desc: 0,
            driver: layout.driver_at,
            device: layout.device_at,
        };
        let mut memory = VecMem::new(0, vec![in alloc; 0; layout.bytes as usize]?);
        let device = resume(&mut memory, place);
        let chains = Chains {
            numbers: vec![in alloc; 0; size as usize]?,
            taken: VecDeque::with_capacity(alloc, size as usize)?,
            added: 0,
            placed: 0,
        };
        Ok(SplitPair {
            alloc,
            memory,
            driver: DriverRing::new(alloc, place)?,
            device,
            chains,
        })
    }
}

impl Pair for SplitPair {
    ghost use Rattle.vr_pair.specs.QueueLists.{QueueLists};
    ghost use Rattle.vr_split_pair.specs.Split.{SplitStands};
    ghost use Rattle.vr_split_pair.specs.State.{sides_of};

    ghost stands = { λ pair q. SplitStands (sides_of pair.memory pair.driver pair.device pair.chains) q };

    ghost placed = { λ pair. pair.chains.placed };

    ghost placed_is = { λ pair q h. h.counts.placed };

    fn add(&mut self, parts: &[Part]) -> Result<u64, PairError> {
        let Ok(head) = place(&mut self.driver, &mut self.memory, parts) else {
            return Err(PairError::Full);
        };
        let number = self.chains.added;
        self.chains.numbers[head as usize] = number;
        self.chains.added = number + 1;
        self.chains.placed += parts.len() as u64;
        Ok(number)
    }

    fn next(&mut self, into: &mut Parts) -> Result<Option<u64>, AllocError> {
        let Some(chain) = front(self.alloc, &self.device, &mut self.memory)? else {
            return Ok(None);
        };
        into.clear();
        copy(chain.parts.as_slice(), into)?;
        accept(&mut self.device, &mut self.memory);
        let number = self.chains.numbers[chain.head as usize];
        self.chains.taken.push_back_reserved(TakenChain {
            number,
            head: chain.head,
        });
        Ok(Some(number))
    }

    fn used(&mut self, number: u64, len: u32) -> bool {
        let Some(chain) = take_out(&mut self.chains.taken, number) else {
            return false;
        };
        push_used(&mut self.device, &mut self.memory, chain.head, len);
        true
    }

    fn reclaim(&mut self) -> Option<UsedChain> {
        let done = complete(&mut self.driver, &mut self.memory)?;
        Some(UsedChain {
            number: self.chains.numbers[done.head as usize],
            len: done.len,
        })
    }
}
