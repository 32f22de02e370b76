//! A device's memory as the port of its driver.
ghost use Rattle.std.specs.Prelude.{◌≡◌, ◌+◌, ◌<◌, ◌^◌, ℕ, Some, None, true};
ghost use Rattle.vd_pool.specs.Memory.{is_out};
ghost use Rattle.vd_bounce.specs.Frames.{frame_of, Holds};
ghost use Rattle.vd_driver_port.specs.Reached.{IsReached};

use crate::steps;
use crate::theirs::are_theirs;
use blk_driver::Dma;
use std::alloc::AllocError;
use vd_memory_lines::Memory;
use vd_model::{MapError, Want};
use vd_num::{Bus, Bytes};
use vd_pool::Pool;
use vr_split::Mem;

/// A device's memory and the pool of its frames, lent to the code of its driver.
#[derive(Drop)]
pub struct DriverPort<'a> {
    pub memory: &'a mut Memory,
    pub pool: &'a mut Pool,
    /// How many mappings more it makes: so their numbers have an end.
    pub maps_left: u64,
    pub ghost out: { (page f : ℕ) → frame_of memory.now.domain.bounce.frames page ≡ Some f → is_out pool.now f ≡ true },
    pub ghost apart: { (p q f : ℕ) → frame_of memory.now.domain.bounce.frames p ≡ Some f →
        frame_of memory.now.domain.bounce.frames q ≡ Some f → p ≡ q },
    pub ghost size: { pool.now.per_page ≡ memory.now.domain.bounce.per_page },
    pub ghost room: { memory.now.domain.maps + maps_left < 2 ^ 62 },
    pub ghost reached: { ∥ IsReached memory.now pool.now ∥₁ },
}

impl<'a> Mem for DriverPort<'a> {
    ghost use Rattle.std.proofs.Common.{◌∙◌};
    ghost use Rattle.std.specs.Prelude.{refl};
    ghost use Rattle.vd_domain.specs.Seen.{ring_map};
    ghost use Rattle.vr_split.specs.MemLemmas.{tells, tells_nothing};
    ghost use Rattle.vd_ring_memory.specs.RingPutLemmas.{ring_finite};
    ghost use Rattle.vd_driver_port.specs.Rest.{IsAfterPuts};
    ghost use Rattle.vd_driver_port.specs.RestLemmas.{after_none, after_more};

    ghost told = { λ s. Some (ring_map s.memory.now.domain) };

    ghost span = { λ _. None };

    ghost keeps = { λ s t. (t.memory.ghost_name ≡ s.memory.ghost_name)
        × (t.pool.ghost_name ≡ s.pool.ghost_name) × (t.maps_left ≡ s.maps_left)
        × IsAfterPuts s.memory.now t.memory.now s.pool.now t.pool.now };

    ghost told_ends = { λ s. tells _ _ (ring_finite s.memory.now.domain) };

    ghost span_ends = { λ _. tells_nothing _ };

    ghost keeps_refl = { λ s. (refl, refl, refl, after_none s.memory.now s.pool.now) };

    ghost keeps_trans = { λ a b c h g. (g.0 ∙ h.0, g.1 ∙ h.1, g.2 ∙ h.2, after_more h.3 g.3) };

    fn load(&mut self, at: u64, out: &mut [u8]) -> Result<(), Bus> {
        self.memory.domain.sees_rings();
        self.memory.domain.ring_load(at, out)
    }

    fn store(&mut self, at: u64, bytes: &[u8]) -> Result<(), Bus> {
        self.memory.domain.sees_rings();
        let stored = self.memory.domain.ring_store(at, bytes);
        self.memory.domain.sees_rings();
        stored
    }
}

impl<'a> Dma for DriverPort<'a> {
    ghost use Rattle.std.proofs.Common.{◌∙◌};
    ghost use Rattle.std.specs.Prelude.{◌≤◌, refl};
    ghost use Rattle.vd_memory_lines.specs.Stands.{Stands};
    ghost use Rattle.vd_driver_port.specs.Rest.{KeepsMemory};
    ghost use Rattle.vd_driver_port.specs.RestLemmas.{memory_same, memory_more, after_memory, same_sum, sum_more, after_sum};

    ghost stands = { λ s x acts. Stands x acts s.memory.now s.pool.now };

    ghost keeps_rest = { λ s t. (t.memory.ghost_name ≡ s.memory.ghost_name) × (t.pool.ghost_name ≡ s.pool.ghost_name)
        × KeepsMemory s.memory.now t.memory.now s.pool.now t.pool.now
        × (t.memory.now.domain.maps + t.maps_left ≤ s.memory.now.domain.maps + s.maps_left) };

    /// A range that isn't in its buffer is as much as want of memory.
    fn copy(&self, want: &Want, into: &mut Bytes) -> Result<(), AllocError> {
        match self
            .memory
            .buffers
            .range(want.buffer, want.offset, want.len)
        {
            Ok(text) => into.extend_from_slice(text),
            Err(_) if want.len == 0 => Ok(()),
            Err(_) => Err(AllocError),
        }
    }

    fn fill(&mut self, buffer: u64, offset: u64, bytes: &[u8]) {
        steps::fill(self.memory, buffer, offset, bytes);
    }

    /// It maps what stands in the buffers. Ranges that aren't in them, other bytes, and more mappings than are left are as
    /// much as want of memory.
    fn map_all(&mut self, wants: &[Want], bytes: &[u8]) -> Result<u64, MapError> {
        let count = wants.len() as u64;
        if count > self.maps_left {
            return Err(MapError::Memory);
        }
        if !are_theirs(&self.memory.buffers, wants, bytes) {
            return Err(MapError::Memory);
        }
        self.maps_left -= count;
        steps::map_all(self.memory, self.pool, wants, bytes)
    }

    fn iova(&self, number: u64) -> u64 {
        match self.memory.domain.info(number) {
            Some(info) => info.iova,
            None => 0,
        }
    }

    fn refresh(&mut self, number: u64) {
        steps::refresh(self.memory, self.pool, number);
    }

    fn unmap(&mut self, number: u64) {
        steps::unmap(self.memory, self.pool, number);
    }

    ghost rest_refl = { λ s.
        (refl, refl, memory_same s.memory.now s.pool.now (record { out = s.out; apart = s.apart }), same_sum _) };

    ghost rest_trans = { λ a b c h g. (g.0 ∙ h.0, g.1 ∙ h.1, memory_more h.2 g.2, sum_more g.3 h.3) };

    ghost keeps_more = { λ a b h.
        (h.0, h.1, after_memory (record { out = a.out; apart = a.apart }) h.3, after_sum h.3 h.2) };
}
