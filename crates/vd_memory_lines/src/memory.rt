//! A device's memory.

ghost use Rattle.std.specs.Prelude.{◌≡◌, ◌+◌, ◌*◌, ◌/◌, ◌<◌, ◌≤◌, ◌∷◌, ◌++◌, ◌||◌, nat_lt, List, [], length, replicate, None, IfOk, OnOk};
ghost use Rattle.vd_bounce.specs.Frames.{held_count, Holds, Keeps};
ghost use Rattle.vd_model.specs.Setting.{Setting};
ghost use Rattle.vd_model.specs.Acts.{Act, Node, State, Closed};
ghost use Rattle.vd_model.specs.State.{Cleared};
ghost use Rattle.vd_model.specs.Live.{live_mappings, live_regions, registration_of};
ghost use Rattle.vd_model.specs.NodeTurns.{registration_end};
ghost use Rattle.vd_pool.specs.Memory as pool;

use std::alloc::{AllocError, Global};
use vd_buffers::Buffers;
use vd_domain::Domain;
use vd_pool::Pool;

/// What is mapped, shared and registered on a device, and its driver's buffers. It holds frames of a pool, so it can't
/// be dropped.
pub struct Memory {
    pub alloc: Global,
    pub domain: Domain,
    pub buffers: Buffers,
    /// Bytes on their way to whoever hears them, which the next line uses again.
    pub(crate) scratch: Vec<u8>,
}

impl Memory {
    ghost use Rattle.vd_memory_lines.specs.Rest.{KeepsRest, KeepsFrames};
    ghost use Rattle.vd_memory_lines.specs.Stands.{Stands, IsHeld};

    /// A memory with no buffer and nothing mapped: so many slots of bounce memory, then coherent memory up to
    /// `iova_slots`, and pages of `per_page` slots.
    pub fn new(
        alloc: Global,
        bounce_slots: u32,
        iova_slots: u32,
        per_page: u32,
    ) -> Result<Memory, AllocError>
        requires some { 0 < per_page }
        requires few { per_page ≤ 16 }
        requires whole { bounce_slots ≡ per_page * (bounce_slots / per_page) }
        requires low { 2 * per_page ≤ bounce_slots }
        requires order { bounce_slots < iova_slots }
        requires small { iova_slots ≤ 65536 }
        ensures stands { IfOk result
            (λ k. (x : Setting) (m : pool.PoolMemory) → x.bounce ≡ bounce_slots →
            x.iova ≡ iova_slots → x.per_page ≡ per_page → Stands x [] k m) }
        ensures held { IfOk result (λ k. (m : pool.PoolMemory) → m.per_page ≡ per_page → IsHeld k m) }
        ensures counts { IfOk result (λ k. (k.domain.maps ≡ 0) × (k.domain.made ≡ 0)) }
    {
        Ok(Memory {
            alloc,
            domain: Domain::new(alloc, bounce_slots, iova_slots, per_page)?,
            buffers: Buffers::new(alloc),
            scratch: Vec::new(alloc),
        })
    }

    /// Ends the daemon's session: the registration, where one stands, and then the area.
    pub fn end_session(&mut self, pool: &mut Pool)
        requires { IsHeld self.old pool.old }
        ensures stands { (x : Setting) (acts : List Act) → Stands x acts self.old pool.old
            → Stands x (Node Closed ∷ registration_end (registration_of acts) ++ acts) self.new pool.new }
        ensures rest { KeepsRest self.old self.new pool.old pool.new }
    {
        self.domain.end_session(pool);
    }

    /// Ends the bounce region, as a reset of the device does. Mappings, regions and buffers stay.
    pub fn reset(&mut self)
        ensures stands { (x : Setting) (acts : List Act) (m : pool.PoolMemory) →
            Stands x acts self.old m → Stands x (State Cleared ∷ acts) self.new m }
        ensures rest { KeepsFrames self.old self.new }
    {
        self.domain.reset_bounce();
    }

    /// Whether a mapping or a coherent region is live.
    pub fn is_live(&self) -> bool
        ensures { (x : Setting) (acts : List Act) (m : pool.PoolMemory) → Stands x acts self.now m
            → result ≡ (nat_lt 0 (length (live_mappings acts)) || nat_lt 0 (length (live_regions acts))) }
    {
        self.domain.live() > 0
    }

    /// Gives every frame back and keeps nothing.
    pub fn discard(self, pool: &mut Pool)
        requires { Holds self.domain.bounce.frames pool.old }
        ensures kept { Keeps self.domain.bounce.frames (replicate 0 None) pool.old pool.new }
        ensures back { pool.new.spare ≡ pool.old.spare + held_count self.domain.bounce.frames }
    {
        let Memory {
            alloc: _,
            domain,
            buffers: _,
            scratch: _,
        } = self;
        domain.discard(pool);
    }

    /// Room for so many bytes on their way.
    pub(crate) fn take_room(&mut self, len: usize) -> Result<(), AllocError>
        ensures room { OnOk result (len ≤ length self.new.scratch.items) }
        ensures rest { self.new ≡ record self.old { scratch = self.new.scratch } }
    {
        if self.scratch.len() < len {
            self.scratch.resize(len, 0)?;
        }
        Ok(())
    }
}
