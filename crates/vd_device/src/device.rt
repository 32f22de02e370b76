//! A device and its parts.

ghost use Rattle.std.specs.Prelude.{◌≡◌, ◌+◌, [], ◌∷◌, ℕ, List, None, IfOk, replicate, Bool, not, ◌||◌};
ghost use Rattle.vd_pool.specs.Memory.{PoolMemory};
ghost use Rattle.vd_bounce.specs.Frames.{held_count, Holds, Keeps};
ghost use Rattle.vd_model.specs.Setting.{Setting};
ghost use Rattle.vd_model.specs.Creation.{Creation};
ghost use Rattle.vd_model.specs.Acts.{Act, Message_act, Node, Bus, Opened, Attached};
ghost use Rattle.vd_model.specs.Acts as act;
ghost use Rattle.vd_model.specs.State.{Max_set};
ghost use Rattle.vd_model.specs.Messages.{Elapsed};
ghost use Rattle.vd_model.specs.Live.{is_open, is_attached};
ghost use Rattle.vd_model.specs.ControlTurns.{plain_creation};
ghost use Rattle.vd_device.specs.Sizes.{AreFit, IsSized};

use crate::sizes::Sizes;
use std::alloc::{AllocError, Global};
use vd_control_path::ControlPath;
use vd_memory_lines::Memory;
use vd_num::Bytes;
use vd_pool::Pool;

/// A device: what is kept of it beside its memory, and its memory, which holds frames of a pool. So it can't be dropped.
pub struct Device {
    pub path: ControlPath,
    pub memory: Memory,
}

impl Device {
    ghost use Rattle.vd_device.specs.Stands.{Stands, IsHeld, IsWithin, frames};

    /// A device to which nothing was done, which offers these features and has so many queues and these bytes of config
    /// space.
    pub fn new(
        alloc: Global,
        features: u64,
        queues: u32,
        config: Bytes,
        sizes: Sizes,
    ) -> Result<Device, AllocError>
        requires { AreFit sizes }
        ensures stands { IfOk result (λ d. (x : Setting) (m : PoolMemory) → IsSized x sizes
            → Stands x (record { features = features; queues = queues; config = config }) [] d m) }
        ensures held { IfOk result (λ d. (m : PoolMemory) → m.per_page ≡ sizes.per_page → IsHeld d m) }
        ensures within { IfOk result (λ d. IsWithin 0 d) }
    {
        Ok(Device {
            path: ControlPath::new(alloc, features, queues, config)?,
            memory: Memory::new(alloc, sizes.bounce, sizes.iova, sizes.per_page)?,
        })
    }

    /// Tells the time.
    pub fn tick(&mut self, now: u64)
        ensures stands { (x : Setting) (made : Creation) (done : List Act) (m : PoolMemory) →
            Stands x made done self.old m
            → Stands x made (Message_act (Elapsed now) ∷ done) self.new m }
        ensures memory { self.new.memory ≡ self.old.memory }
        ensures within { (most : ℕ) → IsWithin most self.old → IsWithin most self.new }
    {
        self.path.tick(now);
    }

    /// Whether it is open or on the bus.
    pub fn is_in_use(&self) -> bool
        ensures { (x : Setting) (made : Creation) (done : List Act) (m : PoolMemory) → Stands x made done self.now m
            → result ≡ (is_open done || is_attached done) }
    {
        self.path.opened || self.path.attached
    }

    /// Gives every frame back and keeps nothing.
    pub fn discard(self, pool: &mut Pool)
        requires { Holds (frames self) pool.old }
        ensures kept { Keeps (frames self) (replicate 0 None) pool.old pool.new }
        ensures back { pool.new.spare ≡ pool.old.spare + held_count (frames self) }
    {
        let Device { path: _, memory } = self;
        memory.discard(pool);
    }
}
