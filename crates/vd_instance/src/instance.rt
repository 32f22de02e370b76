//! A device and its queues.

ghost use Rattle.std.specs.Prelude.{◌≡◌, ◌+◌, ◌<◌, [], ◌∷◌, ℕ, List, None, IfOk, replicate, ◌||◌};
ghost use Rattle.vd_pool.specs.Memory.{PoolMemory};
ghost use Rattle.vd_bounce.specs.Frames.{held_count, Holds, Keeps};
ghost use Rattle.vd_model.specs.Setting.{Setting};
ghost use Rattle.vd_model.specs.Creation.{Creation};
ghost use Rattle.vd_model.specs.Acts.{Act, Message_act, Node, Bus, Opened, Attached};
ghost use Rattle.vd_model.specs.Acts as act;
ghost use Rattle.vd_model.specs.State.{Max_set};
ghost use Rattle.vd_model.specs.Messages.{Elapsed};
ghost use Rattle.vd_model.specs.Live.{is_open, is_attached};
ghost use Rattle.vd_model.specs.ControlTurns.{plain_creation};
ghost use Rattle.vd_device.specs.Sizes.{AreFit, IsSized};
ghost use Rattle.vd_device.specs.Stands as kept;

use crate::daemons::{HeldDaemon, new_daemons};
use crate::drivers::no_drivers;
use std::alloc::{AllocError, Global};
use vd_device::{Device, Sizes};
use vd_num::Bytes;
use vd_pool::Pool;
use vd_request_lines::HeldDriver;

/// The features of a device that is made ready: VERSION_1, ACCESS_PLATFORM, FLUSH, INDIRECT_DESC and EVENT_IDX.
const FEATURES: u64 = 0x3_3000_0200;

/// How many bytes of config space it has.
const CONFIG_LEN: usize = 36;

/// The largest size of its queue.
const LARGEST: u16 = 256;

/// Opens a session on a new device, sets up its first queue, and puts it on the bus.
fn make_ready(device: &mut Device)
    ensures stands { (x : Setting) (made : Creation) (m : PoolMemory) → 0 < made.queues →
        kept.Stands x made [] device.old m
        → kept.Stands x made (Bus Attached ∷ act.State (Max_set 0 256) ∷ Node Opened ∷ []) device.new m }
    ensures memory { device.new.memory ≡ device.old.memory }
    ensures within { kept.IsWithin 0 device.old → kept.IsWithin 1 device.new }
{
    device.path.sessions = 1;
    device.path.opened = true;
    // It has the queue, so it isn't refused.
    let _set = device.path.state.set_max(0, LARGEST);
    device.path.attached = true;
}

/// What a device is made with: its features, how many queues it has, and the bytes of its config space.
#[derive(Drop)]
pub struct Offer {
    pub features: u64,
    pub queues: u32,
    pub config: Bytes,
}

/// A device, and a place for the driver's and the block daemon's side of each of its queues. It holds frames of a pool, so it
/// can't be dropped.
pub struct Instance {
    pub device: Device,
    pub drivers: Vec<Option<HeldDriver>>,
    pub daemons: Vec<HeldDaemon>,
}

impl Instance {
    ghost use Rattle.vd_instance.specs.Stands.{Stands, IsHeld, IsNamed, IsWithin, frames};

    /// A device of this name to which nothing was done.
    pub fn new(
        alloc: Global,
        name: &[u8],
        offer: Offer,
        sizes: Sizes,
    ) -> Result<Instance, AllocError>
        requires { AreFit sizes }
        ensures stands { IfOk result (λ i. (x : Setting) (m : PoolMemory) → IsSized x sizes
            → Stands x (record { features = offer.features; queues = offer.queues; config = offer.config }) [] i m) }
        ensures held { IfOk result (λ i. (m : PoolMemory) → m.per_page ≡ sizes.per_page → IsHeld i m) }
        ensures within { IfOk result (λ i. IsWithin 0 i) }
        ensures named { IfOk result (λ i. IsNamed name.now i) }
    {
        let Offer {
            features,
            queues,
            config,
        } = offer;
        let drivers = no_drivers(alloc, queues)?;
        let daemons = new_daemons(alloc, name, queues)?;
        let device = Device::new(alloc, features, queues, config, sizes)?;
        Ok(Instance {
            device,
            drivers,
            daemons,
        })
    }

    /// A device of one queue that is open, set up and on the bus.
    pub fn ready(alloc: Global, name: &[u8], sizes: Sizes) -> Result<Instance, AllocError>
        requires { AreFit sizes }
        ensures stands { IfOk result (λ i. (x : Setting) (m : PoolMemory) → IsSized x sizes
            → Stands x plain_creation (Bus Attached ∷ act.State (Max_set 0 256) ∷ Node Opened ∷ []) i m) }
        ensures held { IfOk result (λ i. (m : PoolMemory) → m.per_page ≡ sizes.per_page → IsHeld i m) }
        ensures within { IfOk result (λ i. IsWithin 1 i) }
        ensures named { IfOk result (λ i. IsNamed name.now i) }
    {
        let config = Bytes::from_vec(vec![in alloc; 0; CONFIG_LEN]?);
        let drivers = no_drivers(alloc, 1)?;
        let daemons = new_daemons(alloc, name, 1)?;
        let mut device = Device::new(alloc, FEATURES, 1, config, sizes)?;
        make_ready(&mut device);
        Ok(Instance {
            device,
            drivers,
            daemons,
        })
    }

    /// Tells the time.
    pub fn tick(&mut self, now: u64)
        ensures stands { (x : Setting) (made : Creation) (done : List Act) (m : PoolMemory) →
            Stands x made done self.old m
            → Stands x made (Message_act (Elapsed now) ∷ done) self.new m }
        ensures memory { self.new.device.memory ≡ self.old.device.memory }
        ensures within { (most : ℕ) → IsWithin most self.old → IsWithin most self.new }
        ensures named { (name : List ℕ) → IsNamed name self.old → IsNamed name self.new }
    {
        self.device.tick(now);
    }

    /// Whether it is open or on the bus.
    pub fn is_in_use(&self) -> bool
        ensures { (x : Setting) (made : Creation) (done : List Act) (m : PoolMemory) → Stands x made done self.now m
            → result ≡ (is_open done || is_attached done) }
    {
        self.device.is_in_use()
    }

    /// Gives every frame back and keeps nothing.
    pub fn discard(self, pool: &mut Pool)
        requires { Holds (frames self) pool.old }
        ensures kept { Keeps (frames self) (replicate 0 None) pool.old pool.new }
        ensures back { pool.new.spare ≡ pool.old.spare + held_count (frames self) }
    {
        let Instance {
            device,
            drivers: _,
            daemons: _,
        } = self;
        device.discard(pool);
    }
}
