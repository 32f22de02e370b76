//! The state of a device, and the calls on it.

ghost use Rattle.std.specs.Prelude.{◌≡◌, ◌+◌, ◌<◌, ◌^◌, ◌==◌, ◌&&◌, true, false, not, bit_and, ℕ, List, [], ◌∷◌, Some, IfOk, slice_get};
ghost use Rattle.vd_model.specs.State.{may_have, are_aligned};

use crate::queue::{Queue, are_set_up, clear_all, queue_at, replace};
use bitflags::Flags;
use std::alloc::{AllocError, Global};
use std::marker::Model;
use vd_model::QueueInfo;
use vd_num::{Errno, Status};

/// The feature bit of the I/O address space (virtio 1.2, section 6), which a driver must accept.
const ACCESS_PLATFORM: u64 = 1 << 33;

/// The largest size of a split virtqueue (virtio 1.2, section 2.7).
const MAX_SIZE: u32 = 32768;

/// Whether a driver may accept the features of a device that offers these.
fn is_acceptable(value: u64, offered: u64) -> bool
    ensures { result ≡ ((bit_and value offered == value) && not (bit_and value (2 ^ 33) == 0)) }
{
    value & offered == value && value & ACCESS_PLATFORM != 0
}

/// Whether the size is one that a queue with this largest one may have.
fn is_size(num: u32, max: u16) -> bool
    ensures { result ≡ may_have max num }
{
    num <= MAX_SIZE && num <= u32::from(max) && num.is_power_of_two()
}

/// Whether the addresses of a queue's parts have the alignments of virtio 1.2, section 2.7.
fn is_aligned(desc: u64, driver: u64, device: u64) -> bool
    ensures { result ≡ are_aligned desc driver device }
{
    desc % 16 == 0 && driver % 2 == 0 && device % 4 == 0
}

/// Whether the status says that a driver drives the device.
fn is_driven(status: u8) -> bool
    ensures { result ≡ not (bit_and status 4 == 0) }
{
    Status::from_bits_retain(status).intersects(Status::DRIVER_OK)
}

/// The state of a device.
#[derive(Drop)]
pub struct State {
    status: u8,
    offered: u64,
    features: u64,
    queues: Vec<Queue>,
    /// The config space's interrupt has a callback, and how many of them counted since.
    callback: bool,
    interrupts: u64,
}

impl Model for State {
    ghost use Rattle.vd_state.specs.Kept.{Kept};

    ghost Value = { Kept };

    ghost use Rattle.vd_state.specs.Inside.{kept_of};

    ghost view = { kept_of };
}

impl State {
    ghost use Rattle.vd_model.specs.State as acts;
    ghost use Rattle.vd_state.specs.declared.queue.Queue.{Queue};
    ghost use Rattle.vd_model.specs.State.{StateAct, DeviceShape, is_queue, is_queue_or_config, is_driver_ok, may_accept};
    ghost use Rattle.vd_state.specs.Kept.{CountsWithin, KicksCanRise, InterruptsCanRise, GenerationCanRise, GenerationsCanRise};
    ghost use Rattle.vd_state.specs.Stands.{Stands, Does, Tells, TakesKicks, TakesInterrupts, subject, generation_of};

    /// The state of a new device with so many queues, which offers these features.
    pub fn new(alloc: Global, queues: u32, offered: u64) -> Result<State, AllocError>
        ensures stands { IfOk result (λ s. Stands (record { queues = queues; offered = offered }) [] s) }
        ensures counts { IfOk result (λ s. CountsWithin 0 s) }
    {
        let mut all = Vec::with_capacity(alloc, queues as usize)?;
        for _index in 0..queues {
            all.push(Queue::fresh(0))?;
        }
        Ok(State {
            status: 0,
            offered,
            features: 0,
            queues: all,
            callback: false,
            interrupts: 0,
        })
    }

    /// The features that the device offers.
    pub fn offered(&self) -> u64
        ensures { (made : DeviceShape) (done : List StateAct) → Stands made done self.now →
            result ≡ made.offered }
    {
        self.offered
    }

    /// The device status.
    pub fn status(&self) -> u8
        ensures { (made : DeviceShape) (done : List StateAct) → Stands made done self.now →
            result ≡ acts.device_status done }
    {
        self.status
    }

    /// Sets the device status.
    pub fn set_status(&mut self, value: u8)
        ensures stands { (made : DeviceShape) (done : List StateAct) → Stands made done self.old →
            Stands made (acts.Status_set value ∷ done) self.new }
        ensures counts { (most : ℕ) → CountsWithin most self.old → CountsWithin most self.new }
    {
        self.status = value;
    }

    /// The features that the driver accepted.
    pub fn features(&self) -> u64
        ensures { (made : DeviceShape) (done : List StateAct) → Stands made done self.now →
            result ≡ acts.features_of done }
    {
        self.features
    }

    /// Accepts features: offered ones, and among them that of the I/O address space.
    pub fn set_features(&mut self, value: u64) -> Result<(), Errno>
        ensures does { (made : DeviceShape) (done : List StateAct) → Stands made done self.old →
            Does made done (may_accept made value) (acts.Features_set value) result self.new }
        ensures counts { (most : ℕ) → CountsWithin most self.old → CountsWithin most self.new }
    {
        if !is_acceptable(value, self.offered) {
            return Err(Errno::Inval);
        }
        self.features = value;
        Ok(())
    }

    /// Sets up a queue's largest size.
    pub fn set_max(&mut self, index: u32, max: u16) -> Result<(), Errno>
        ensures does { (made : DeviceShape) (done : List StateAct) → Stands made done self.old →
            Does made done (is_queue made index) (acts.Max_set index max) result self.new }
        ensures counts { (most : ℕ) → CountsWithin most self.old → CountsWithin most self.new }
    {
        let queue = queue_at(&self.queues, index)?;
        replace(&mut self.queues, index, Queue { max, ..queue });
        Ok(())
    }

    /// Chooses a queue's size: a power of two, up to 32,768 and to the largest size.
    pub fn set_num(&mut self, index: u32, num: u32) -> Result<(), Errno>
        requires { GenerationCanRise self.old index }
        ensures does { (made : DeviceShape) (done : List StateAct) → Stands made done self.old →
            Does made done (is_queue made index && may_have (acts.max_of done index) num)
            (acts.Num_set index num) result self.new }
        ensures counts { (most : ℕ) → CountsWithin most self.old → CountsWithin (most + 1) self.new }
    {
        let queue = queue_at(&self.queues, index)?;
        if !is_size(num, queue.max) {
            return Err(Errno::Inval);
        }
        let queue = Queue {
            num,
            generation: queue.generation + 1,
            ..queue
        };
        replace(&mut self.queues, index, queue);
        Ok(())
    }

    /// Sets the addresses of a queue's descriptor table, available ring and used ring, which have
    /// the alignments of virtio 1.2, section 2.7.
    pub fn set_addr(&mut self, index: u32, desc: u64, driver: u64, device: u64) -> Result<(), Errno>
        requires { GenerationCanRise self.old index }
        ensures does { (made : DeviceShape) (done : List StateAct) → Stands made done self.old →
            Does made done (is_queue made index && are_aligned desc driver device)
            (acts.Addr_set index desc driver device) result self.new }
        ensures counts { (most : ℕ) → CountsWithin most self.old → CountsWithin (most + 1) self.new }
    {
        let queue = queue_at(&self.queues, index)?;
        if !is_aligned(desc, driver, device) {
            return Err(Errno::Inval);
        }
        let queue = Queue {
            desc,
            driver,
            device,
            generation: queue.generation + 1,
            ..queue
        };
        replace(&mut self.queues, index, queue);
        Ok(())
    }

    /// Makes a queue ready or not.
    pub fn set_ready(&mut self, index: u32, ready: bool) -> Result<(), Errno>
        requires { GenerationCanRise self.old index }
        ensures does { (made : DeviceShape) (done : List StateAct) → Stands made done self.old →
            Does made done (is_queue made index) (acts.Ready_set index ready) result self.new }
        ensures counts { (most : ℕ) → CountsWithin most self.old → CountsWithin (most + 1) self.new }
    {
        let queue = queue_at(&self.queues, index)?;
        let queue = Queue {
            ready,
            generation: queue.generation + u64::from(!ready),
            ..queue
        };
        replace(&mut self.queues, index, queue);
        Ok(())
    }

    /// Sets the available index that a queue begins at.
    pub fn set_avail(&mut self, index: u32, avail: u16) -> Result<(), Errno>
        ensures does { (made : DeviceShape) (done : List StateAct) → Stands made done self.old →
            Does made done (is_queue made index) (acts.Avail_set index avail) result self.new }
        ensures counts { (most : ℕ) → CountsWithin most self.old → CountsWithin most self.new }
    {
        let queue = queue_at(&self.queues, index)?;
        replace(&mut self.queues, index, Queue { avail, ..queue });
        Ok(())
    }

    /// What is known of a queue.
    pub fn info(&self, index: u32) -> Result<QueueInfo, Errno>
        ensures { (made : DeviceShape) (done : List StateAct) → Stands made done self.now →
            Tells made done index result self.now }
    {
        let queue = queue_at(&self.queues, index)?;
        Ok(queue.info())
    }

    /// How often what the queue describes was set anew or cleared; 0 where there is no such queue.
    pub fn generation(&self, index: u32) -> u64
        ensures there { (made : DeviceShape) (done : List StateAct) → Stands made done self.now →
            is_queue made index ≡ true →
            result ≡ generation_of done index }
        ensures missing { (made : DeviceShape) (done : List StateAct) → Stands made done self.now →
            is_queue made index ≡ false →
            result ≡ 0 }
    {
        match queue_at(&self.queues, index) {
            Ok(queue) => queue.generation,
            Err(_) => 0,
        }
    }

    /// Kicks a queue. A kick of a ready queue without a kick file is remembered.
    pub fn kick(&mut self, index: u32) -> Result<(), Errno>
        requires { KicksCanRise self.old index }
        ensures does { (made : DeviceShape) (done : List StateAct) → Stands made done self.old →
            Does made done (is_queue made index) (acts.Kicked index) result self.new }
        ensures counts { (most : ℕ) → CountsWithin most self.old → CountsWithin (most + 1) self.new }
    {
        let queue = queue_at(&self.queues, index)?;
        replace(&mut self.queues, index, queue.kicked());
        Ok(())
    }

    /// Sets a new kick file of a queue, or removes it.
    pub fn set_kick_file(&mut self, index: u32, on: bool) -> Result<(), Errno>
        ensures does { (made : DeviceShape) (done : List StateAct) → Stands made done self.old →
            Does made done (is_queue made index) (acts.Kick_file_set index on) result self.new }
        ensures counts { (most : ℕ) → CountsWithin most self.old → CountsWithin (most + 1) self.new }
    {
        let queue = queue_at(&self.queues, index)?;
        replace(&mut self.queues, index, queue.with_kick_file(on));
        Ok(())
    }

    /// Takes the count of a queue's kick file, if it has one.
    pub fn take_kicks(&mut self, index: u32) -> Result<Option<u64>, Errno>
        ensures takes { (made : DeviceShape) (done : List StateAct) → Stands made done self.old →
            TakesKicks made done index result self.new }
        ensures counts { (most : ℕ) → CountsWithin most self.old → CountsWithin most self.new }
    {
        let queue = queue_at(&self.queues, index)?;
        match queue.kicks {
            None => Ok(None),
            Some(count) => {
                let rest = Queue {
                    kicks: Some(0),
                    ..queue
                };
                replace(&mut self.queues, index, rest);
                Ok(Some(count))
            }
        }
    }

    /// Sets or removes the callback of a queue's interrupt.
    fn set_queue_callback(&mut self, index: u32, on: bool) -> Result<(), Errno>
        ensures does { (made : DeviceShape) (done : List StateAct) → Stands made done self.old →
            Does made done (is_queue made index) (acts.Callback_set (subject (Some index)) on) result self.new }
        ensures counts { (most : ℕ) → CountsWithin most self.old → CountsWithin most self.new }
    {
        let queue = queue_at(&self.queues, index)?;
        let queue = Queue {
            callback: on,
            interrupts: 0,
            ..queue
        };
        replace(&mut self.queues, index, queue);
        Ok(())
    }

    /// Sets or removes the callback of a queue's interrupt, or of the config space's.
    pub fn set_callback(&mut self, index: Option<u32>, on: bool) -> Result<(), Errno>
        ensures does { (made : DeviceShape) (done : List StateAct) → Stands made done self.old →
            Does made done (is_queue_or_config made (subject index))
            (acts.Callback_set (subject index) on) result self.new }
        ensures counts { (most : ℕ) → CountsWithin most self.old → CountsWithin most self.new }
    {
        match index {
            Some(index) => self.set_queue_callback(index, on),
            None => {
                self.callback = on;
                self.interrupts = 0;
                Ok(())
            }
        }
    }

    /// Injects an interrupt of a queue.
    fn inject_queue(&mut self, index: u32) -> Result<(), Errno>
        requires { (q : Queue) → slice_get self.old.queues index ≡ Some q → q.interrupts < 2 ^ 62 }
        ensures does { (made : DeviceShape) (done : List StateAct) → Stands made done self.old →
            Does made done (is_queue made index) (acts.Injected (subject (Some index))) result self.new }
        ensures counts { (most : ℕ) → CountsWithin most self.old → CountsWithin (most + 1) self.new }
    {
        let queue = queue_at(&self.queues, index)?;
        replace(&mut self.queues, index, queue.injected());
        Ok(())
    }

    /// Injects an interrupt of a queue, or of the config space, which counts where it has a callback
    /// and a queue is ready too. It is refused until the driver drives the device.
    pub fn inject(&mut self, index: Option<u32>) -> Result<(), Errno>
        requires { InterruptsCanRise self.old index }
        ensures does { (made : DeviceShape) (done : List StateAct) → Stands made done self.old →
            Does made done (is_queue_or_config made (subject index) && is_driver_ok done)
            (acts.Injected (subject index)) result self.new }
        ensures counts { (most : ℕ) → CountsWithin most self.old → CountsWithin (most + 1) self.new }
    {
        if !is_driven(self.status) {
            return Err(Errno::Inval);
        }
        match index {
            Some(index) => self.inject_queue(index),
            None => {
                self.interrupts += u64::from(self.callback);
                Ok(())
            }
        }
    }

    /// Takes the count of a queue's interrupt.
    fn take_queue_irqs(&mut self, index: u32) -> Result<u64, Errno>
        ensures takes { (made : DeviceShape) (done : List StateAct) → Stands made done self.old →
            TakesInterrupts made done (subject (Some index)) result self.new }
        ensures counts { (most : ℕ) → CountsWithin most self.old → CountsWithin most self.new }
    {
        let queue = queue_at(&self.queues, index)?;
        let rest = Queue {
            interrupts: 0,
            ..queue
        };
        replace(&mut self.queues, index, rest);
        Ok(queue.interrupts)
    }

    /// Takes the count of a queue's interrupt, or of the config space's.
    pub fn take_irqs(&mut self, index: Option<u32>) -> Result<u64, Errno>
        ensures takes { (made : DeviceShape) (done : List StateAct) → Stands made done self.old →
            TakesInterrupts made done (subject index) result self.new }
        ensures counts { (most : ℕ) → CountsWithin most self.old → CountsWithin most self.new }
    {
        match index {
            Some(index) => self.take_queue_irqs(index),
            None => {
                let count = self.interrupts;
                self.interrupts = 0;
                Ok(count)
            }
        }
    }

    /// Whether each queue has a largest size.
    pub fn all_set_up(&self) -> bool
        ensures { (made : DeviceShape) (done : List StateAct) → Stands made done self.now →
            result ≡ acts.are_set_up done made.queues }
    {
        are_set_up(&self.queues)
    }

    /// Resets the state. The largest sizes and the offered features stay, and a generation of each
    /// queue begins.
    pub fn reset(&mut self)
        requires { GenerationsCanRise self.old.queues }
        ensures stands { (made : DeviceShape) (done : List StateAct) → Stands made done self.old →
            Stands made (acts.Cleared ∷ done) self.new }
        ensures counts { (most : ℕ) → CountsWithin most self.old → CountsWithin (most + 1) self.new }
    {
        self.status = 0;
        self.features = 0;
        clear_all(&mut self.queues);
        self.callback = false;
        self.interrupts = 0;
    }
}
