//! The block daemon's side of a queue.
ghost use Rattle.std.specs.Prelude.{◌≡◌, ◌≢◌, ◌<◌, ◌≤◌, ◌+◌, ◌↔◌, Some, None, Err, IsErr, IsSome, OnOk, OnErr, IfOk};
ghost use Rattle.std.specs.Option.{option_map, option_copied, ForSome};
ghost use Rattle.vd_model.specs.Creation.{has_feature};
ghost use Rattle.vd_model.specs.Rings.{number16, used_index_at};
ghost use Rattle.vr_split.specs.Reach.{KeepsReach};
ghost use Rattle.blk_daemon.specs.Errors.{IsUnlessMemory};
ghost use Rattle.blk_daemon.specs.Fetched.{fetched_of, held_given, held_with, with_event_of, TakesUp};
ghost use Rattle.blk_daemon.specs.Held.{Held, idle, payload_in, chain_in, to_execute};
ghost use Rattle.vd_model.specs.Queues.{Execution};
ghost use Rattle.vd_model.specs.DaemonTurns.{Hand};
ghost use Rattle.vr_device.specs.Side.{Side};
ghost use Rattle.blk_daemon.specs.Executed.{IsExecuted};
ghost use Rattle.blk_daemon.specs.Finished.{Finishes, executed_in, finished_held, OnRequest};

use crate::disk::{Device, Executed};
use crate::error::{FetchError, FinishError, NoRequest};
use crate::features::{EVENT_IDX, has_feature};
use crate::fetch;
use crate::finish::{self, Finished};
use crate::request::{Fetched, Request};
use blk_proto::Window;
use std::alloc::Global;
use std::marker::Model;
use vd_io::Image;
use vd_model::{Chain, Name, RingPlace};
use vr_device::DeviceRing;
use vr_split::Mem;
use vr_split::fields::used_index;

/// The block daemon's side of a queue: its ring, once it has a position there, and the request in hand.
#[derive(Drop)]
pub struct BlkQueue {
    alloc: Global,
    name: Name,
    ring: Option<DeviceRing>,
    request: Option<Request>,
}

impl Model for BlkQueue {
    ghost use Rattle.std.specs.Prelude.{IsSome};
    ghost use Rattle.blk_daemon.specs.Held.{Held};

    ghost Value = { Held };

    ghost view = { λ q. record { name = q.name; side = q.ring; request = q.request } };

    ghost invariant = { λ q. IsSome q.request → IsSome q.ring };
}

impl BlkQueue {
    /// A queue of a device of this name, with no position and nothing in hand.
    pub fn new(alloc: Global, name: Name) -> BlkQueue
        ensures { result ≡ idle name }
    {
        BlkQueue {
            alloc,
            name,
            ring: None,
            request: None,
        }
    }

    /// Forgets the position and the request in hand.
    pub fn stop(&mut self)
        ensures { self.new ≡ idle self.old.name }
    {
        self.ring = None;
        self.request = None;
    }

    /// The bytes after the header of the request in hand, none where nothing is in hand.
    pub fn payload(&self) -> &[u8]
        ensures { result.now ≡ payload_in self.now.request }
    {
        match &self.request {
            Some(request) => request.payload(),
            None => &[],
        }
    }

    /// The chain of the request in hand.
    pub fn chain(&self) -> Option<&Chain>
        ensures { option_copied result ≡ option_map (λ r. chain_in r.hand) self.now.request }
    {
        match &self.request {
            Some(request) => Some(request.chain()),
            None => None,
        }
    }

    /// Takes the request at the position, which begins where the used ring stands. The ring is kept only with a request.
    fn take<M: Mem>(
        &mut self,
        mem: &mut M,
        place: RingPlace,
        features: u64,
    ) -> Result<Request, FetchError>
        requires some { 0 < place.size }
        requires small { place.size ≤ 32768 }
        requires idle { self.old.request ≡ None }
        ensures taken { ForSome (M.told mem.old) (λ m. IsUnlessMemory (held_with result self.new)
            (fetched_of m place (has_feature features 28) (has_feature features 29) self.old)) }
        ensures fresh { IfOk result (λ r. r.outcome ≡ None) }
        ensures never_busy { result ≢ Err FetchError.Busy }
        ensures placed { OnOk result (IsSome self.new.side) }
        ensures name { self.new.name ≡ self.old.name }
        ensures idle { self.new.request ≡ None }
        ensures stays { OnErr result (self.new ≡ self.old) }
        ensures event { OnOk result (ForSome (M.told mem.old) (λ m.
            M.told mem.new ≡ Some (with_event_of (has_feature features 29) self.new.side m))) }
        ensures memory_stays { OnErr result (ForSome (M.told mem.old) (λ m. M.told mem.new ≡ Some m)) }
        ensures memory { KeepsReach M.told M.span M.keeps mem.old mem.new }
        ensures begins { self.old.side ≡ None → ForSome (M.told mem.old) (λ m.
            IfOk (number16 m (used_index_at place)) (λ used. used < 65536)) }
    {
        if let Some(ring) = &mut self.ring {
            return fetch::take(self.alloc, mem, ring, features);
        }
        // The used index at which the position begins is of sixteen bits.
        mem.load16(used_index(&place))?;
        let mut ring = DeviceRing::resume(mem, place)?;
        let request = fetch::take(self.alloc, mem, &mut ring, features)?;
        self.ring = Some(ring);
        Ok(request)
    }

    /// Fetches the request at the position, which is the used index that stands in the ring at the first fetch since `stop`,
    /// and moves on by one. The features are those that the driver accepted. `place` is that of the first fetch.
    pub fn fetch<M: Mem>(
        &mut self,
        mem: &mut M,
        place: RingPlace,
        features: u64,
    ) -> Result<Fetched, FetchError>
        requires some { 0 < place.size }
        requires small { place.size ≤ 32768 }

        ensures fetched { ForSome (M.told mem.old) (λ m. IsUnlessMemory (held_given result self.new)
            (fetched_of m place (has_feature features 28) (has_feature features 29) self.old)) }
        ensures in_hand { IfOk result (TakesUp self.old self.new) }
        ensures busy { (result ≡ Err FetchError.Busy) ↔ IsSome self.old.request }
        ensures stays { OnErr result (self.new ≡ self.old) }

        // With event indices the new position is stored, and else nothing.
        ensures event { OnOk result (ForSome (M.told mem.old) (λ m.
            M.told mem.new ≡ Some (with_event_of (has_feature features 29) self.new.side m))) }
        ensures memory_stays { OnErr result (ForSome (M.told mem.old) (λ m. M.told mem.new ≡ Some m)) }
        ensures memory { KeepsReach M.told M.span M.keeps mem.old mem.new }

        // A position begins at an index of sixteen bits.
        ensures begins { self.old.request ≡ None → self.old.side ≡ None → ForSome (M.told mem.old) (λ m.
            IfOk (number16 m (used_index_at place)) (λ used. used < 65536)) }
    {
        if self.request.is_some() {
            return Err(FetchError::Busy);
        }
        let request = self.take(mem, place, features)?;
        let fetched = request.fetched();
        self.request = Some(request);
        Ok(fetched)
    }

    /// Carries the request in hand out on a window of a disk, and answers its status and whether the disk failed at it.
    pub fn execute<I: Image>(
        &mut self,
        disk: &mut I,
        window: Window,
        offered: u64,
    ) -> Result<Executed, NoRequest>
        requires { window.first + window.count ≤ I.size disk.old }
        ensures refused { IsErr result ↔ (to_execute self.old.request ≡ None) }
        ensures stays { OnErr result (self.new ≡ self.old) }
        ensures disk_stays { OnErr result (disk.new ≡ disk.old) }
        ensures executed { IfOk result (IsExecuted I.content I.faults I.flushes window offered
            self.old disk.old self.new disk.new) }
        ensures size { I.size disk.new ≡ I.size disk.old }
    {
        let Some(request) = &mut self.request else {
            return Err(NoRequest);
        };
        if request.is_executed() {
            return Err(NoRequest);
        }
        let device = Device {
            window,
            offered,
            name: self.name.as_slice(),
        };
        Ok(request.execute(disk, &device))
    }

    /// Gives the request in hand back, with the bytes and the status that it ended with, and tells whether the driver wants
    /// an interrupt. A fault is answered before anything is stored, where the memory tells its bytes; then nothing has
    /// changed, and the request stays in hand. The features are those that the driver accepted.
    pub fn finish<M: Mem>(&mut self, mem: &mut M, features: u64) -> Result<Finished, FinishError>
        ensures refused { (result ≡ Err FinishError.NoRequest) ↔ (executed_in self.old.request ≡ None) }
        ensures finished { (side : Side) (h : Hand) (end : Execution) → self.old.side ≡ Some side
            → self.old.request ≡ Some (record { hand = h; outcome = Some end })
            → ForSome (M.told mem.old) (λ m. Finishes m side (has_feature features 29) h end result (M.told mem.new)) }
        ensures len { IfOk result (λ f. OnRequest self.old.request (λ h. f.len ≡ h.writable)) }
        ensures done { OnOk result (self.new ≡ finished_held self.old) }
        ensures stays { OnErr result (self.new ≡ self.old) }
        ensures memory { KeepsReach M.told M.span M.keeps mem.old mem.new }
        ensures untouched { result ≡ Err FinishError.NoRequest → mem.new ≡ mem.old }
        ensures placed { IsSome self.old.request → IsSome self.old.side }
    {
        let Some(request) = &self.request else {
            return Err(FinishError::NoRequest);
        };
        if !request.is_executed() {
            return Err(FinishError::NoRequest);
        }
        let Some(ring) = &mut self.ring else {
            return Err(FinishError::NoRequest);
        };
        let finished = finish::give_back(mem, ring, request, has_feature(features, EVENT_IDX))?;
        self.request = None;
        Ok(finished)
    }
}
