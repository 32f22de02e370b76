//! The driver's side of a queue.
ghost use Rattle.std.specs.Prelude.{◌≡◌, ◌≢◌, ◌+◌, ◌<◌, ◌≤◌, ◌^◌, ◌↔◌, ◌++◌, ◌∷◌, ℕ, List, [], length, Err, Some, None, IfOk, IfSome, OnOk, OnErr, true};
ghost use Rattle.std.specs.List.{list_any};
ghost use Rattle.std.specs.Option.{ForSome, option_map, option_map_or};
ghost use Rattle.vd_model.specs.Setting.{Setting};
ghost use Rattle.vd_model.specs.Acts.{Act, Driver as Driver_act, Poked};
ghost use Rattle.vd_model.specs.Live.{maps, live_mappings};
ghost use Rattle.vd_model.specs.Queues.{has_map, made_buffer};
ghost use Rattle.vd_model.specs.Creation.{has_feature};
ghost use Rattle.vd_model.specs.Place.{taken_slots};
ghost use Rattle.vd_model.specs.RingTurns.{unmap_acts, needed_descriptors, placed_mappings};
ghost use Rattle.vr_split.specs.Mem.{IsUnchanged, Becomes};
ghost use Rattle.vr_split.specs.Reach.{RingInReach, KeepsReach};
ghost use Rattle.vr_driver.specs.Side.{unowned_descriptors, next_head, with_chain, all_published, is_waiting};
ghost use Rattle.vr_driver.specs.Driver.{with_parts, with_index, is_kick_needed, next_completion, with_answer};
ghost use Rattle.vr_driver.specs.declared.ring.AddError.TheVariants.{Full, TooLong};
ghost use Rattle.blk_driver.specs.Driver.{Driver, request_in, least_of, made_in, maps_in, pending_of, without_pending};
ghost use Rattle.blk_driver.specs.Asked.{IsAsked, asked_in, draft_of, front_bytes, wants_of};
ghost use Rattle.blk_driver.specs.Buffers.{has_range};
ghost use Rattle.blk_driver.specs.Placed.{Submits};
ghost use Rattle.blk_driver.specs.Polled.{IsOutcome, completion_of, completion_in, driver_after, maps_of, Ends};

use crate::ask::{Ask, Draft};
use crate::dma::Dma;
use crate::features::{EVENT_IDX, has_feature};
use crate::mapping::map_request;
use crate::pending::{self, Pending};
use crate::placing::{Placed, place};
use std::alloc::Global;
use std::marker::Model;
use vd_model::{MapError, Part, RingPlace};
use vr_driver::{AddError, Completion, DriverRing, Published, UsedError};
use vr_split::Mem;

/// A request that was placed: the head of its chain, the available index and whether the device is to be kicked, and the
/// first of its mappings.
#[derive(Clone, Copy, Debug, PartialEq, Eq)]
pub struct Submitted {
    pub head: u16,
    pub idx: u16,
    pub kick: bool,
    pub first_map: u64,
}

/// Why a request isn't placed: too few descriptors are free, there is no place for a mapping, or want of memory.
#[derive(Clone, Copy, Debug, PartialEq, Eq)]
pub enum SubmitError {
    Full,
    NoSpace,
    Memory,
}

/// The buffers that were made for a request: the first, and how many.
#[derive(Clone, Copy, Debug, PartialEq, Eq)]
pub struct Made {
    pub buffer: u64,
    pub count: u8,
}

/// A chain that was used: its head and how many bytes the device says that it wrote; for a request the buffers that were
/// made for it, and whether that is all that the device was to write.
#[derive(Clone, Copy, Debug, PartialEq, Eq)]
pub struct Polled {
    pub head: u16,
    pub len: u32,
    pub made: Option<Made>,
    pub complete: bool,
}

/// The driver's side of a queue: its ring, and the requests that are placed there and not taken back.
#[derive(Drop)]
pub struct BlkDriver {
    alloc: Global,
    ring: DriverRing,
    requests: Vec<Pending>,
}

impl Model for BlkDriver {
    ghost use Rattle.blk_driver.specs.Driver.{Driver};

    ghost Value = { Driver };

    ghost view = { λ d. record { ring = d.ring; pending = d.requests.items } };
}

/// The buffers that were made for a request.
fn made_for(request: &Pending) -> Made
    ensures { result ≡ made_in request.now }
{
    Made {
        buffer: request.buffer,
        count: request.buffers,
    }
}

impl Polled {
    /// How a chain ended, with the request that it was placed for, if there is one.
    fn of(done: Completion, request: Option<Pending>) -> Polled
        ensures ring { completion_of result ≡ done }
        ensures outcome { IsOutcome request result }
    {
        match request {
            Some(request) => Polled {
                head: done.head,
                len: done.len,
                made: Some(made_for(&request)),
                complete: request.writable <= done.len as u64,
            },
            None => Polled {
                head: done.head,
                len: done.len,
                made: None,
                complete: true,
            },
        }
    }
}

impl BlkDriver {
    /// The driver's side of a queue with this ring, and no request.
    pub fn new(alloc: Global, ring: DriverRing) -> BlkDriver
        ensures { result ≡ record { ring = ring; pending = [] } }
    {
        BlkDriver {
            alloc,
            ring,
            requests: Vec::new(alloc),
        }
    }

    /// Where the ring is.
    pub fn place(&self) -> RingPlace
        ensures { result ≡ self.now.ring.place }
    {
        self.ring.place()
    }

    /// How many requests are placed and not taken back.
    pub fn pending(&self) -> u64
        ensures { result ≡ length self.now.pending }
    {
        self.requests.len() as u64
    }

    /// Whether a pending request has a mapping.
    pub fn owns_map(&self, number: u64) -> bool
        ensures { result ≡ list_any (λ p. has_map number (Some (request_in p))) self.now.pending }
    {
        self.requests.iter().any(|request| request.has_map(number))
    }

    /// Whether a buffer was made for a pending request.
    pub fn owns_buffer(&self, number: u64) -> bool
        ensures { result ≡ list_any (λ p. made_buffer number (Some (request_in p))) self.now.pending }
    {
        self.requests
            .iter()
            .any(|request| request.has_buffer(number))
    }

    /// Adds a chain to the ring, as the ring itself does, for no request.
    pub fn add<M: Mem>(&mut self, mem: &mut M, parts: &[Part]) -> Result<u16, AddError>
        requires in_reach { RingInReach (M.told mem.old) (M.span mem.old) self.old.ring.place }
        requires some { 0 < length parts.now }

        ensures too_long { (result ≡ Err TooLong) ↔ (self.old.ring.place.size < length parts.now) }
        ensures full { (result ≡ Err Full) ↔ ((length parts.now ≤ self.old.ring.place.size)
            × (length (unowned_descriptors self.old.ring) < length parts.now)) }
        ensures head { IfOk result (λ head. head ≡ next_head self.old.ring (length parts.now)) }
        ensures state { OnOk result (self.new
            ≡ record self.old { ring = with_chain self.old.ring (length parts.now) }) }
        ensures written { OnOk result (Becomes M.told mem.old mem.new
            (λ m. with_parts m self.old.ring parts.now)) }

        // A refusal changes nothing.
        ensures err { OnErr result (self.new ≡ self.old) }
        ensures err_told { OnErr result (M.told mem.new ≡ M.told mem.old) }

        // The ring is in reach still, and so is all that was.
        ensures in_reach { RingInReach (M.told mem.new) (M.span mem.new) self.new.ring.place }
        ensures memory { KeepsReach M.told M.span M.keeps mem.old mem.new }
    {
        self.ring.add(mem, parts)
    }

    /// Lets the device see all chains that were added, and tells whether it is to be kicked.
    pub fn publish<M: Mem>(&mut self, mem: &mut M, event_idx: bool) -> Published
        requires { RingInReach (M.told mem.old) (M.span mem.old) self.old.ring.place }

        ensures idx { result.idx ≡ self.old.ring.added }
        ensures kick { ForSome (M.told mem.new)
            (λ m. result.kick ≡ is_kick_needed m self.old.ring event_idx) }
        ensures state { self.new ≡ record self.old { ring = all_published self.old.ring } }
        ensures written { Becomes M.told mem.old mem.new (λ m. with_index m self.old.ring) }

        // The ring is in reach still, and so is all that was.
        ensures in_reach { RingInReach (M.told mem.new) (M.span mem.new) self.new.ring.place }
        ensures memory { KeepsReach M.told M.span M.keeps mem.old mem.new }
    {
        self.ring.publish(mem, event_idx)
    }

    /// Places a request: it fills the buffer of this number, of 17 bytes, with the header and the status byte, maps that, the
    /// range that is asked for and, where indirect tables were accepted, the table of its parts, which is the next buffer;
    /// then it adds the chain and publishes it. The tag stands in the header's reserved word. The features are those that
    /// the driver accepted.
    pub fn submit<P: Dma>(
        &mut self,
        port: &mut P,
        ask: Ask,
        buffers: u64,
        tag: u32,
        features: u64,
    ) -> Result<Submitted, SubmitError>
        requires in_reach { RingInReach (P.told port.old) (P.span port.old) self.old.ring.place }
        requires asked { IsAsked ask }
        requires buffers { buffers + 1 < 2 ^ 64 }

        ensures full { (result ≡ Err SubmitError.Full) ↔
            (length (unowned_descriptors self.old.ring) < needed_descriptors (has_feature features 28)
            (asked_in ask)) }
        ensures no_space { result ≡ Err SubmitError.NoSpace → (x : Setting) (acts : List Act) →
            P.stands port.old x acts → has_range acts buffers 0 17 ≡ true →
            placed_mappings x (taken_slots acts) (maps acts) (wants_of (draft_of ask buffers features)) ≡ None }
        ensures submitted { IfOk result
            (λ r. Submits P.told P.span P.keeps P.keeps_rest P.stands port.old
            (draft_of ask buffers features) tag self.old self.new r port.new) }

        // A refusal leaves the queue as it was, and of the port all but the bytes of the buffer.
        ensures err { OnErr result (self.new ≡ self.old) }
        ensures untouched { result ≡ Err SubmitError.Full → port.new ≡ port.old }
        ensures refused { OnErr result (IsUnchanged P.told P.span P.keeps_rest port.old port.new) }
        ensures filled { result ≢ Err SubmitError.Full → (x : Setting) (acts : List Act) →
            P.stands port.old x acts → has_range acts buffers 0 17 ≡ true →
            OnErr result (P.stands port.new x (Driver_act (Poked buffers 0 (front_bytes ask tag)) ∷ acts)) }

        // The ring is in reach still, and so is all that was.
        ensures in_reach { RingInReach (P.told port.new) (P.span port.new) self.new.ring.place }
        ensures memory { KeepsReach P.told P.span P.keeps_rest port.old port.new }
    {
        let draft = Draft::new(ask, buffers, features);
        let free = self.ring.count_free();
        if free < draft.descriptor_count() as usize {
            return Err(SubmitError::Full);
        }
        port.fill(buffers, 0, &ask.front(tag));
        if self.requests.reserve(1).is_err() {
            return Err(SubmitError::Memory);
        }
        match map_request(self.alloc, port, &draft) {
            Ok(first_map) => {
                let Placed { head, published } = place(port, &mut self.ring, &draft, first_map);
                // There is room for it.
                self.requests.push(draft.pending(head, first_map)).unwrap();
                let Published { idx, kick } = published;
                Ok(Submitted {
                    head,
                    idx,
                    kick,
                    first_map,
                })
            }
            Err(MapError::NoSpace) => Err(SubmitError::NoSpace),
            Err(MapError::Memory) => Err(SubmitError::Memory),
            Err(MapError::Empty) => unreachable!(),
        }
    }

    /// Takes back the next used chain, if the device has used one, and frees its descriptors. Of a request it unmaps the
    /// mappings in the order in which they were mapped, and forgets it; the buffers that were made for it stay with the
    /// caller. The features are those that the driver accepted.
    pub fn poll<P: Dma>(&mut self, port: &mut P, features: u64) -> Result<Option<Polled>, UsedError>
        requires { RingInReach (P.told port.old) (P.span port.old) self.old.ring.place }

        ensures ring { ForSome (P.told port.old)
            (λ m. completion_in result ≡ next_completion m self.old.ring) }
        ensures waiting { IfOk result (λ found. IfSome found (λ p. is_waiting self.old.ring p.head ≡ true)) }
        ensures request { IfOk result
            (λ found. IfSome found (λ p. IsOutcome (pending_of self.old p.head) p)) }
        ensures state { self.new ≡ driver_after self.old result }
        ensures written { Becomes P.told port.old port.new
            (λ m. with_answer m self.old.ring (has_feature features 29) (completion_in result)) }
        ensures ends { Ends P.told P.keeps P.stands port.old port.new (maps_of self.old result) }

        // The ring is in reach still, and so is all that was.
        ensures in_reach { RingInReach (P.told port.new) (P.span port.new) self.new.ring.place }
        ensures memory { KeepsReach P.told P.span P.keeps_rest port.old port.new }
    {
        match self.ring.reclaim(port, has_feature(features, EVENT_IDX)) {
            Ok(Some(done)) => {
                let request = pending::take(&mut self.requests, done.head);
                pending::unmap_pending(port, request);
                Ok(Some(Polled::of(done, request)))
            }
            Ok(None) => Ok(None),
            Err(error) => Err(error),
        }
    }

    /// Forgets the pending request of least head and unmaps its mappings, in the order in which they were mapped.
    pub fn abandon<P: Dma>(&mut self, port: &mut P) -> Option<Made>
        ensures made { result ≡ option_map made_in (least_of self.old.pending) }
        ensures none { (result ≡ None) ↔ (self.old.pending ≡ []) }
        ensures state { self.new ≡ without_pending (least_of self.old.pending) self.old }
        ensures unmapped { (x : Setting) (acts : List Act) → P.stands port.old x acts →
            P.stands port.new x (unmap_acts (live_mappings acts)
            (option_map_or maps_in (least_of self.old.pending) []) ++ acts) }
        ensures memory { IsUnchanged P.told P.span P.keeps_rest port.old port.new }
    {
        match pending::least(&self.requests) {
            Some(request) => {
                pending::take(&mut self.requests, request.head);
                request.unmap(port);
                Some(made_for(&request))
            }
            None => None,
        }
    }
}
