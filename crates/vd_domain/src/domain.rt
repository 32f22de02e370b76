//! A domain: what is mapped, shared and registered on one device.

ghost use Rattle.std.specs.Prelude.{◌≡◌, ◌+◌, ◌-◌, ◌*◌, ◌/◌, ◌<◌, ◌≤◌, ℕ, List, [], ◌∷◌, length, replicate, false, Some, None, IfOk, OnErr, MatchResult};
ghost use Rattle.vd_pool.specs.Memory.{PoolMemory};
ghost use Rattle.vd_bounce.specs.Frames.{frame_of, held_count, Holds, Keeps};
ghost use Rattle.vd_model.specs.Setting.{Setting};
ghost use Rattle.vd_model.specs.Acts.{Act, Node, State, Daemon_put};
ghost use Rattle.vd_model.specs.State.{Cleared};
ghost use Rattle.vd_model.specs.Live.{maps, regions, registration_of};
ghost use Rattle.vd_model.specs.Puts.{bus_bytes};
ghost use Rattle.vd_model.specs.AreaTurns.{first_bus};
ghost use Rattle.vd_domain.specs.Held.{SameCounts};

mod areas;
mod batch;
mod coherent;
mod mappings;
mod rings;
mod seen;

use crate::access::{first_missing, read, write};
use crate::numbered::Numbered;
use crate::streaming::{Bounced, Extent};
use crate::uses::Uses;
pub use areas::AREA_START;
use std::alloc::{AllocError, Global};
use std::marker::Model;
use vd_bounce::BounceMap;
use vd_iova::Iova;
use vd_num::Bus;
use vd_pool::Pool;

/// No live mapping, or no live region, has the number.
#[derive(Clone, Copy, Debug, PartialEq, Eq)]
pub struct NotLive;

/// Why a mapping isn't synchronized.
#[derive(Clone, Copy, Debug, PartialEq, Eq)]
pub enum SyncError {
    NotLive,
    /// The mapping carries no bytes that way.
    WrongDir,
}

/// The memory of a device. It can't be dropped, since each frame has to be given back.
pub struct Domain {
    alloc: Global,
    bounce: BounceMap,
    shared: BounceMap,
    store: Pool,
    low: Iova,
    high: Iova,
    mappings: Numbered<Bounced>,
    regions: Numbered<Extent>,
    uses: Uses,
    is_shown: bool,
}

impl Model for Domain {
    ghost use Rattle.vd_domain.specs.Held.{Held, IsFit};
    ghost use Rattle.vd_domain.specs.Lists.{mappings_of, regions_of};

    ghost Value = { Held };

    ghost view = { λ d. record {
      bounce = d.bounce;
      shared = d.shared;
      store = d.store;
      live = mappings_of d.mappings.entries;
      maps = d.mappings.made;
      regions = regions_of d.regions.entries;
      made = d.regions.made;
      is_shown = d.is_shown;
    } };

    ghost invariant = { λ d. IsFit (record {
      bounce = d.bounce;
      shared = d.shared;
      store = d.store;
      live = mappings_of d.mappings.entries;
      maps = d.mappings.made;
      regions = regions_of d.regions.entries;
      made = d.regions.made;
      is_shown = d.is_shown;
    }) d.low d.high d.uses };
}

impl Domain {
    ghost use Rattle.vd_domain.specs.Stands.{Stands};

    /// A domain with nothing mapped: so many slots of bounce memory, then coherent memory up to `iova_slots`,
    /// and pages of `per_page` slots.
    pub fn new(
        alloc: Global,
        bounce_slots: u32,
        iova_slots: u32,
        per_page: u32,
    ) -> Result<Domain, AllocError>
        requires some { 0 < per_page }
        requires few { per_page ≤ 16 }
        requires whole { bounce_slots ≡ per_page * (bounce_slots / per_page) }
        requires low { 2 * per_page ≤ bounce_slots }
        requires order { bounce_slots < iova_slots }
        requires small { iova_slots ≤ 65536 }
        ensures stands { IfOk result
            (λ d. (x : Setting) (m : PoolMemory) → x.bounce ≡ bounce_slots → x.iova ≡ iova_slots →
            x.per_page ≡ per_page → Stands x [] d m) }
        ensures holds { IfOk result (λ d. (m : PoolMemory) → Holds d.bounce.frames m) }
        ensures none { IfOk result (λ d. (p : ℕ) → frame_of d.bounce.frames p ≡ None) }
        ensures size { IfOk result (λ d. d.bounce.per_page ≡ per_page) }
        ensures made { IfOk result (λ d. (d.maps ≡ 0) × (d.made ≡ 0)) }
    {
        let low = Iova::new(alloc, per_page as u64, bounce_slots as u64)?;
        let high = Iova::new(alloc, bounce_slots as u64, iova_slots as u64)?;
        let count = bounce_slots / per_page;
        let uses = Uses::new(alloc, count as usize)?;
        let mut store = Pool::new(alloc, 1);
        let bounce = BounceMap::new(alloc, count, per_page)?;
        match BounceMap::new(alloc, iova_slots - bounce_slots, 1) {
            Ok(shared) => Ok(Domain {
                alloc,
                bounce,
                shared,
                store,
                low,
                high,
                mappings: Numbered::new(alloc),
                regions: Numbered::new(alloc),
                uses,
                is_shown: false,
            }),
            Err(_) => {
                bounce.discard(&mut store);
                Err(AllocError)
            }
        }
    }

    /// Fills a slice with the bytes from an address on, or answers the first address that can't be accessed.
    pub fn load(&self, pool: &Pool, at: u64, out: &mut [u8]) -> Result<(), Bus>
        requires holds { Holds self.now.bounce.frames pool.now }
        requires size { pool.now.per_page ≡ self.now.bounce.per_page }
        ensures ok { (x : Setting) (acts : List Act) → Stands x acts self.now pool.now → MatchResult result
            (λ _. (first_bus x acts at (length out.old) ≡ None)
            × (out.new ≡ bus_bytes x.per_page acts at (length out.old)))
            (λ bus. first_bus x acts at (length out.old) ≡ Some bus.at) }
        ensures left { OnErr result (out.new ≡ out.old) }
    {
        if let Some(at) = first_missing(&self.bounce, &self.shared, at, out.len()) {
            return Err(Bus { at });
        }
        read(&self.bounce, pool, &self.shared, &self.store, at, out);
        Ok(())
    }

    /// Writes bytes from an address on, or answers the first address that can't be accessed and writes none.
    pub fn store(&mut self, pool: &mut Pool, at: u64, bytes: &[u8]) -> Result<(), Bus>
        requires holds { Holds self.old.bounce.frames pool.old }
        requires size { pool.old.per_page ≡ self.old.bounce.per_page }
        ensures kept { Keeps self.old.bounce.frames self.new.bounce.frames pool.old pool.new }
        ensures ok { (x : Setting) (acts : List Act) → Stands x acts self.old pool.old → MatchResult result
            (λ _. (first_bus x acts at (length bytes.now) ≡ None)
            × Stands x (Node (Daemon_put at bytes.now) ∷ acts) self.new pool.new)
            (λ bus. first_bus x acts at (length bytes.now) ≡ Some bus.at) }
        ensures err { OnErr result ((self.new ≡ self.old) × (pool.new ≡ pool.old)) }
        ensures counts { SameCounts self.old self.new }
    {
        if let Some(at) = first_missing(&self.bounce, &self.shared, at, bytes.len()) {
            return Err(Bus { at });
        }
        write(
            &mut self.bounce,
            pool,
            &mut self.shared,
            &mut self.store,
            at,
            bytes,
        );
        Ok(())
    }

    /// How many mappings and coherent regions are live.
    pub fn live(&self) -> u64
        ensures { result ≡ length self.now.live + length self.now.regions }
    {
        self.mappings.len() + self.regions.len()
    }

    /// Ends the bounce region. Pages and mappings stay.
    pub fn reset_bounce(&mut self)
        ensures ok { (x : Setting) (acts : List Act) (m : PoolMemory) → Stands x acts self.old m →
            Stands x (State Cleared ∷ acts) self.new m }
        ensures same { self.new ≡ record self.old { is_shown = false } }
    {
        self.is_shown = false;
    }

    /// Gives every frame of bounce memory back.
    pub fn end(&mut self, pool: &mut Pool)
        requires holds { Holds self.old.bounce.frames pool.old }
        requires idle { (self.old.live ≡ []) × (self.old.regions ≡ []) }
        requires free { self.old.bounce.user ≡ None }
        ensures kept { Keeps self.old.bounce.frames self.new.bounce.frames pool.old pool.new }
        ensures none { (p : ℕ) → frame_of self.new.bounce.frames p ≡ None }
        ensures same { self.new ≡ record self.old { bounce = self.new.bounce } }
    {
        self.bounce.empty(pool);
    }

    /// Gives every frame back and keeps nothing, whatever is live or registered.
    pub fn discard(self, pool: &mut Pool)
        requires holds { Holds self.bounce.frames pool.old }
        ensures kept { Keeps self.bounce.frames (replicate 0 None) pool.old pool.new }
        ensures back { pool.new.spare ≡ pool.old.spare + held_count self.bounce.frames }
    {
        let Domain {
            alloc: _,
            bounce,
            shared,
            mut store,
            low: _,
            high: _,
            mappings: _,
            regions: _,
            uses: _,
            is_shown: _,
        } = self;
        shared.discard(&mut store);
        bounce.discard(pool);
    }
}
