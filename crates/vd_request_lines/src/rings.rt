//! The lines that make a ring and drop it.
ghost use Rattle.std.specs.Prelude.{◌≡◌, ◌+◌, ◌<◌, ◌≤◌, ◌^◌, ◌++◌, ℕ, List, true, is_some, Some, None, IfOk, IfErr};
ghost use Rattle.vd_pool.specs.Memory.{PoolMemory};
ghost use Rattle.vd_model.specs.Setting.{Setting};
ghost use Rattle.vd_model.specs.Creation.{Creation};
ghost use Rattle.vd_model.specs.Acts.{Act};
ghost use Rattle.vd_model.specs.Turn.{refusal_turn};
ghost use Rattle.vd_model.specs.declared.answer.Answer.TheVariants as answer;
ghost use Rattle.vd_model.specs.RingTurns.{by_head, is_ring_size, region_end_acts, requests_end_acts, ring_items, ring_turn, unring_turn};
ghost use Rattle.vd_model.specs.Live.{live_mappings, live_regions};
ghost use Rattle.vd_model.specs.Queues.{chains_out};
ghost use Rattle.vd_memory_lines.specs.Stands.{Stands, IsHeld as IsOut};
ghost use Rattle.vd_answers.specs.Tells.{Tells, MayTell};
ghost use Rattle.vd_driver_port.specs.Rest.{KeepsMemory};
ghost use Rattle.vd_request_lines.specs.Known.{IsKnown};
ghost use Rattle.vd_request_lines.specs.Stands.{RequestsStand};
ghost use Rattle.vd_request_lines.specs.Made.{TellsRing};
ghost use Rattle.vd_request_laws.specs.Owned.{QueueOwned};
ghost use Rattle.vd_request_lines.specs.After.{After, IsHeld};

use crate::ending::end_all;
use crate::held::{HeldDriver, KnownDriver, RingWanted};
use blk_driver::BlkDriver;
use std::alloc::{AllocError, Global};
use vd_answers::Hears;
use vd_memory_lines::Memory;
use vd_model::{Item, MapError, Tag};
use vd_num::Errno;
use vd_pool::Pool;
use vd_rings::{HeldRing, made, ring_size};

/// The size of a ring that may be made on a queue, or why none may.
fn allowed(kept: &Option<HeldDriver>, wanted: &RingWanted) -> Result<u16, Errno>
    ensures ok { IfOk result
        (λ size. (size ≡ wanted.now.size) × (is_ring_size size ≡ true)
        × (is_some wanted.now.queue.info ≡ true) × (kept.now ≡ None)) }
    ensures err { (x : Setting) (made : Creation) (acts : List Act) (q : ℕ) → RequestsStand acts q kept.now →
        IsKnown made acts q wanted.now.queue →
        IfErr result (λ e. ring_turn x made acts q wanted.now.size ≡ refusal_turn e) }
{
    if wanted.queue.info.is_none() {
        return Err(Errno::Inval);
    }
    let size = match ring_size(wanted.size) {
        Some(size) => size,
        None => return Err(Errno::Inval),
    };
    if kept.is_some() {
        return Err(Errno::Exist);
    }
    Ok(size)
}

/// Tells the number of a ring's region and where its parts lie.
fn tell_ring<T: Hears>(told: &mut T, held: &HeldRing)
    requires { T.is_ready told.old }
    ensures { T.heard told.old (answer.Done (ring_items held.now.region held.now.ring.place)) told.new }
{
    let place = held.ring.place();
    told.fields(&[
        Item::Number(held.region),
        Item::Word(Tag::Desc),
        Item::Address(place.desc),
        Item::Word(Tag::Driver),
        Item::Address(place.driver),
        Item::Word(Tag::Device),
        Item::Address(place.device),
    ]);
}

/// Keeps a ring that was made, without a request, and tells of it, or tells that there is no room for one.
fn keep<T: Hears>(
    told: &mut T,
    kept: &mut Option<HeldDriver>,
    alloc: Global,
    made: Result<HeldRing, MapError>,
) -> Result<(), AllocError>
    requires { T.is_ready told.old }
    ensures { TellsRing (λ said. T.heard told.old said told.new) kept.old kept.new made result }
{
    match made {
        Ok(held) => {
            tell_ring(told, &held);
            *kept = Some(HeldDriver {
                region: held.region,
                driver: BlkDriver::new(alloc, held.ring),
            });
        }
        Err(MapError::Memory) => return Err(AllocError),
        // A ring has bytes, so it has no room.
        Err(_) => told.refused(Errno::Nospc),
    }
    Ok(())
}

/// Makes a ring of a size on a queue that has none, in a coherent region of its own.
pub fn ring<T: Hears>(
    told: &mut T,
    memory: &mut Memory,
    kept: &mut Option<HeldDriver>,
    wanted: &RingWanted,
) -> Result<(), AllocError>
    requires ready { T.is_ready told.old }
    requires room { memory.old.domain.made < 2 ^ 62 }
    ensures line { (x : Setting) (made : Creation) (acts : List Act) (m : PoolMemory) (q : ℕ) →
        Stands x acts memory.old m →
        RequestsStand acts q kept.old → IsKnown made acts q wanted.now.queue →
        MayTell (λ said. T.heard told.old said told.new) (ring_turn x made acts q wanted.now.size)
        (After x acts q memory.new m kept.new) result }
    ensures rest { memory.new ≡ record memory.old { domain = memory.new.domain } }
    ensures bounce { memory.new.domain.bounce ≡ memory.old.domain.bounce }
    ensures counts { (memory.new.domain.maps ≡ memory.old.domain.maps)
        × (memory.new.domain.made ≤ memory.old.domain.made + 1) }
{
    match allowed(kept, wanted) {
        Ok(size) => {
            let ring = made(wanted.alloc, &mut memory.domain, size);
            keep(told, kept, wanted.alloc, ring)
        }
        Err(errno) => {
            told.refused(errno);
            Ok(())
        }
    }
}

/// Ends the requests that are pending, and frees the region of the ring.
fn drop_ring(memory: &mut Memory, pool: &mut Pool, held: &mut HeldDriver)
    requires held { IsHeld memory.old pool.old (Some held.old) }
    requires out { IsOut memory.old pool.old }
    requires room { memory.old.domain.maps < 2 ^ 62 }
    ensures dropped { (x : Setting) (acts : List Act) (q : ℕ) → Stands x acts memory.old pool.old →
        RequestsStand acts q (Some held.old) → QueueOwned acts q →
        Stands x ((region_end_acts (live_regions acts) held.old.region ++ requests_end_acts
        (live_mappings acts) (by_head (chains_out acts q) held.old.driver.ring.place.size))
        ++ acts) memory.new pool.new }
    ensures rest { KeepsMemory memory.old memory.new pool.old pool.new }
    ensures maps { memory.new.domain.maps ≤ memory.old.domain.maps }
{
    end_all(memory, pool, &mut held.driver);
    // The ring's region is live, so this frees it.
    let _ = memory.domain.free_coherent(held.region);
}

/// Drops the ring of a queue that isn't ready: its pending requests end, by ascending head, and its region is freed.
pub fn unring<T: Hears>(
    told: &mut T,
    memory: &mut Memory,
    pool: &mut Pool,
    kept: &mut Option<HeldDriver>,
    queue: &KnownDriver,
)
    requires ready { T.is_ready told.old }
    requires held { IsHeld memory.old pool.old kept.old }
    requires out { IsOut memory.old pool.old }
    requires room { memory.old.domain.maps < 2 ^ 62 }
    ensures line { (x : Setting) (made : Creation) (acts : List Act) (q : ℕ) → Stands x acts memory.old pool.old →
        RequestsStand acts q kept.old → QueueOwned acts q → IsKnown made acts q queue.now →
        Tells (λ said. T.heard told.old said told.new) (unring_turn made acts q)
        (After x acts q memory.new pool.new kept.new) }
    ensures rest { KeepsMemory memory.old memory.new pool.old pool.new }
    ensures maps { memory.new.domain.maps ≤ memory.old.domain.maps }
{
    let info = match queue.info {
        Some(info) => info,
        None => return told.refused(Errno::Inval),
    };
    let held = match kept {
        Some(held) => held,
        None => return told.refused(Errno::Noent),
    };
    if info.ready {
        return told.refused(Errno::Busy);
    }
    drop_ring(memory, pool, held);
    *kept = None;
    told.done();
}
