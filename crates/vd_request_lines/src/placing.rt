//! Placing a block request in a queue's ring, over a device's memory.
ghost use Rattle.std.specs.Prelude.{◌≡◌, ◌≢◌, ◌+◌, ◌<◌, ◌≤◌, ◌^◌, ◌↔◌, ◌∷◌, ℕ, List, length, true, Some, None, Err, IfOk, IfSome, OnErr};
ghost use Rattle.vd_model.specs.Setting.{Setting};
ghost use Rattle.vd_model.specs.Creation.{has_feature};
ghost use Rattle.vd_model.specs.Acts.{Act, Driver as Driver_act, Poked};
ghost use Rattle.vd_model.specs.Live.{maps, buffers};
ghost use Rattle.vd_model.specs.Place.{taken_slots};
ghost use Rattle.vd_model.specs.RingTurns.{needed_descriptors, placed_mappings};
ghost use Rattle.vd_domain.specs.Seen.{ring_map};
ghost use Rattle.vd_memory_lines.specs.Stands.{Stands, IsHeld as IsOut, IsReached as IsKnown};
ghost use Rattle.vr_split.specs.Reach.{RingInReach};
ghost use Rattle.vr_driver.specs.Side.{unowned_descriptors};
ghost use Rattle.blk_driver.specs.Asked.{IsAsked, asked_in, draft_of, front_bytes, wants_of};
ghost use Rattle.blk_driver.specs.Buffers.{has_range};
ghost use Rattle.blk_driver.specs.declared.driver.SubmitError.TheVariants.{Full, NoSpace, Memory as OutOfMemory};
ghost use Rattle.vd_driver_port.specs.Reached.{IsReached};
ghost use Rattle.vd_driver_port.specs.Rest.{KeepsMemory};
ghost use Rattle.vd_request_lines.specs.Submitting.{HasNoPlace, IsSubmitted, IsPlaced, IsNotPlaced};

use crate::asking::{has_indirect, made_len};
use crate::making::{make_buffers, take_back};
use blk_driver::{Ask, BlkDriver, SubmitError, Submitted};
use std::alloc::AllocError;
use vd_driver_port::DriverPort;
use vd_memory_lines::Memory;
use vd_pool::Pool;

/// What is to be submitted: what is asked, the first of the buffers that were made for it, and the features that the driver
/// accepted.
#[derive(Clone, Copy)]
struct Filing {
    ask: Ask,
    buffer: u64,
    features: u64,
}

/// The most mappings of a request: the header, its range, the status byte and the table.
const MAPPINGS: u64 = 4;

/// Submits a request whose buffers were made.
fn submitted(
    memory: &mut Memory,
    pool: &mut Pool,
    driver: &mut BlkDriver,
    filing: &Filing,
) -> Result<Submitted, SubmitError>
    requires held { IsOut memory.old pool.old }
    requires room { memory.old.domain.maps + 4 < 2 ^ 62 }
    requires reached { IsReached memory.old pool.old }
    requires in_reach { RingInReach (Some (ring_map memory.old.domain)) None driver.old.ring.place }
    requires asked { IsAsked filing.now.ask }
    requires buffer { filing.now.buffer + 1 < 2 ^ 64 }
    ensures full { (result ≡ Err Full) ↔ (length (unowned_descriptors driver.old.ring) <
        needed_descriptors (has_feature filing.now.features 28) (asked_in filing.now.ask)) }
    ensures no_space { result ≡ Err NoSpace → (x : Setting) (acts : List Act) →
        Stands x acts memory.old pool.old → has_range acts filing.now.buffer 0 17 ≡ true →
        placed_mappings x (taken_slots acts) (maps acts)
        (wants_of (draft_of filing.now.ask filing.now.buffer filing.now.features)) ≡ None }
    ensures submitted { IfOk result (λ r.
        IsSubmitted memory.old pool.old
        (draft_of filing.now.ask filing.now.buffer filing.now.features) driver.old driver.new r memory.new pool.new) }
    ensures same { OnErr result (driver.new ≡ driver.old) }
    ensures untouched { result ≡ Err Full → (memory.new ≡ memory.old) × (pool.new ≡ pool.old) }
    ensures filled { result ≢ Err Full → (x : Setting) (acts : List Act) → Stands x acts memory.old pool.old →
        has_range acts filing.now.buffer 0 17 ≡ true →
        OnErr result (Stands x (Driver_act
        (Poked filing.now.buffer 0 (front_bytes filing.now.ask 0)) ∷ acts) memory.new pool.new) }
    ensures rest { KeepsMemory memory.old memory.new pool.old pool.new }
    ensures maps { memory.new.domain.maps ≤ memory.old.domain.maps + 4 }
{
    let mut port = DriverPort {
        memory,
        pool,
        maps_left: MAPPINGS,
    };
    driver.submit(&mut port, filing.ask, filing.buffer, 0, filing.features)
}

/// What a refusal of the driver comes to: there is no place, or no memory.
fn not_placed(error: SubmitError) -> Result<Option<Submitted>, AllocError>
    ensures none { IfOk result (λ found. found ≡ None) }
    ensures memory { IfOk result (λ found. error ≢ OutOfMemory) }
{
    match error {
        SubmitError::Full => Ok(None),
        SubmitError::NoSpace => Ok(None),
        SubmitError::Memory => Err(AllocError),
    }
}

/// Places a request: it makes the buffers, and takes them back where there is no place for the request, or no memory.
pub fn placed(
    memory: &mut Memory,
    pool: &mut Pool,
    driver: &mut BlkDriver,
    ask: &Ask,
    features: u64,
) -> Result<Option<Submitted>, AllocError>
    requires held { IsOut memory.old pool.old }
    requires room { memory.old.domain.maps + 4 < 2 ^ 62 }
    requires known { IsKnown memory.old pool.old }
    requires in_reach { RingInReach (Some (ring_map memory.old.domain)) None driver.old.ring.place }
    requires asked { IsAsked ask.now }
    ensures none { (x : Setting) (acts : List Act) → Stands x acts memory.old pool.old →
        IfOk result (λ found. found ≡ None →
        HasNoPlace x acts (draft_of ask.now (buffers acts) features) (length (unowned_descriptors driver.old.ring))) }
    ensures stays { (x : Setting) (acts : List Act) → Stands x acts memory.old pool.old →
        IsNotPlaced result → Stands x acts memory.new pool.new }
    ensures same { IsNotPlaced result → driver.new ≡ driver.old }
    ensures placed { IfOk result
        (λ found. IfSome found
        (λ r. IsPlaced memory.old pool.old ask.now features driver.old driver.new r memory.new
        pool.new)) }
    ensures rest { KeepsMemory memory.old memory.new pool.old pool.new }
    ensures maps { memory.new.domain.maps ≤ memory.old.domain.maps + 4 }
{
    let indirect = has_indirect(features);
    if !memory.buffers.has_room(made_len(ask, indirect)) {
        return Ok(None);
    }
    let filing = Filing {
        ask: *ask,
        buffer: memory.buffers.count(),
        features,
    };
    make_buffers(memory, ask, indirect)?;
    memory.domain.keeps_apart();
    match submitted(memory, pool, driver, &filing) {
        Ok(submitted) => Ok(Some(submitted)),
        Err(error) => {
            take_back(&mut memory.buffers, indirect);
            not_placed(error)
        }
    }
}
