//! The end of requests: their mappings are unmapped, and the buffers that were made for them are freed.
ghost use Rattle.std.specs.Prelude.{◌≡◌, ◌+◌, ◌<◌, ◌≤◌, ◌^◌, ◌++◌, ◌==◌, ◌∷◌, ◌↔◌, ℕ, List, [], None, false, find};
ghost use Rattle.std.specs.List.{list_any};
ghost use Rattle.std.specs.Option.{option_map, option_map_or};
ghost use Rattle.vd_pool.specs.Memory.{PoolMemory};
ghost use Rattle.vd_model.specs.Setting.{Setting};
ghost use Rattle.vd_model.specs.Acts.{Act, Driver, Freed};
ghost use Rattle.vd_model.specs.Live.{live_mappings};
ghost use Rattle.vd_model.specs.RingTurns.{free_acts, unmap_acts};
ghost use Rattle.vd_memory_lines.specs.Stands.{Stands, IsHeld as IsOut, IsReached as IsStanding};
ghost use Rattle.blk_driver.specs.Driver.{least_of, made_in, maps_in, has_head, without_pending};
ghost use Rattle.vd_driver_port.specs.Reached.{IsReached};
ghost use Rattle.vd_driver_port.specs.Rest.{KeepsMemory};
ghost use Rattle.vd_request_lines.specs.Ended.{IsLeft};
ghost use Rattle.vd_request_lines.specs.Ending.{pending_end_acts, CanEnd, IsEndable};

use blk_driver::{BlkDriver, Made};
use vd_driver_port::DriverPort;
use vd_memory_lines::Memory;
use vd_pool::Pool;

/// Frees a buffer, where it is there.
fn free_buffer(memory: &mut Memory, number: u64)
    ensures freed { (x : Setting) (acts : List Act) (m : PoolMemory) → Stands x acts memory.old m →
        list_any (λ m. m.want.buffer == number) (live_mappings acts) ≡ false →
        Stands x (Driver (Freed number) ∷ acts) memory.new m }
    ensures rest { memory.new ≡ record memory.old { buffers = memory.new.buffers } }
{
    if memory.buffers.len_of(number).is_some() {
        memory.buffers.free(number);
    }
}

/// Frees the buffers that were made for a request.
pub(crate) fn free_made(memory: &mut Memory, made: &Made)
    requires numbers { made.now.buffer + made.now.count < 2 ^ 64 }
    ensures freed { (x : Setting) (acts : List Act) (m : PoolMemory) → Stands x acts memory.old m →
        IsLeft acts made.now →
        Stands x (free_acts made.now.buffer made.now.count ++ acts) memory.new m }
    ensures rest { memory.new ≡ record memory.old { buffers = memory.new.buffers } }
{
    for k in 0..made.count {
        free_buffer(memory, made.buffer + u64::from(k));
    }
}

/// Forgets the pending request of least head and unmaps its mappings, in the memory that they are of.
fn abandoned(memory: &mut Memory, pool: &mut Pool, driver: &mut BlkDriver) -> Option<Made>
    requires out { IsOut memory.old pool.old }
    requires reached { IsReached memory.old pool.old }
    requires room { memory.old.domain.maps < 2 ^ 62 }
    ensures made { result ≡ option_map made_in (least_of driver.old.pending) }
    ensures none { (result ≡ None) ↔ (driver.old.pending ≡ []) }
    ensures state { driver.new ≡ without_pending (least_of driver.old.pending) driver.old }
    ensures unmapped { (x : Setting) (acts : List Act) → Stands x acts memory.old pool.old →
        Stands x (unmap_acts (live_mappings acts) (option_map_or maps_in (least_of driver.old.pending) [])
        ++ acts) memory.new pool.new }
    ensures rest { KeepsMemory memory.old memory.new pool.old pool.new }
    ensures maps { memory.new.domain.maps ≤ memory.old.domain.maps }
{
    let mut port = DriverPort {
        memory,
        pool,
        maps_left: 0,
    };
    driver.abandon(&mut port)
}

/// The same of a memory that stands for some acts.
fn abandon_least(memory: &mut Memory, pool: &mut Pool, driver: &mut BlkDriver) -> Option<Made>
    requires out { IsOut memory.old pool.old }
    requires standing { IsStanding memory.old pool.old }
    requires room { memory.old.domain.maps < 2 ^ 62 }
    ensures made { result ≡ option_map made_in (least_of driver.old.pending) }
    ensures none { (result ≡ None) ↔ (driver.old.pending ≡ []) }
    ensures state { driver.new ≡ without_pending (least_of driver.old.pending) driver.old }
    ensures unmapped { (x : Setting) (acts : List Act) → Stands x acts memory.old pool.old →
        Stands x (unmap_acts (live_mappings acts) (option_map_or maps_in (least_of driver.old.pending) [])
        ++ acts) memory.new pool.new }
    ensures rest { KeepsMemory memory.old memory.new pool.old pool.new }
    ensures maps { memory.new.domain.maps ≤ memory.old.domain.maps }
{
    memory.domain.keeps_apart();
    abandoned(memory, pool, driver)
}

/// Ends the pending requests, by ascending head: their mappings are unmapped, and their buffers are freed.
pub(crate) fn end_all(memory: &mut Memory, pool: &mut Pool, driver: &mut BlkDriver)
    requires out { IsOut memory.old pool.old }
    requires owned { IsEndable memory.old pool.old driver.old.pending }
    requires room { memory.old.domain.maps < 2 ^ 62 }
    ensures ended { (x : Setting) (acts : List Act) (n : ℕ) → Stands x acts memory.old pool.old →
        CanEnd acts driver.old.pending →
        ((id : ℕ) → n ≤ id → find (has_head id) driver.old.pending ≡ None) →
        Stands x (pending_end_acts (live_mappings acts) driver.old.pending n ++ acts) memory.new pool.new }
    ensures rest { KeepsMemory memory.old memory.new pool.old pool.new }
    ensures maps { memory.new.domain.maps ≤ memory.old.domain.maps }
{
    // The buffers of a request have numbers, since they were made.
    let _made = memory.buffers.count();
    while let Some(made) = abandon_least(memory, pool, driver) {
        free_made(memory, &made);
    }
}
