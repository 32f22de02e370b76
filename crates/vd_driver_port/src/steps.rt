//! The driver's steps on a device's memory.
ghost use Rattle.std.specs.Prelude.{◌≡◌, ◌+◌, ◌<◌, ◌≤◌, ◌^◌, ◌==◌, ◌++◌, ◌∷◌, ℕ, List, length, is_some, true, Some, None, Err, IfOk, IfSome, OnOk, OnErr, slice_index};
ghost use Rattle.std.specs.List.{list_any, All};
ghost use Rattle.vd_pool.specs.Memory as pool;
ghost use Rattle.vd_bounce.specs.Frames.{Holds, Keeps};
ghost use Rattle.vd_model.specs.declared.memory.MapError.TheVariants.{Empty, NoSpace};
ghost use Rattle.vd_model.specs.Setting.{Setting};
ghost use Rattle.vd_model.specs.Acts.{Act, Streaming, Driver, Poked, Synced_device, Unmapped};
ghost use Rattle.vd_model.specs.Live.{maps, live_mappings};
ghost use Rattle.vd_model.specs.Place.{taken_slots};
ghost use Rattle.vd_model.specs.Puts.{is_to_device};
ghost use Rattle.vd_model.specs.RingTurns.{placed_mappings, map_acts, unmap_act};
ghost use Rattle.vd_domain.specs.Held.{mapping_of};
ghost use Rattle.vd_domain.specs.Handed.{AreOf};
ghost use Rattle.vd_domain.specs.Seen.{ring_map};
ghost use Rattle.vd_domain.specs.Stands as standing;
ghost use Rattle.vd_buffers.specs.Places.{place_of};
ghost use Rattle.vd_buffers.specs.Stands as kept;
ghost use Rattle.vd_memory_lines.specs.Given.{given};
ghost use Rattle.vd_memory_lines.specs.Stands.{Stands, IsHeld};
ghost use Rattle.blk_driver.specs.Buffers.{has_range, bytes_of, live_mapping};
ghost use Rattle.vd_driver_port.specs.Reached.{IsReached, IsInBuffer};
ghost use Rattle.vd_driver_port.specs.Rest.{KeepsMemory};

use vd_domain::Domain;
use vd_memory_lines::Memory;
use vd_model::{MapError, Want};
use vd_pool::Pool;

/// Writes bytes into a buffer, where they lie in it.
pub fn fill(memory: &mut Memory, buffer: u64, offset: u64, bytes: &[u8])
    ensures filled { (x : Setting) (acts : List Act) (m : pool.PoolMemory) → Stands x acts memory.old m →
        has_range acts buffer offset (length bytes.now) ≡ true →
        Stands x (Driver (Poked buffer offset bytes.now) ∷ acts) memory.new m }
    ensures reached { (m : pool.PoolMemory) → ∥ IsReached memory.old m ∥₁ → ∥ IsReached memory.new m ∥₁ }
    ensures rest { memory.new ≡ record memory.old { buffers = memory.new.buffers } }
{
    let _poked = memory.buffers.poke(buffer, offset, bytes);
}

/// Maps ranges of buffers, whose bytes these are, all of them or none.
pub fn map_all(
    memory: &mut Memory,
    pool: &mut Pool,
    wants: &[Want],
    bytes: &[u8],
) -> Result<u64, MapError>
    requires held { IsHeld memory.old pool.old }
    requires reached { ∥ IsReached memory.old pool.old ∥₁ }
    requires some { 0 < length wants.now }
    requires text { length bytes.now ≡ bytes_of wants.now }
    requires room { memory.old.domain.maps + length wants.now < 2 ^ 62 }
    requires inside { All (IsInBuffer memory.old.buffers) wants.now }
    requires theirs { (g : ℕ) (acts : List Act) → kept.Stands g acts memory.old.buffers →
        AreOf g acts wants.now bytes.now }
    ensures mapped { (x : Setting) (acts : List Act) (ms : List Streaming) → Stands x acts memory.old pool.old →
        placed_mappings x (taken_slots acts) (maps acts) wants.now ≡ Some ms →
        OnOk result (Stands x (map_acts ms ++ acts) memory.new pool.new) }
    ensures placed { (x : Setting) (acts : List Act) → Stands x acts memory.old pool.old → IfOk result (λ number.
        (number ≡ maps acts) × (is_some (placed_mappings x (taken_slots acts) (maps acts) wants.now) ≡ true)) }
    ensures number { IfOk result (λ number. number ≡ memory.old.domain.maps) }
    ensures full { (x : Setting) (acts : List Act) → Stands x acts memory.old pool.old → result ≡ Err NoSpace →
        placed_mappings x (taken_slots acts) (maps acts) wants.now ≡ None }
    ensures empty { result ≡ Err Empty → list_any (λ w. w.len == 0) wants.now ≡ true }
    ensures stays { (x : Setting) (acts : List Act) → Stands x acts memory.old pool.old →
        OnErr result (Stands x acts memory.new pool.new) }
    ensures rest { KeepsMemory memory.old memory.new pool.old pool.new }
    ensures maps { memory.new.domain.maps ≤ memory.old.domain.maps + length wants.now }
    ensures told { ring_map memory.new.domain ≡ ring_map memory.old.domain }
    ensures reached { ∥ IsReached memory.new pool.new ∥₁ }
{
    memory.domain.sees_rings();
    let mapped = memory.domain.map_all(pool, wants, bytes);
    memory.domain.sees_rings();
    mapped
}

/// Copies the buffer's bytes into a live mapping towards the device again.
pub fn refresh(memory: &mut Memory, pool: &mut Pool, number: u64)
    requires held { IsHeld memory.old pool.old }
    requires reached { ∥ IsReached memory.old pool.old ∥₁ }
    ensures refreshed { (x : Setting) (acts : List Act) (m : Streaming) → Stands x acts memory.old pool.old →
        live_mapping acts number ≡ Some m →
        is_to_device m.want.dir ≡ true → Stands x (Driver (Synced_device m) ∷ acts) memory.new pool.new }
    ensures rest { KeepsMemory memory.old memory.new pool.old pool.new }
    ensures maps { memory.new.domain.maps ≡ memory.old.domain.maps }
    ensures told { ring_map memory.new.domain ≡ ring_map memory.old.domain }
    ensures reached { ∥ IsReached memory.new pool.new ∥₁ }
{
    let want = match memory.domain.info(number) {
        Some(info) => info.want,
        None => return,
    };
    memory.domain.sees_rings();
    match memory.buffers.range(want.buffer, want.offset, want.len) {
        Ok(bytes) => {
            let _synced = memory.domain.sync_device(pool, number, bytes);
            memory.domain.sees_rings();
        }
        // A live mapping's range is never refused.
        Err(_) => {}
    }
}

/// Ends a live mapping, and puts its bytes into its range of the buffer where it comes from the device.
fn end_mapping(domain: &mut Domain, pool: &mut Pool, number: u64, want: &Want, bytes: &mut [u8])
    requires holds { Holds domain.old.bounce.frames pool.old }
    requires size { pool.old.per_page ≡ domain.old.bounce.per_page }
    requires live { IfSome (mapping_of domain.old number) (λ m. m.want ≡ want.now) }
    requires range { want.now.offset + want.now.len ≤ length bytes.old }
    ensures kept { Keeps domain.old.bounce.frames domain.new.bounce.frames pool.old pool.new }
    ensures ok { (x : Setting) (acts : List Act) (m : Streaming) → mapping_of domain.old number ≡ Some m →
        standing.Stands x acts domain.old pool.old
        → standing.Stands x (Driver (Unmapped m) ∷ acts) domain.new pool.new }
    ensures given { (x : Setting) (acts : List Act) (m : Streaming) → mapping_of domain.old number ≡ Some m →
        standing.Stands x acts domain.old pool.old
        → (j : ℕ) → j < length bytes.old →
        slice_index bytes.new j ≡ given x.per_page acts m j (slice_index bytes.old j) }
    ensures len { length bytes.new ≡ length bytes.old }
    ensures counts { (domain.new.maps ≡ domain.old.maps) × (domain.new.made ≡ domain.old.made) }
    ensures page { domain.new.bounce.per_page ≡ domain.old.bounce.per_page }
{
    let (_before, rest) = bytes.split_at_mut(want.offset as usize);
    let (part, _after) = rest.split_at_mut(want.len as usize);
    let _ended = domain.unmap(pool, number, part);
}

/// The same of a mapping of a memory.
fn end_held(memory: &mut Memory, pool: &mut Pool, number: u64, want: &Want)
    requires held { IsHeld memory.old pool.old }
    requires live { IfSome (mapping_of memory.old.domain number) (λ m. m.want ≡ want.now) }
    requires there { is_some (place_of memory.old.buffers want.now.buffer) ≡ true }
    requires range { (bytes : List ℕ) → place_of memory.old.buffers want.now.buffer ≡ Some bytes →
        want.now.offset + want.now.len ≤ length bytes }
    ensures ended { (x : Setting) (acts : List Act) (m : Streaming) →
        mapping_of memory.old.domain number ≡ Some m → Stands x acts memory.old pool.old
        → Stands x (Driver (Unmapped m) ∷ acts) memory.new pool.new }
    ensures rest { KeepsMemory memory.old memory.new pool.old pool.new }
    ensures maps { memory.new.domain.maps ≡ memory.old.domain.maps }
{
    let mut bytes = memory.buffers.lend(want.buffer);
    end_mapping(&mut memory.domain, pool, number, want, &mut bytes);
    memory.buffers.give(want.buffer, bytes);
}

/// Ends a mapping, and gives its bytes to the buffer where it comes from the device. A number that isn't live ends none.
pub fn unmap(memory: &mut Memory, pool: &mut Pool, number: u64)
    requires held { IsHeld memory.old pool.old }
    requires reached { ∥ IsReached memory.old pool.old ∥₁ }
    ensures unmapped { (x : Setting) (acts : List Act) → Stands x acts memory.old pool.old →
        Stands x (unmap_act (live_mappings acts) number ++ acts) memory.new pool.new }
    ensures rest { KeepsMemory memory.old memory.new pool.old pool.new }
    ensures maps { memory.new.domain.maps ≡ memory.old.domain.maps }
    ensures told { ring_map memory.new.domain ≡ ring_map memory.old.domain }
    ensures reached { ∥ IsReached memory.new pool.new ∥₁ }
{
    let want = match memory.domain.info(number) {
        Some(info) => info.want,
        None => return,
    };
    memory.domain.sees_rings();
    end_held(memory, pool, number, &want);
    memory.domain.sees_rings();
}
