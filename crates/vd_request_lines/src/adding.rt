//! The line that adds a chain to a ring, for no request.
ghost use Rattle.std.specs.Prelude.{◌≡◌, ◌<◌, ◌≤◌, ℕ, List, length, Some, None, false, IfOk, OnOk, OnErr};
ghost use Rattle.vd_pool.specs.Memory.{PoolMemory};
ghost use Rattle.vd_model.specs.Setting.{Setting};
ghost use Rattle.vd_model.specs.Creation.{Creation};
ghost use Rattle.vd_model.specs.Acts.{Act};
ghost use Rattle.vd_model.specs.BusTurns.{is_missing};
ghost use Rattle.vd_model.specs.RingTurns.{add_turn};
ghost use Rattle.vd_domain.specs.Held.{SameCounts};
ghost use Rattle.vd_domain.specs.Seen.{ring_map};
ghost use Rattle.vd_memory_lines.specs.Stands.{Stands};
ghost use Rattle.vd_answers.specs.Tells.{Tells};
ghost use Rattle.vr_split.specs.Reach.{RingInReach};
ghost use Rattle.vr_driver.specs.Side.{unowned_descriptors, next_head, with_chain};
ghost use Rattle.vr_driver.specs.Driver.{with_parts};
ghost use Rattle.vd_ring_memory.specs.RingPuts.{IsRingReached, IsAfterRingPuts};
ghost use Rattle.vd_request_lines.specs.Known.{IsKnown};
ghost use Rattle.vd_request_lines.specs.Stands.{RequestsStand};
ghost use Rattle.vd_request_lines.specs.After.{After, IsKept};

use crate::held::{HeldDriver, KnownDriver};
use blk_driver::{AddError, BlkDriver};
use vd_answers::Hears;
use vd_domain::Domain;
use vd_memory_lines::Memory;
use vd_model::{Item, Part, Tag};
use vd_num::Errno;
use vd_ring_memory::RingMem;
use vd_rings::is_out_of_order;

/// Adds a chain to a ring in the domain that it lies in.
fn added(domain: &mut Domain, driver: &mut BlkDriver, parts: &[Part]) -> Result<u16, AddError>
    requires reached { IsRingReached domain.old }
    requires in_reach { RingInReach (Some (ring_map domain.old)) None driver.old.ring.place }
    requires owners { length driver.old.ring.owners ≡ driver.old.ring.place.size }
    requires some { 0 < length parts.now }
    ensures full { OnErr result (length (unowned_descriptors driver.old.ring) < length parts.now) }
    ensures fits { OnOk result (length parts.now ≤ length (unowned_descriptors driver.old.ring)) }
    ensures head { IfOk result (λ head. head ≡ next_head driver.old.ring (length parts.now)) }
    ensures state { OnOk result (driver.new
        ≡ record driver.old { ring = with_chain driver.old.ring (length parts.now) }) }
    ensures told { OnOk result (ring_map domain.new
        ≡ with_parts (ring_map domain.old) driver.old.ring parts.now) }
    ensures same_driver { OnErr result (driver.new ≡ driver.old) }
    ensures same_told { OnErr result (ring_map domain.new ≡ ring_map domain.old) }
    ensures after { IsAfterRingPuts domain.old domain.new }
{
    let mut mem = RingMem { domain };
    driver.add(&mut mem, parts)
}

/// The same of a queue that has a ring, for the line.
fn add_on<T: Hears>(told: &mut T, memory: &mut Memory, held: &mut HeldDriver, parts: &[Part])
    requires ready { T.is_ready told.old }
    requires held { IsKept memory.old (Some held.old) }
    requires some { 0 < length parts.now }
    ensures line { (x : Setting) (made : Creation) (acts : List Act) (m : PoolMemory) (q : ℕ) →
        Stands x acts memory.old m →
        RequestsStand acts q (Some held.old) → is_missing made q ≡ false →
        Tells (λ said. T.heard told.old said told.new) (add_turn made acts q parts.now)
        (After x acts q memory.new m (Some held.new)) }
    ensures rest { memory.new ≡ record memory.old { domain = memory.new.domain } }
    ensures bounce { memory.new.domain.bounce ≡ memory.old.domain.bounce }
    ensures counts { SameCounts memory.old.domain memory.new.domain }
{
    if is_out_of_order(parts) {
        return told.refused(Errno::Inval);
    }
    memory.domain.sees_rings();
    let ended = added(&mut memory.domain, &mut held.driver, parts);
    memory.domain.sees_rings();
    match ended {
        Ok(head) => told.fields(&[Item::Word(Tag::Head), Item::Number(u64::from(head))]),
        // It needs more descriptors than are free, or than the ring has.
        Err(_) => told.refused(Errno::Nospc),
    }
}

/// Adds a chain of these parts to the ring of a queue, for no request, and tells its head.
pub fn add<T: Hears>(
    told: &mut T,
    memory: &mut Memory,
    kept: &mut Option<HeldDriver>,
    queue: &KnownDriver,
    parts: &[Part],
)
    requires ready { T.is_ready told.old }
    requires held { IsKept memory.old kept.old }
    requires some { 0 < length parts.now }
    ensures line { (x : Setting) (made : Creation) (acts : List Act) (m : PoolMemory) (q : ℕ) →
        Stands x acts memory.old m →
        RequestsStand acts q kept.old → IsKnown made acts q queue.now →
        Tells (λ said. T.heard told.old said told.new) (add_turn made acts q parts.now)
        (After x acts q memory.new m kept.new) }
    ensures rest { memory.new ≡ record memory.old { domain = memory.new.domain } }
    ensures bounce { memory.new.domain.bounce ≡ memory.old.domain.bounce }
    ensures counts { SameCounts memory.old.domain memory.new.domain }
{
    if queue.info.is_none() {
        return told.refused(Errno::Inval);
    }
    match kept {
        Some(held) => add_on(told, memory, held, parts),
        None => told.refused(Errno::Noent),
    }
}
