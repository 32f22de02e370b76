//! The line that publishes the chains of a ring.
ghost use Rattle.std.specs.Prelude.{◌≡◌, ◌<◌, ℕ, List, Some, None, false};
ghost use Rattle.vd_pool.specs.Memory.{PoolMemory};
ghost use Rattle.vd_model.specs.Setting.{Setting};
ghost use Rattle.vd_model.specs.Creation.{Creation, has_feature};
ghost use Rattle.vd_model.specs.Acts.{Act};
ghost use Rattle.vd_model.specs.BusTurns.{is_missing};
ghost use Rattle.vd_model.specs.DaemonTurns.{has_event_idx};
ghost use Rattle.vd_model.specs.RingTurns.{publish_turn};
ghost use Rattle.vd_domain.specs.Held.{SameCounts};
ghost use Rattle.vd_domain.specs.Seen.{ring_map};
ghost use Rattle.vd_memory_lines.specs.Stands.{Stands};
ghost use Rattle.vd_answers.specs.Tells.{Tells};
ghost use Rattle.vr_split.specs.Reach.{RingInReach};
ghost use Rattle.vr_driver.specs.Side.{all_published};
ghost use Rattle.vr_driver.specs.Driver.{with_index, is_kick_needed};
ghost use Rattle.vd_ring_memory.specs.RingPuts.{IsRingReached, IsAfterRingPuts};
ghost use Rattle.vd_request_lines.specs.Known.{IsKnown};
ghost use Rattle.vd_request_lines.specs.Stands.{RequestsStand};
ghost use Rattle.vd_request_lines.specs.After.{After, IsKept};

use crate::held::{HeldDriver, KnownDriver};
use blk_driver::{BlkDriver, Published};
use vd_answers::Hears;
use vd_domain::Domain;
use vd_memory_lines::Memory;
use vd_model::{Item, Tag};
use vd_num::Errno;
use vd_ring_memory::RingMem;

/// The feature that event indices are asked for (`VIRTIO_F_RING_EVENT_IDX`).
const EVENT_IDX: u32 = 29;

/// Whether event indices were accepted.
fn has_events(features: u64) -> bool
    ensures { result ≡ has_feature features 29 }
{
    (features >> EVENT_IDX) % 2 == 1
}

/// Publishes the chains of a ring in the domain that it lies in.
fn published(domain: &mut Domain, driver: &mut BlkDriver, event_idx: bool) -> Published
    requires reached { IsRingReached domain.old }
    requires in_reach { RingInReach (Some (ring_map domain.old)) None driver.old.ring.place }
    ensures idx { result.idx ≡ driver.old.ring.added }
    ensures kick { result.kick ≡ is_kick_needed (ring_map domain.new) driver.old.ring event_idx }
    ensures state { driver.new ≡ record driver.old { ring = all_published driver.old.ring } }
    ensures told { ring_map domain.new ≡ with_index (ring_map domain.old) driver.old.ring }
    ensures after { IsAfterRingPuts domain.old domain.new }
{
    let mut mem = RingMem { domain };
    driver.publish(&mut mem, event_idx)
}

/// The same of a queue that has a ring, for the line.
fn publish_on<T: Hears>(told: &mut T, memory: &mut Memory, held: &mut HeldDriver, event_idx: bool)
    requires ready { T.is_ready told.old }
    requires held { IsKept memory.old (Some held.old) }
    ensures line { (x : Setting) (made : Creation) (acts : List Act) (m : PoolMemory) (q : ℕ) →
        Stands x acts memory.old m →
        RequestsStand acts q (Some held.old) → is_missing made q ≡ false → event_idx ≡ has_event_idx acts →
        Tells (λ said. T.heard told.old said told.new) (publish_turn x made acts q)
        (After x acts q memory.new m (Some held.new)) }
    ensures rest { memory.new ≡ record memory.old { domain = memory.new.domain } }
    ensures bounce { memory.new.domain.bounce ≡ memory.old.domain.bounce }
    ensures counts { SameCounts memory.old.domain memory.new.domain }
{
    memory.domain.sees_rings();
    let Published { idx, kick } = published(&mut memory.domain, &mut held.driver, event_idx);
    memory.domain.sees_rings();
    told.fields(&[
        Item::Word(Tag::Idx),
        Item::Number(u64::from(idx)),
        Item::Word(Tag::Kick),
        Item::Number(u64::from(kick)),
    ]);
}

/// Lets the device see the chains that were added, and tells the available index and whether the device is to be kicked.
pub fn publish<T: Hears>(
    told: &mut T,
    memory: &mut Memory,
    kept: &mut Option<HeldDriver>,
    queue: &KnownDriver,
)
    requires ready { T.is_ready told.old }
    requires held { IsKept memory.old kept.old }
    ensures line { (x : Setting) (made : Creation) (acts : List Act) (m : PoolMemory) (q : ℕ) →
        Stands x acts memory.old m →
        RequestsStand acts q kept.old → IsKnown made acts q queue.now →
        Tells (λ said. T.heard told.old said told.new) (publish_turn x made acts q)
        (After x acts q memory.new m kept.new) }
    ensures rest { memory.new ≡ record memory.old { domain = memory.new.domain } }
    ensures bounce { memory.new.domain.bounce ≡ memory.old.domain.bounce }
    ensures counts { SameCounts memory.old.domain memory.new.domain }
{
    if queue.info.is_none() {
        return told.refused(Errno::Inval);
    }
    match kept {
        Some(held) => publish_on(told, memory, held, has_events(queue.features)),
        None => told.refused(Errno::Noent),
    }
}
