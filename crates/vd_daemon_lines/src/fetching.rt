//! The line that fetches a request.
ghost use Rattle.std.specs.Prelude.{◌≡◌, ◌≤◌, ◌<◌, ℕ, List, Some, None, IfSome, IfOk, OnOk, OnErr, if◌then◌else◌};
ghost use Rattle.vd_model.specs.Creation.{has_feature};
ghost use Rattle.vd_model.specs.Rings.{number16, used_index_at};
ghost use Rattle.vd_model.specs.declared.answer.Answer.TheVariants.{Done};
ghost use Rattle.vd_bounce.specs.Frames.{Holds, Keeps};
ghost use Rattle.vd_model.specs.Setting.{Setting};
ghost use Rattle.vd_model.specs.Creation.{Creation};
ghost use Rattle.vd_model.specs.Acts.{Act};
ghost use Rattle.vd_model.specs.DaemonTurns.{is_idle, queue_place, fetch_turn};
ghost use Rattle.vd_domain.specs.Held.{SameCounts};
ghost use Rattle.vd_domain.specs.Stands.{Stands};
ghost use Rattle.vd_domain.specs.Seen.{daemon_map};
ghost use Rattle.vd_answers.specs.Tells.{MayTell};
ghost use Rattle.vd_ring_memory.specs.Puts.{IsReached, IsAfterPuts};
ghost use Rattle.blk_daemon.specs.Errors.{IsUnlessMemory};
ghost use Rattle.blk_daemon.specs.Fetched.{fetched_of, held_given, with_event_of, TakesUp};
ghost use Rattle.vd_daemon_lines.specs.Known.{IsKnown};
ghost use Rattle.vd_daemon_lines.specs.Stands.{DaemonStands};
ghost use Rattle.vd_daemon_lines.specs.After.{After};
ghost use Rattle.vd_daemon_lines.specs.Fetched.{fetched_items, FailsAs};

use crate::known::KnownQueue;
use blk_daemon::{BlkQueue, FetchError, Fetched};
use std::alloc::AllocError;
use vd_answers::Hears;
use vd_domain::Domain;
use vd_model::{Answer, Item, RingPlace, Tag};
use vd_num::Errno;
use vd_pool::Pool;
use vd_ring_memory::DaemonMem;

/// Where a queue's ring is, if the queue is there and ready and has a size.
fn ready_place(queue: &KnownQueue) -> Option<RingPlace>
    requires small { IfSome queue.now.info (λ i. i.num ≤ 32768) }
    ensures place { (made : Creation) (acts : List Act) (q : ℕ) → IsKnown made acts q queue.now →
        result ≡ (if is_idle made acts q then None else Some (queue_place acts q)) }
    ensures sized { IfSome result (λ place. (0 < place.size) × (place.size ≤ 32768)) }
{
    let info = queue.info?;
    if !info.ready || info.num == 0 {
        return None;
    }
    Some(RingPlace {
        size: info.num as u16,
        desc: info.desc,
        driver: info.driver,
        device: info.device,
    })
}

/// Fetches from the memory that a daemon can access.
fn fetched(
    domain: &mut Domain,
    pool: &mut Pool,
    daemon: &mut BlkQueue,
    place: RingPlace,
    features: u64,
) -> Result<Fetched, FetchError>
    requires holds { Holds domain.old.bounce.frames pool.old }
    requires size { pool.old.per_page ≡ domain.old.bounce.per_page }
    requires reached { IsReached domain.old pool.old }
    requires some { 0 < place.size }
    requires small { place.size ≤ 32768 }
    ensures fetched { IsUnlessMemory (held_given result daemon.new)
        (fetched_of (daemon_map domain.old pool.old) place (has_feature features 28)
        (has_feature features 29) daemon.old) }
    ensures in_hand { IfOk result (TakesUp daemon.old daemon.new) }
    ensures stays { OnErr result (daemon.new ≡ daemon.old) }
    ensures event { OnOk result (daemon_map domain.new pool.new
        ≡ with_event_of (has_feature features 29) daemon.new.side (daemon_map domain.old pool.old)) }
    ensures memory_stays { OnErr result (daemon_map domain.new pool.new ≡ daemon_map domain.old pool.old) }
    ensures begins { daemon.old.request ≡ None → daemon.old.side ≡ None →
        IfOk (number16 (daemon_map domain.old pool.old) (used_index_at place)) (λ used. used < 65536) }
    ensures after { IsAfterPuts domain.old pool.old domain.new pool.new }
{
    let mut mem = DaemonMem { domain, pool };
    daemon.fetch(&mut mem, place, features)
}

/// Tells a request's head, type and first sector.
fn tell_fetched<T: Hears>(fetched: &Fetched, told: &mut T)
    requires { T.is_ready told.old }
    ensures { T.heard told.old (Done (fetched_items fetched.now)) told.new }
{
    told.fields(&[
        Item::Word(Tag::Head),
        Item::Number(u64::from(fetched.head)),
        Item::Word(Tag::Kind),
        Item::Number(u64::from(fetched.header.kind)),
        Item::Word(Tag::Sector),
        Item::Number(fetched.header.sector),
    ]);
}

/// Tells why nothing is fetched.
fn tell_failure<T: Hears>(error: FetchError, told: &mut T) -> Result<(), AllocError>
    requires { T.is_ready told.old }
    ensures { FailsAs (λ said. T.heard told.old said told.new) error result }
{
    match error {
        FetchError::Busy => told.refused(Errno::Busy),
        FetchError::Empty => told.refused(Errno::Again),
        FetchError::Ahead { found, known } => told.answer(Answer::Ahead { found, known }),
        FetchError::Fault(fault) => told.answer(Answer::Chain(fault)),
        FetchError::Shape { readable, writable } => {
            told.answer(Answer::Shape { readable, writable })
        }
        FetchError::Bus { at } => told.bus(at),
        FetchError::Memory => return Err(AllocError),
    }
    Ok(())
}

/// Fetches the next request of a queue, and tells its head, its type and its first sector.
pub fn fetch<T: Hears>(
    told: &mut T,
    domain: &mut Domain,
    pool: &mut Pool,
    daemon: &mut BlkQueue,
    queue: &KnownQueue,
) -> Result<(), AllocError>
    requires ready { T.is_ready told.old }
    requires holds { Holds domain.old.bounce.frames pool.old }
    requires size { pool.old.per_page ≡ domain.old.bounce.per_page }
    requires reached { IsReached domain.old pool.old }
    requires small { IfSome queue.now.info (λ i. i.num ≤ 32768) }
    ensures line { (x : Setting) (made : Creation) (acts : List Act) (q : ℕ) → Stands x acts domain.old pool.old →
        DaemonStands x acts q daemon.old → IsKnown made acts q queue.now →
        MayTell (λ said. T.heard told.old said told.new) (fetch_turn x made acts q)
        (After x acts q domain.new pool.new daemon.new) result }
    ensures name { daemon.new.name ≡ daemon.old.name }
    ensures kept { Keeps domain.old.bounce.frames domain.new.bounce.frames pool.old pool.new }
    ensures counts { SameCounts domain.old domain.new }
{
    let Some(place) = ready_place(queue) else {
        told.refused(Errno::Inval);
        return Ok(());
    };
    domain.sees(pool);
    let ended = fetched(domain, pool, daemon, place, queue.features);
    domain.sees(pool);
    match ended {
        Ok(fetched) => {
            tell_fetched(&fetched, told);
            Ok(())
        }
        Err(error) => tell_failure(error, told),
    }
}
