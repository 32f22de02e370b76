//! The line that takes back a used chain, and ends its request.
ghost use Rattle.std.specs.Prelude.{◌≡◌, ◌+◌, ◌<◌, ◌≤◌, ◌^◌, ◌++◌, ℕ, List, Some, None, true, false, IfOk, IfSome};
ghost use Rattle.vd_pool.specs.Memory.{PoolMemory};
ghost use Rattle.vd_model.specs.Setting.{Setting};
ghost use Rattle.vd_model.specs.Creation.{Creation, has_feature};
ghost use Rattle.vd_model.specs.Acts.{Act};
ghost use Rattle.vd_model.specs.Puts.{ram};
ghost use Rattle.vd_model.specs.BusTurns.{is_missing};
ghost use Rattle.vd_model.specs.DaemonTurns.{has_event_idx};
ghost use Rattle.vd_model.specs.RingTurns.{free_acts, poll_turn};
ghost use Rattle.vd_domain.specs.Seen.{ring_map};
ghost use Rattle.vd_buffers.specs.Stands as kept_buffers;
ghost use Rattle.vd_memory_lines.specs.Stands.{Stands, IsHeld as IsOut};
ghost use Rattle.vd_answers.specs.Tells.{Tells};
ghost use Rattle.vr_split.specs.Reach.{RingInReach};
ghost use Rattle.vr_driver.specs.Side.{is_waiting};
ghost use Rattle.vr_driver.specs.Driver.{next_completion, with_answer};
ghost use Rattle.blk_driver.specs.Buffers.{has_range};
ghost use Rattle.blk_driver.specs.Driver.{pending_of};
ghost use Rattle.blk_driver.specs.Polled.{IsOutcome, completion_in, driver_after, maps_of};
ghost use Rattle.vd_driver_port.specs.Reached.{IsReached};
ghost use Rattle.vd_driver_port.specs.Rest.{KeepsMemory};
ghost use Rattle.vd_request_lines.specs.Known.{IsKnown};
ghost use Rattle.vd_request_lines.specs.Stands.{RequestsStand};
ghost use Rattle.vd_request_laws.specs.Owned.{QueueOwned};
ghost use Rattle.vd_request_lines.specs.After.{After, IsHeld};
ghost use Rattle.vd_request_lines.specs.Ended.{Ends, made_by, IsLeft};
ghost use Rattle.vd_request_lines.specs.Completed.{completion_answer, used_answer};

use crate::ending::free_made;
use crate::held::{HeldDriver, KnownDriver};
use blk_driver::{BlkDriver, Made, Polled, UsedError};
use vd_answers::Hears;
use vd_buffers::Buffers;
use vd_driver_port::DriverPort;
use vd_memory_lines::Memory;
use vd_model::{Answer, Item, Tag};
use vd_num::Errno;
use vd_pool::Pool;

/// The offset of a request's status byte in its first buffer: it comes after the header.
const STATUS_AT: u64 = 16;

/// Takes back the next used chain of a ring in the memory that it lies in.
fn polled(
    memory: &mut Memory,
    pool: &mut Pool,
    driver: &mut BlkDriver,
    features: u64,
) -> Result<Option<Polled>, UsedError>
    requires held { IsOut memory.old pool.old }
    requires room { memory.old.domain.maps < 2 ^ 62 }
    requires reached { IsReached memory.old pool.old }
    requires in_reach { RingInReach (Some (ring_map memory.old.domain)) None driver.old.ring.place }
    ensures ring { completion_in result ≡ next_completion (ring_map memory.old.domain) driver.old.ring }
    ensures waiting { IfOk result (λ found. IfSome found (λ p. is_waiting driver.old.ring p.head ≡ true)) }
    ensures request { IfOk result (λ found. IfSome found (λ p. IsOutcome (pending_of driver.old p.head) p)) }
    ensures state { driver.new ≡ driver_after driver.old result }
    ensures told { ring_map memory.new.domain
        ≡ with_answer (ring_map memory.old.domain) driver.old.ring (has_feature features 29)
        (completion_in result) }
    ensures ends { Ends memory.old pool.old memory.new pool.new (maps_of driver.old result) }
    ensures rest { KeepsMemory memory.old memory.new pool.old pool.new }
    ensures maps { memory.new.domain.maps ≤ memory.old.domain.maps }
{
    let mut port = DriverPort {
        memory,
        pool,
        maps_left: 0,
    };
    driver.poll(&mut port, features)
}

/// The status byte of a request.
fn status_in(buffers: &Buffers, buffer: u64) -> u8
    ensures { (g : ℕ) (acts : List Act) → kept_buffers.Stands g acts buffers.now →
        has_range acts buffer 16 1 ≡ true → result ≡ ram g acts buffer 16 }
{
    match buffers.range(buffer, STATUS_AT, 1) {
        Ok(text) => text[0],
        // A request's buffer has its status byte.
        Err(_) => 0,
    }
}

/// Ends a request: it frees the buffers that were made for it, and answers its status byte; without one it does nothing.
fn end_request(memory: &mut Memory, made: Option<Made>) -> u8
    requires numbers { IfSome made (λ d. d.buffer + d.count < 2 ^ 64) }
    ensures none { made ≡ None → memory.new ≡ memory.old }
    ensures status { IfSome made
        (λ d. (g : ℕ) (acts : List Act) → kept_buffers.Stands g acts memory.old.buffers →
        has_range acts d.buffer 16 1 ≡ true →
        result ≡ ram g acts d.buffer 16) }
    ensures freed { IfSome made
        (λ d. (x : Setting) (acts : List Act) (m : PoolMemory) → Stands x acts memory.old m → IsLeft acts d →
        Stands x (free_acts d.buffer d.count ++ acts) memory.new m) }
    ensures rest { memory.new ≡ record memory.old { buffers = memory.new.buffers } }
{
    match made {
        Some(made) => {
            let status = status_in(&memory.buffers, made.buffer);
            free_made(memory, &made);
            status
        }
        None => 0,
    }
}

/// The buffers that were made for the request that ended, if one did.
fn made_by(ended: &Result<Option<Polled>, UsedError>) -> Option<Made>
    ensures { result ≡ made_by ended.now }
{
    match ended {
        Ok(Some(polled)) => polled.made,
        _ => None,
    }
}

/// Tells of a used chain, and of a request's status where all that the device was to write is used.
fn tell_used<T: Hears>(told: &mut T, polled: &Polled, status: u8)
    requires { T.is_ready told.old }
    ensures { T.heard told.old (used_answer polled.now status) told.new }
{
    let head = Item::Number(u64::from(polled.head));
    let len = Item::Number(u64::from(polled.len));
    let (head_tag, len_tag, status_tag) = (
        Item::Word(Tag::Head),
        Item::Word(Tag::Len),
        Item::Word(Tag::Status),
    );
    if polled.made.is_none() {
        told.fields(&[head_tag, head, len_tag, len]);
    } else if polled.complete {
        told.fields(&[
            head_tag,
            head,
            len_tag,
            len,
            status_tag,
            Item::Number(u64::from(status)),
        ]);
    } else {
        told.fields(&[
            head_tag,
            head,
            len_tag,
            len,
            status_tag,
            Item::Word(Tag::Dash),
        ]);
    }
}

/// Tells what became of a poll.
fn tell_completion<T: Hears>(told: &mut T, ended: Result<Option<Polled>, UsedError>, status: u8)
    requires { T.is_ready told.old }
    ensures { T.heard told.old (completion_answer ended status) told.new }
{
    match ended {
        Ok(Some(polled)) => tell_used(told, &polled, status),
        Ok(None) => told.refused(Errno::Again),
        Err(UsedError::BadId { id }) => told.answer(Answer::BadId { id }),
        Err(UsedError::TooFarAhead { used, published }) => {
            told.answer(Answer::UsedAhead { used, published })
        }
    }
}

/// The same of a queue that has a ring, for the line.
fn poll_on<T: Hears>(
    told: &mut T,
    memory: &mut Memory,
    pool: &mut Pool,
    held: &mut HeldDriver,
    features: u64,
)
    requires ready { T.is_ready told.old }
    requires held { IsHeld memory.old pool.old (Some held.old) }
    requires out { IsOut memory.old pool.old }
    requires room { memory.old.domain.maps < 2 ^ 62 }
    ensures line { (x : Setting) (made : Creation) (acts : List Act) (q : ℕ) → Stands x acts memory.old pool.old →
        RequestsStand acts q (Some held.old) → QueueOwned acts q → is_missing made q ≡ false →
        has_feature features 29 ≡ has_event_idx acts →
        Tells (λ said. T.heard told.old said told.new) (poll_turn x made acts q)
        (After x acts q memory.new pool.new (Some held.new)) }
    ensures rest { KeepsMemory memory.old memory.new pool.old pool.new }
    ensures maps { memory.new.domain.maps ≤ memory.old.domain.maps }
{
    // The buffers of a request have numbers, since they were made.
    let _made = memory.buffers.count();
    memory.domain.keeps_apart();
    memory.domain.sees_rings();
    let ended = polled(memory, pool, &mut held.driver, features);
    memory.domain.sees_rings();
    let made = made_by(&ended);
    let status = end_request(memory, made);
    tell_completion(told, ended, status);
}

/// Takes back the next used chain of a queue's ring, and tells its head, how many bytes were used, and of a request how it
/// ended: its mappings are unmapped, and the buffers that were made for it are freed.
pub fn poll<T: Hears>(
    told: &mut T,
    memory: &mut Memory,
    pool: &mut Pool,
    kept: &mut Option<HeldDriver>,
    queue: &KnownDriver,
)
    requires ready { T.is_ready told.old }
    requires held { IsHeld memory.old pool.old kept.old }
    requires out { IsOut memory.old pool.old }
    requires room { memory.old.domain.maps < 2 ^ 62 }
    ensures line { (x : Setting) (made : Creation) (acts : List Act) (q : ℕ) → Stands x acts memory.old pool.old →
        RequestsStand acts q kept.old → QueueOwned acts q → IsKnown made acts q queue.now →
        Tells (λ said. T.heard told.old said told.new) (poll_turn x made acts q)
        (After x acts q memory.new pool.new kept.new) }
    ensures rest { KeepsMemory memory.old memory.new pool.old pool.new }
    ensures maps { memory.new.domain.maps ≤ memory.old.domain.maps }
{
    if queue.info.is_none() {
        return told.refused(Errno::Inval);
    }
    match kept {
        Some(held) => poll_on(told, memory, pool, held, queue.features),
        None => told.refused(Errno::Noent),
    }
}
