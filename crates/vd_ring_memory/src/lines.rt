//! The line that walks a chain.
ghost use Rattle.std.specs.Prelude.{◌≡◌, ◌≤◌, ℕ, List, IfSome};
ghost use Rattle.vd_bounce.specs.Frames.{Holds, Keeps};
ghost use Rattle.vd_model.specs.Setting.{Setting};
ghost use Rattle.vd_model.specs.Creation.{Creation};
ghost use Rattle.vd_model.specs.Acts.{Act};
ghost use Rattle.vd_model.specs.Trace.{trace_start, ending_of};
ghost use Rattle.vd_model.specs.DaemonTurns.{walk_turn};
ghost use Rattle.vd_model.specs.declared.answer.Answer.TheVariants.{Done};
ghost use Rattle.vd_domain.specs.Held.{SameCounts};
ghost use Rattle.vd_domain.specs.Stands.{Stands};
ghost use Rattle.vd_domain.specs.Seen.{daemon_map};
ghost use Rattle.vr_chain.specs.Walk.{UnlessMemory};
ghost use Rattle.vd_answers.specs.Tells.{MayTell};
ghost use Rattle.vd_ring_memory.specs.Puts.{IsReached, IsAfterPuts};
ghost use Rattle.vd_ring_memory.specs.Known.{IsKnown, After, FailsAs, chain_items};

use crate::daemon::DaemonMem;
use std::alloc::{AllocError, Global};
use vd_answers::Hears;
use vd_domain::Domain;
use vd_model::{Answer, Chain, Item, QueueInfo, RingPlace, Tag};
use vd_num::Errno;
use vd_pool::Pool;
use vr_chain::WalkError;

/// Which chain is walked: the queue, where the device has it, the head, and whether indirect tables were accepted.
#[derive(Clone, Copy, Debug)]
pub struct ChainAt {
    pub queue: Option<QueueInfo>,
    pub head: u16,
    pub indirect: bool,
}

/// The chain that begins at a head, by the bytes that a daemon sees.
fn walked(
    alloc: Global,
    domain: &mut Domain,
    pool: &mut Pool,
    place: &RingPlace,
    chain: &ChainAt,
) -> Result<Chain, WalkError>
    requires holds { Holds domain.old.bounce.frames pool.old }
    requires size { pool.old.per_page ≡ domain.old.bounce.per_page }
    requires reached { IsReached domain.old pool.old }
    requires small { place.now.size ≤ 32768 }
    ensures computed { let start = trace_start place.now chain.now.head chain.now.indirect in
        UnlessMemory result (λ e. e ≡ ending_of start (daemon_map domain.old pool.old)) }
    ensures told { daemon_map domain.new pool.new ≡ daemon_map domain.old pool.old }
    ensures after { IsAfterPuts domain.old pool.old domain.new pool.new }
{
    let mut mem = DaemonMem { domain, pool };
    vr_chain::walk(alloc, &mut mem, place, chain.head, chain.indirect)
}

/// Walks the chain of a queue that begins at a head, where the queue is there and has a size.
pub fn walk<T: Hears>(
    told: &mut T,
    alloc: Global,
    domain: &mut Domain,
    pool: &mut Pool,
    chain: &ChainAt,
) -> Result<(), AllocError>
    requires ready { T.is_ready told.old }
    requires holds { Holds domain.old.bounce.frames pool.old }
    requires size { pool.old.per_page ≡ domain.old.bounce.per_page }
    requires reached { IsReached domain.old pool.old }
    requires small { IfSome chain.now.queue (λ i. i.num ≤ 32768) }
    ensures line { (x : Setting) (made : Creation) (acts : List Act) (q : ℕ) → Stands x acts domain.old pool.old
        → IsKnown made acts q chain.now.queue chain.now.indirect
        → MayTell (λ said. T.heard told.old said told.new) (walk_turn x made acts q chain.now.head)
        (After x acts domain.new pool.new) result }
    ensures kept { Keeps domain.old.bounce.frames domain.new.bounce.frames pool.old pool.new }
    ensures counts { SameCounts domain.old domain.new }
{
    let info = match chain.queue {
        Some(info) => info,
        None => {
            told.refused(Errno::Inval);
            return Ok(());
        }
    };
    if info.num == 0 {
        told.refused(Errno::Inval);
        return Ok(());
    }
    let place = RingPlace {
        size: info.num as u16,
        desc: info.desc,
        driver: info.driver,
        device: info.device,
    };
    domain.sees(pool);
    let ended = walked(alloc, domain, pool, &place, chain);
    domain.sees(pool);
    match ended {
        Ok(chain) => {
            tell_chain(&chain, told);
            Ok(())
        }
        Err(error) => tell_failure(error, told),
    }
}

/// Tells how many parts a chain has, and how many of its bytes can be read and written.
fn tell_chain<T: Hears>(chain: &Chain, told: &mut T)
    requires { T.is_ready told.old }
    ensures { T.heard told.old (Done (chain_items chain.now)) told.new }
{
    told.fields(&[
        Item::Word(Tag::Parts),
        Item::Number(chain.parts.as_slice().len() as u64),
        Item::Word(Tag::Readable),
        Item::Number(chain.readable),
        Item::Word(Tag::Writable),
        Item::Number(chain.writable),
    ]);
}

/// Tells why a walk gives no chain.
fn tell_failure<T: Hears>(error: WalkError, told: &mut T) -> Result<(), AllocError>
    requires { T.is_ready told.old }
    ensures { FailsAs (λ said. T.heard told.old said told.new) error result }
{
    match error {
        WalkError::Fault(fault) => told.answer(Answer::Chain(fault)),
        WalkError::Bus { at } => told.bus(at),
        WalkError::Memory => return Err(AllocError),
    }
    Ok(())
}
