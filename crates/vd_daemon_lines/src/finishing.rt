//! The line that finishes a request.
ghost use Rattle.std.specs.Prelude.{◌≡◌, ◌↔◌, ℕ, List, Some, None, Err, IsSome, IfOk, OnOk, OnErr};
ghost use Rattle.vd_bounce.specs.Frames.{Holds, Keeps};
ghost use Rattle.vd_model.specs.Setting.{Setting};
ghost use Rattle.vd_model.specs.Creation.{Creation, has_feature};
ghost use Rattle.vd_model.specs.Acts.{Act};
ghost use Rattle.vd_model.specs.Queues.{Execution};
ghost use Rattle.vd_model.specs.DaemonTurns.{Hand, finish_turn};
ghost use Rattle.vd_domain.specs.Held.{SameCounts};
ghost use Rattle.vd_domain.specs.Stands.{Stands};
ghost use Rattle.vd_domain.specs.Seen.{daemon_map};
ghost use Rattle.vd_answers.specs.Tells.{Tells};
ghost use Rattle.vr_device.specs.Side.{Side};
ghost use Rattle.vd_ring_memory.specs.Puts.{IsReached, IsAfterPuts};
ghost use Rattle.blk_daemon.specs.Finished.{Finishes, executed_in, finished_held, OnRequest};
ghost use Rattle.vd_daemon_lines.specs.Known.{IsKnown};
ghost use Rattle.vd_daemon_lines.specs.Stands.{DaemonStands};
ghost use Rattle.vd_daemon_lines.specs.After.{After};
ghost use Rattle.vd_daemon_lines.specs.Finished.{finish_answer};

use crate::known::KnownQueue;
use blk_daemon::{BlkQueue, FinishError, Finished};
use vd_answers::Hears;
use vd_domain::Domain;
use vd_model::{Item, Tag};
use vd_num::Errno;
use vd_pool::Pool;
use vd_ring_memory::DaemonMem;

/// Finishes in the memory that a daemon can access.
fn finished(
    domain: &mut Domain,
    pool: &mut Pool,
    daemon: &mut BlkQueue,
    features: u64,
) -> Result<Finished, FinishError>
    requires holds { Holds domain.old.bounce.frames pool.old }
    requires size { pool.old.per_page ≡ domain.old.bounce.per_page }
    requires reached { IsReached domain.old pool.old }
    ensures refused { (result ≡ Err FinishError.NoRequest) ↔ (executed_in daemon.old.request ≡ None) }
    ensures untouched { result ≡ Err FinishError.NoRequest →
        daemon_map domain.new pool.new ≡ daemon_map domain.old pool.old }
    ensures finished { (side : Side) (h : Hand) (end : Execution) → daemon.old.side ≡ Some side
        → daemon.old.request ≡ Some (record { hand = h; outcome = Some end })
        → Finishes (daemon_map domain.old pool.old) side (has_feature features 29) h end result
        (Some (daemon_map domain.new pool.new)) }
    ensures len { IfOk result (λ f. OnRequest daemon.old.request (λ h. f.len ≡ h.writable)) }
    ensures done { OnOk result (daemon.new ≡ finished_held daemon.old) }
    ensures stays { OnErr result (daemon.new ≡ daemon.old) }
    ensures placed { IsSome daemon.old.request → IsSome daemon.old.side }
    ensures after { IsAfterPuts domain.old pool.old domain.new pool.new }
{
    let mut mem = DaemonMem { domain, pool };
    daemon.finish(&mut mem, features)
}

/// Tells what became of a finish.
fn tell_finished<T: Hears>(ended: Result<Finished, FinishError>, told: &mut T)
    requires { T.is_ready told.old }
    ensures { T.heard told.old (finish_answer ended) told.new }
{
    match ended {
        Ok(Finished { len, irq }) => told.fields(&[
            Item::Word(Tag::Len),
            Item::Number(u64::from(len)),
            Item::Word(Tag::Irq),
            Item::Number(if irq { 1 } else { 0 }),
        ]),
        Err(FinishError::NoRequest) => told.refused(Errno::Noent),
        Err(FinishError::Bus { at }) => told.bus(at),
    }
}

/// Gives the request in hand back, and tells how many bytes the device wrote and whether the driver is interrupted.
pub fn finish<T: Hears>(
    told: &mut T,
    domain: &mut Domain,
    pool: &mut Pool,
    daemon: &mut BlkQueue,
    queue: &KnownQueue,
)
    requires ready { T.is_ready told.old }
    requires holds { Holds domain.old.bounce.frames pool.old }
    requires size { pool.old.per_page ≡ domain.old.bounce.per_page }
    requires reached { IsReached domain.old pool.old }
    ensures line { (x : Setting) (made : Creation) (acts : List Act) (q : ℕ) → Stands x acts domain.old pool.old →
        DaemonStands x acts q daemon.old → IsKnown made acts q queue.now →
        Tells (λ said. T.heard told.old said told.new) (finish_turn x made acts q)
        (After x acts q domain.new pool.new daemon.new) }
    ensures name { daemon.new.name ≡ daemon.old.name }
    ensures kept { Keeps domain.old.bounce.frames domain.new.bounce.frames pool.old pool.new }
    ensures counts { SameCounts domain.old domain.new }
{
    if queue.info.is_none() {
        return told.refused(Errno::Inval);
    }
    domain.sees(pool);
    let ended = finished(domain, pool, daemon, queue.features);
    domain.sees(pool);
    tell_finished(ended, told);
}
