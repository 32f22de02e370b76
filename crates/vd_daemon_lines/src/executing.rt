//! The line that executes the request in hand.
ghost use Rattle.std.specs.Prelude.{◌≡◌, ◌≤◌, ◌+◌, ◌∷◌, [], ℕ, List, Some, None, true, false};
ghost use Rattle.vd_io.specs.Told.{Rose};
ghost use Rattle.vd_num.specs.declared.errno.Errno.TheVariants.{Inval, Noent};
ghost use Rattle.vd_model.specs.Setting.{Setting};
ghost use Rattle.vd_model.specs.Creation.{Creation};
ghost use Rattle.vd_model.specs.Acts.{Act};
ghost use Rattle.vd_model.specs.Block.{Disk as BlockDisk, block_of};
ghost use Rattle.vd_model.specs.Queues.{Execution};
ghost use Rattle.vd_model.specs.DaemonTurns.{Hand, execute_turn};
ghost use Rattle.vd_model.specs.declared.answer.Answer.TheVariants.{Done};
ghost use Rattle.vd_model.specs.declared.answer.Item.TheVariants.{Word, Number};
ghost use Rattle.vd_model.specs.declared.answer.Tag.TheVariants as tag;
ghost use Rattle.vd_answers.specs.Tells.{Tells};
ghost use Rattle.blk_daemon.specs.Held.{to_execute};
ghost use Rattle.blk_daemon.specs.Executed.{IsDisk};
ghost use Rattle.vd_daemon_lines.specs.Known.{IsKnown};
ghost use Rattle.vd_daemon_lines.specs.Stands.{DaemonStands};
ghost use Rattle.vd_daemon_lines.specs.Disk.{AfterDisk, GoesOn};

use crate::known::{Drive, KnownQueue};
use blk_daemon::{BlkQueue, NoRequest};
use vd_answers::Hears;
use vd_io::Image;
use vd_model::{Item, Tag};
use vd_num::Errno;

/// Tells the status of a request.
fn tell_status<T: Hears>(status: u8, told: &mut T)
    requires { T.is_ready told.old }
    ensures { T.heard told.old (Done (Word tag.Status ∷ Number status ∷ [])) told.new }
{
    told.fields(&[Item::Word(Tag::Status), Item::Number(u64::from(status))]);
}

/// Executes the request in hand on a window of an image, tells its status, and answers whether the image failed at it.
pub fn execute<T: Hears, I: Image>(
    told: &mut T,
    disk: &mut I,
    daemon: &mut BlkQueue,
    queue: &KnownQueue,
    drive: &Drive,
) -> bool
    requires ready { T.is_ready told.old }
    requires window { drive.now.window.first + drive.now.window.count ≤ I.size disk.old }

    // The status is told whatever the image tells of itself.
    ensures line { (x : Setting) (made : Creation) (acts : List Act) (q : ℕ) (b : BlockDisk) →
        DaemonStands x acts q daemon.old →
        IsKnown made acts q queue.now →
        IsDisk (I.content disk.old) drive.now.window drive.now.offered daemon.old.name b →
        Tells (λ said. T.heard told.old said told.new) (execute_turn x made b result acts q)
        (AfterDisk x acts q drive.now.window (I.content disk.old) (I.content disk.new) daemon.new) }
    ensures goes_on { (x : Setting) (acts : List Act) (q : ℕ) → DaemonStands x acts q daemon.old →
        GoesOn x acts q daemon.new }
    ensures cause { result ≡ true → Rose (I.faults disk.old) (I.faults disk.new) }

    // Where there is no such queue, or nothing that wasn't executed before, all is as it was.
    ensures missing { queue.now.info ≡ None →
        (disk.new ≡ disk.old) × (daemon.new ≡ daemon.old) × (result ≡ false) }
    ensures idle { to_execute daemon.old.request ≡ None →
        (disk.new ≡ disk.old) × (daemon.new ≡ daemon.old) × (result ≡ false) }

    // A flush succeeds only where the count of flushes rose.
    ensures flushed { (h : Hand) (end : Execution) → to_execute daemon.old.request ≡ Some h →
        daemon.new.request ≡ Some (record { hand = h; outcome = Some end }) →
        (block_of h.bytes h.writable).kind ≡ 4 → end.status ≡ 0 → Rose (I.flushes disk.old) (I.flushes disk.new) }
    ensures faults { I.faults disk.old ≤ I.faults disk.new }
    ensures flushes { I.flushes disk.old ≤ I.flushes disk.new }
    ensures size { I.size disk.new ≡ I.size disk.old }
    ensures name { daemon.new.name ≡ daemon.old.name }
{
    if queue.info.is_none() {
        told.refused(Errno::Inval);
        return false;
    }
    match daemon.execute(disk, drive.window, drive.offered) {
        Ok(executed) => {
            tell_status(executed.status, told);
            executed.failed
        }
        Err(NoRequest) => {
            told.refused(Errno::Noent);
            false
        }
    }
}
