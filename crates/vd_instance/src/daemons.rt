//! The block daemon's side of each queue.

ghost use Rattle.std.specs.Prelude.{◌≡◌, IfOk, replicate, ◌≢◌};
ghost use Rattle.vd_instance.specs.Daemons.{new_daemon, daemon_at};

use blk_daemon::BlkQueue;
use std::alloc::{AllocError, Global};
use vd_num::Name;

/// The block daemon's side of a queue, and how many positions had ended there when it was kept. It has no position once one
/// more has ended: a session, or what the queue describes.
#[derive(Drop)]
pub struct HeldDaemon {
    pub daemon: BlkQueue,
    pub ends: u64,
}

impl HeldDaemon {
    /// Forgets a position that ended since.
    pub(crate) fn renew(&mut self, ends: u64)
        ensures { self.new ≡ record { daemon = daemon_at ends self.old; ends = ends } }
    {
        if self.ends != ends {
            self.daemon.stop();
            self.ends = ends;
        }
    }
}

/// A daemon of each queue of a device of this name, none of which has a position.
pub(crate) fn new_daemons(
    alloc: Global,
    name: &[u8],
    queues: u32,
) -> Result<Vec<HeldDaemon>, AllocError>
    ensures { IfOk result (λ daemons. daemons.items ≡ replicate queues (new_daemon name.now)) }
{
    let mut daemons = Vec::with_capacity(alloc, queues as usize)?;
    for _queue in 0..queues {
        let own = Name::from_vec(Vec::from_slice(alloc, name)?);
        daemons.push(HeldDaemon {
            daemon: BlkQueue::new(alloc, own),
            ends: 0,
        })?;
    }
    Ok(daemons)
}
