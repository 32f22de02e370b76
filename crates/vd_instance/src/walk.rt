//! The line that walks a chain.

ghost use Rattle.std.specs.Prelude.{◌≡◌, ℕ, List};
ghost use Rattle.vd_pool.specs.Memory.{PoolMemory};
ghost use Rattle.vd_model.specs.Setting.{Setting};
ghost use Rattle.vd_model.specs.Creation.{Creation};
ghost use Rattle.vd_model.specs.Acts.{Act};
ghost use Rattle.vd_model.specs.DaemonTurns.{walk_turn};
ghost use Rattle.vd_model.specs.History.{needs_session};
ghost use Rattle.vd_answers.specs.Tells.{MayTell};
ghost use Rattle.vd_memory_lines.specs.Rest.{KeepsRest};
ghost use Rattle.vd_ring_memory.specs.Known.{IsKnown};

use crate::instance::Instance;
use crate::known::{has_indirect, known};
use std::alloc::AllocError;
use vd_answers::Hears;
use vd_num::Errno;
use vd_pool::Pool;
use vd_ring_memory::{ChainAt, walk};

impl Instance {
    ghost use Rattle.vd_instance.specs.Stands.{Stands, After, IsHeld, IsNamed, IsReached};

    /// What is known of a queue, and of the tables of its chains.
    fn chain_at(&self, queue: u32, head: u16) -> ChainAt
        ensures known { (x : Setting) (made : Creation) (acts : List Act) (m : PoolMemory) →
            Stands x made acts self.now m → IsKnown made acts queue result.queue result.indirect }
        ensures head { result.head ≡ head }
    {
        ChainAt {
            queue: known(&self.device.path.state, queue),
            head,
            indirect: has_indirect(self.device.path.state.features()),
        }
    }

    /// Walks the chain of a queue that begins at a head, which needs a session.
    pub(crate) fn walk<T: Hears>(
        &mut self,
        pool: &mut Pool,
        queue: u32,
        head: u16,
        told: &mut T,
    ) -> Result<(), AllocError>
        requires ready { T.is_ready told.old }
        requires held { IsHeld self.old pool.old }
        requires reached { IsReached self.old pool.old }
        ensures line { (x : Setting) (made : Creation) (acts : List Act) → Stands x made acts self.old pool.old
            → MayTell (λ said. T.heard told.old said told.new)
            (needs_session acts (walk_turn x made acts queue head)) (After x made acts self.new pool.new) result }
        ensures rest { KeepsRest self.old.device.memory self.new.device.memory pool.old pool.new }
        ensures path { self.new.device.path ≡ self.old.device.path }
        ensures named { (name : List ℕ) → IsNamed name self.old → IsNamed name self.new }
    {
        if !self.device.path.opened {
            told.refused(Errno::Badf);
            return Ok(());
        }
        let chain = self.chain_at(queue, head);
        let alloc = self.device.memory.alloc;
        walk(told, alloc, &mut self.device.memory.domain, pool, &chain)
    }
}
