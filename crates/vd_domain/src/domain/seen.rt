//! What a domain shows, as a map.

ghost use Rattle.std.specs.Prelude.{◌≡◌, ◌<◌, List};
ghost use Rattle.std.specs.List.{All};
ghost use Rattle.vd_pool.specs.Memory.{PoolMemory};
ghost use Rattle.vd_model.specs.Setting.{Setting};
ghost use Rattle.vd_model.specs.Acts.{Act};
ghost use Rattle.vd_model.specs.Live.{live_mappings, maps};
ghost use Rattle.vd_model.specs.DaemonTurns.{daemon_memory};
ghost use Rattle.vd_domain.specs.Apart.{AreApart};
ghost use Rattle.vd_domain.specs.Seen.{daemon_map, ring_map, ring_memory};

use crate::domain::Domain;
use vd_pool::Pool;

impl Domain {
    ghost use Rattle.vd_domain.specs.Stands.{Stands};

    /// It shows what the acts say that it stands for. It does nothing.
    pub fn sees(&self, pool: &Pool)
        ensures { (x : Setting) (acts : List Act) → Stands x acts self.now pool.now →
            daemon_map self.now pool.now ≡ daemon_memory x acts }
    {
        let _pool = pool;
        let _shown = self.is_shown;
    }

    /// The same of coherent memory alone, over any pool. It does nothing.
    pub fn sees_rings(&self)
        ensures { (x : Setting) (acts : List Act) (m : PoolMemory) → Stands x acts self.now m →
            ring_map self.now ≡ ring_memory x acts }
    {
        let _shown = self.is_shown;
    }

    /// Live mappings lie in bounce memory, and live coherent regions behind it. It does nothing.
    pub fn keeps_apart(&self)
        ensures { (x : Setting) (acts : List Act) (m : PoolMemory) → Stands x acts self.now m →
            AreApart x acts }
    {
        let _shown = self.is_shown;
    }

    /// Live mappings have numbers of those that were given out. It does nothing.
    pub fn keeps_numbers(&self)
        ensures { (x : Setting) (acts : List Act) (m : PoolMemory) → Stands x acts self.now m →
            All (λ l. l.number < maps acts) (live_mappings acts) }
    {
        let _shown = self.is_shown;
    }
}
