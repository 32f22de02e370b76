//! The memory that a daemon can access.
ghost use Rattle.std.specs.Prelude.{◌≡◌, ℕ, Some, None, true};
ghost use Rattle.vd_pool.specs.Memory.{is_out};
ghost use Rattle.vd_bounce.specs.Frames.{frame_of, Holds};
ghost use Rattle.vd_ring_memory.specs.Puts.{IsReached};

use vd_domain::Domain;
use vd_num::Bus;
use vd_pool::Pool;
use vr_split::Mem;

/// A domain and the pool of its frames, lent to the code of a ring.
#[derive(Drop)]
pub struct DaemonMem<'a> {
    pub domain: &'a mut Domain,
    pub pool: &'a mut Pool,
    pub ghost out: { (page f : ℕ) → frame_of domain.now.bounce.frames page ≡ Some f → is_out pool.now f ≡ true },
    pub ghost apart: { (p q f : ℕ) → frame_of domain.now.bounce.frames p ≡ Some f →
        frame_of domain.now.bounce.frames q ≡ Some f → p ≡ q },
    pub ghost size: { pool.now.per_page ≡ domain.now.bounce.per_page },
    pub ghost reached: { ∥ IsReached domain.now pool.now ∥₁ },
}

impl<'a> Mem for DaemonMem<'a> {
    ghost use Rattle.std.proofs.Common.{◌∙◌};
    ghost use Rattle.std.specs.Prelude.{refl};
    ghost use Rattle.vd_domain.specs.Seen.{daemon_map};
    ghost use Rattle.vr_split.specs.MemLemmas.{tells, tells_nothing};
    ghost use Rattle.vd_ring_memory.specs.Puts.{IsAfterPuts};
    ghost use Rattle.vd_ring_memory.specs.PutLemmas.{finite, after_none, after_more};

    ghost told = { λ s. Some (daemon_map s.domain.now s.pool.now) };

    ghost span = { λ _. None };

    ghost keeps = { λ s t. (t.domain.ghost_name ≡ s.domain.ghost_name)
        × (t.pool.ghost_name ≡ s.pool.ghost_name) × IsAfterPuts s.domain.now s.pool.now t.domain.now t.pool.now };

    ghost told_ends = { λ s. tells _ _ (finite s.domain.now s.pool.now) };

    ghost span_ends = { λ _. tells_nothing _ };

    ghost keeps_refl = { λ s.
        (refl, refl, after_none s.domain.now s.pool.now (record { out = s.out; apart = s.apart })) };

    ghost keeps_trans = { λ a b c h g. (g.0 ∙ h.0, g.1 ∙ h.1, after_more h.2 g.2) };

    fn load(&mut self, at: u64, out: &mut [u8]) -> Result<(), Bus> {
        self.domain.sees(self.pool);
        self.domain.load(self.pool, at, out)
    }

    fn store(&mut self, at: u64, bytes: &[u8]) -> Result<(), Bus> {
        self.domain.sees(self.pool);
        let stored = self.domain.store(self.pool, at, bytes);
        self.domain.sees(self.pool);
        stored
    }
}
