//! The memory that a driver's ring lies in.
ghost use Rattle.vd_ring_memory.specs.RingPuts.{IsRingReached};

use vd_domain::Domain;
use vd_num::Bus;
use vr_split::Mem;

/// A domain, lent to the code of a ring on its driver's side.
#[derive(Drop)]
pub struct RingMem<'a> {
    pub domain: &'a mut Domain,
    pub ghost reached: { ∥ IsRingReached domain.now ∥₁ },
}

impl<'a> Mem for RingMem<'a> {
    ghost use Rattle.std.proofs.Common.{◌∙◌};
    ghost use Rattle.std.specs.Prelude.{◌≡◌, Some, None, refl};
    ghost use Rattle.vd_domain.specs.Seen.{ring_map};
    ghost use Rattle.vr_split.specs.MemLemmas.{tells, tells_nothing};
    ghost use Rattle.vd_ring_memory.specs.RingPuts.{IsAfterRingPuts};
    ghost use Rattle.vd_ring_memory.specs.RingPutLemmas.{ring_finite, ring_after_none, ring_after_more};

    ghost told = { λ s. Some (ring_map s.domain.now) };

    ghost span = { λ _. None };

    ghost keeps = { λ s t. (t.domain.ghost_name ≡ s.domain.ghost_name) × IsAfterRingPuts s.domain.now t.domain.now };

    ghost told_ends = { λ s. tells _ _ (ring_finite s.domain.now) };

    ghost span_ends = { λ _. tells_nothing _ };

    ghost keeps_refl = { λ s. (refl, ring_after_none s.domain.now) };

    ghost keeps_trans = { λ a b c h g. (g.0 ∙ h.0, ring_after_more h.1 g.1) };

    fn load(&mut self, at: u64, out: &mut [u8]) -> Result<(), Bus> {
        self.domain.sees_rings();
        self.domain.ring_load(at, out)
    }

    fn store(&mut self, at: u64, bytes: &[u8]) -> Result<(), Bus> {
        self.domain.sees_rings();
        let stored = self.domain.ring_store(at, bytes);
        self.domain.sees_rings();
        stored
    }
}
