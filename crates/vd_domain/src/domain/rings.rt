//! Accesses to coherent memory alone.

ghost use Rattle.std.specs.Prelude.{◌≡◌, ◌-◌, ◌<◌, ◌≤◌, List, ◌∷◌, length, None, Some, IfNone, OnErr, MatchResult};
ghost use Rattle.vd_pool.specs.Memory.{PoolMemory};
ghost use Rattle.vd_bounce.specs.Bounce.{bounce_len, IsThere};
ghost use Rattle.vd_model.specs.Setting.{Setting};
ghost use Rattle.vd_model.specs.Acts.{Act, Driver, Driver_put};
ghost use Rattle.vd_model.specs.Puts.{bus_bytes};
ghost use Rattle.vd_model.specs.AreaTurns.{first_failing};
ghost use Rattle.vd_domain.specs.Handed.{is_coherent};
ghost use Rattle.vd_domain.specs.Held.{SameCounts};

use crate::access::{end_of, first_missing};
use crate::domain::Domain;
use vd_num::Bus;

impl Domain {
    ghost use Rattle.vd_domain.specs.Stands.{Stands};

    /// Fills a slice from coherent memory, or answers the first address that lies in no coherent region.
    pub fn ring_load(&self, at: u64, out: &mut [u8]) -> Result<(), Bus>
        ensures ok { (x : Setting) (acts : List Act) (m : PoolMemory) → Stands x acts self.now m → MatchResult result
            (λ _. (first_failing (is_coherent acts) at (length out.old) ≡ None)
            × (out.new ≡ bus_bytes x.per_page acts at (length out.old)))
            (λ bus. first_failing (is_coherent acts) at (length out.old) ≡ Some bus.at) }
        ensures left { OnErr result (out.new ≡ out.old) }
    {
        if let Some(at) = self.first_outside(at, out.len()) {
            return Err(Bus { at });
        }
        let end = end_of(&self.bounce);
        self.shared.get(&self.store, at.saturating_sub(end), out);
        Ok(())
    }

    /// Writes the driver's bytes into coherent memory, or answers the first address that lies in no coherent
    /// region and writes none.
    pub fn ring_store(&mut self, at: u64, bytes: &[u8]) -> Result<(), Bus>
        ensures ok { (x : Setting) (acts : List Act) (m : PoolMemory) → Stands x acts self.old m → MatchResult result
            (λ _. (first_failing (is_coherent acts) at (length bytes.now) ≡ None)
            × Stands x (Driver (Driver_put at bytes.now) ∷ acts) self.new m)
            (λ bus. first_failing (is_coherent acts) at (length bytes.now) ≡ Some bus.at) }
        ensures err { OnErr result (self.new ≡ self.old) }
        ensures bounce { self.new.bounce ≡ self.old.bounce }
        ensures counts { SameCounts self.old self.new }
    {
        if let Some(at) = self.first_outside(at, bytes.len()) {
            return Err(Bus { at });
        }
        let end = end_of(&self.bounce);
        self.shared
            .put(&mut self.store, at.saturating_sub(end), bytes);
        Ok(())
    }

    /// The first of some addresses that lies in no coherent region.
    fn first_outside(&self, at: u64, len: usize) -> Option<u64>
        ensures first { (x : Setting) (acts : List Act) (m : PoolMemory) →
            Stands x acts self.now m → result ≡ first_failing (is_coherent acts) at len }
        ensures above { IfNone result (0 < len → bounce_len self.now.bounce ≤ at) }
        ensures there { IfNone result (IsThere self.now.shared (at - bounce_len self.now.bounce) len) }
    {
        if len > 0 && at < end_of(&self.bounce) {
            return Some(at);
        }
        first_missing(&self.bounce, &self.shared, at, len)
    }
}
