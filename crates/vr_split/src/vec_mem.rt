//! Memory that is a vector.
ghost use Rattle.std.specs.Prelude.{◌≡◌, ◌≤◌, ◌+◌, ◌^◌, ◌<◌, length, ◌++◌, take, drop, IfOk, IfErr, Err, Some, None, refl};
ghost use Rattle.std.proofs.Common.{◌∙◌};
ghost use Rattle.vd_model.specs.Memory.{bytes_from, read};

use crate::Mem;
use vd_num::Bus;

/// Bytes from a base address on, and no others.
#[derive(Drop)]
pub struct VecMem {
    pub base: u64,
    pub bytes: Vec<u8>,
    ghost within: { base + length bytes.items ≤ 2 ^ 32 },
}

/// Writes bytes over those from a place on.
fn put(into: &mut [u8], i: usize, bytes: &[u8])
    requires { i + length bytes.now ≤ length into.old }
    ensures { into.new ≡ take i into.old ++ (bytes.now ++ drop (i + length bytes.now) into.old) }
{
    into[i..i + bytes.len()].copy_from_slice(bytes);
}

impl VecMem {
    pub fn new(base: u64, bytes: Vec<u8>) -> VecMem
        requires { base + length bytes.items ≤ 2 ^ 32 }
        ensures base { result.base ≡ base }
        ensures bytes { result.bytes ≡ bytes }
    {
        VecMem { base, bytes }
    }

    /// Where n bytes from an address on stand, if each of them is there.
    fn place(&self, at: u64, n: usize) -> Result<usize, Bus>
        requires { 0 < n }
        ensures within { IfOk result (λ i. i + n ≤ length self.now.bytes.items) }
        ensures at { IfOk result (λ i. at ≡ self.now.base + i) }
        ensures missing { IfErr result
            (λ bus. read (bytes_from self.now.base self.now.bytes.items) at n ≡ Err bus.at) }
    {
        let len = self.bytes.as_slice().len();
        if at < self.base || at - self.base >= len as u64 {
            return Err(Bus { at });
        }
        let i = (at - self.base) as usize;
        if n > len - i {
            return Err(Bus {
                at: self.base + len as u64,
            });
        }
        Ok(i)
    }
}

impl Mem for VecMem {
    ghost use Rattle.vr_split.specs.MemLemmas.{tells, tells_nothing, IsFinite-bytes_from};

    ghost told = { λ s. Some (bytes_from s.base s.bytes.items) };

    ghost span = { λ _. None };

    ghost keeps = { λ s t. s.base ≡ t.base };

    ghost told_ends = { λ s. tells _ _ (IsFinite-bytes_from s.base s.bytes.items s.within) };

    ghost span_ends = { λ _. tells_nothing _ };

    ghost keeps_refl = { λ s. refl };

    ghost keeps_trans = { λ a b c h g. h ∙ g };

    fn load(&mut self, at: u64, out: &mut [u8]) -> Result<(), Bus> {
        if out.is_empty() {
            return Ok(());
        }
        let i = self.place(at, out.len())?;
        let n = out.len();
        out.copy_from_slice(&self.bytes.as_slice()[i..i + n]);
        Ok(())
    }

    fn store(&mut self, at: u64, bytes: &[u8]) -> Result<(), Bus> {
        if bytes.is_empty() {
            return Ok(());
        }
        let i = self.place(at, bytes.len())?;
        put(&mut self.bytes, i, bytes);
        Ok(())
    }
}
