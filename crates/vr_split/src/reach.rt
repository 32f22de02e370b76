//! Loads and stores at addresses where they can't fail.
ghost use Rattle.std.specs.Prelude.{◌≡◌, Ok, length};
ghost use Rattle.std.specs.Option.{ForSome};
ghost use Rattle.byteorder.specs.Endian.{little_bytes};
ghost use Rattle.vd_model.specs.Memory.{written, read};
ghost use Rattle.vd_model.specs.Rings.{number16};
ghost use Rattle.vr_split.specs.Mem.{IsUnchanged, Becomes};
ghost use Rattle.vr_split.specs.Reach.{Reaches, KeepsReach};

use crate::Mem;

/// Stores bytes that are in reach.
pub fn store_in_reach<M: Mem>(mem: &mut M, at: u64, bytes: &[u8])
    requires { Reaches (M.told mem.old) (M.span mem.old) at (length bytes.now) }
    ensures stored { Becomes M.told mem.old mem.new (λ m. written m at bytes.now) }
    ensures memory { KeepsReach M.told M.span M.keeps mem.old mem.new }
{
    match mem.store(at, bytes) {
        Ok(()) => {}
        Err(_) => unreachable!(),
    }
}

/// Stores a number of two bytes that are in reach.
pub fn store16_in_reach<M: Mem>(mem: &mut M, at: u64, value: u16)
    requires { Reaches (M.told mem.old) (M.span mem.old) at 2 }
    ensures stored { Becomes M.told mem.old mem.new (λ m. written m at (little_bytes 2 value)) }
    ensures memory { KeepsReach M.told M.span M.keeps mem.old mem.new }
{
    match mem.store16(at, value) {
        Ok(()) => {}
        Err(_) => unreachable!(),
    }
}

/// Loads bytes that are in reach.
pub fn load_in_reach<M: Mem>(mem: &mut M, at: u64, out: &mut [u8])
    requires { Reaches (M.told mem.old) (M.span mem.old) at (length out.old) }
    ensures loaded { ForSome (M.told mem.old) (λ m. read m at (length out.old) ≡ Ok out.new) }
    ensures memory { IsUnchanged M.told M.span M.keeps mem.old mem.new }
{
    match mem.load(at, out) {
        Ok(()) => {}
        Err(_) => unreachable!(),
    }
}

/// Loads a number of two bytes that are in reach.
pub fn load16_in_reach<M: Mem>(mem: &mut M, at: u64) -> u16
    requires { Reaches (M.told mem.old) (M.span mem.old) at 2 }
    ensures loaded { ForSome (M.told mem.old) (λ m. number16 m at ≡ Ok result) }
    ensures memory { IsUnchanged M.told M.span M.keeps mem.old mem.new }
{
    match mem.load16(at) {
        Ok(value) => value,
        Err(_) => unreachable!(),
    }
}
