//! The memory that a ring lies in.
ghost use Rattle.std.specs.Prelude.{◌≡◌, ◌<◌, ◌^◌, Option, Some, length, IsOk};
ghost use Rattle.std.specs.Option.{ForSome};
ghost use Rattle.byteorder.specs.Endian.{little_bytes};
ghost use Rattle.vd_num.specs.declared.number.Range.{Range};
ghost use Rattle.vd_model.specs.Memory.{Memory, IsFinite};
ghost use Rattle.vr_split.specs.Mem.{Loads, LoadsNumber, Stores, InSpan, IsUnchanged};

use vd_num::{Bus, get16, set16};

/// Memory that may tell which byte stands at which address, and a span of addresses at which no call fails.
/// Memory that threads share tells no map: there each call is safe and returns, and says nothing of bytes.
pub trait Mem {
    /// The byte at each address, where it tells them.
    ghost told: { Self → Option Memory };

    /// Addresses at which no call fails, where it tells some.
    ghost span: { Self → Option Range };

    /// What each call leaves alone, as a relation between the states before and after.
    ghost keeps: { Self → Self → Type 0 };

    /// Loads the bytes from an address on, or answers the first address at which none stands.
    fn load(&mut self, at: u64, out: &mut [u8]) -> Result<(), Bus>
        ensures loads { ForSome (told self.old) (λ m. Loads m at (length out.old) result out.new) }
        ensures spanned { InSpan (span self.old) at (length out.old) → IsOk result }
        ensures memory { IsUnchanged told span keeps self.old self.new };

    /// Stores bytes from an address on, or answers the first address at which none stands, and stores none.
    fn store(&mut self, at: u64, bytes: &[u8]) -> Result<(), Bus>
        ensures stores { ForSome (told self.old) (λ m. Stores m at bytes.now result (told self.new)) }
        ensures spanned { InSpan (span self.old) at (length bytes.now) → IsOk result }
        ensures span { span self.new ≡ span self.old }
        ensures keeps { keeps self.old self.new };

    /// Loads a number of two bytes, the low one first.
    fn load16(&mut self, at: u64) -> Result<u16, Bus>
        ensures loads { ForSome (told self.old) (λ m. LoadsNumber m at result) }
        ensures spanned { InSpan (span self.old) at 2 → IsOk result }
        ensures memory { IsUnchanged told span keeps self.old self.new }
    {
        let mut bytes = [0; 2];
        self.load(at, &mut bytes)?;
        Ok(get16(&bytes, 0))
    }

    /// Stores a number of two bytes, the low one first, or nothing.
    fn store16(&mut self, at: u64, value: u16) -> Result<(), Bus>
        ensures stores { ForSome (told self.old)
            (λ m. Stores m at (little_bytes 2 value) result (told self.new)) }
        ensures spanned { InSpan (span self.old) at 2 → IsOk result }
        ensures span { span self.new ≡ span self.old }
        ensures keeps { keeps self.old self.new }
    {
        let mut bytes = [0; 2];
        set16(&mut bytes, 0, value);
        self.store(at, &bytes)
    }

    /// It tells no byte from 2^32 on.
    ghost told_ends: { (s : Self) → ForSome (told s) IsFinite };

    /// Its span ends below 2^64.
    ghost span_ends: { (s : Self) → ForSome (span s) (λ r. r.last < 2 ^ 64) };

    ghost keeps_refl: { (s : Self) → keeps s s };

    ghost keeps_trans: { (a b c : Self) → keeps a b → keeps b c → keeps a c };
}
