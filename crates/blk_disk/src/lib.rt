//! A disk that a crash may stop at any moment.
//!
//! A write reaches a disk before it stays there: until the next sync a crash may leave a sector's old
//! content in its place. A disk may tell, for each of its sectors, the present content and the list of
//! contents that a crash now may leave. For what happens within a call of a layer above it has the
//! relation `through`: from one state of the disk to a later one, at each moment in between, each
//! sector's list lay within a map of lists.
#![tactic(auto)]

ghost use Rattle.std.specs.Prelude.{◌≡◌, ◌≢◌, ◌/◌, ℕ, Bool, true, List, Result, OnOk, OnErr, length};
ghost use Rattle.vd_io.specs.Told.{HasCause, Rose};
ghost use Rattle.vd_io.specs.Sectors.{IsSpan};
ghost use Rattle.blk_disk.specs.Contents.{Has, AreWhole, IsEither, joined};
ghost use Rattle.blk_disk.specs.Moments.{Lie, IsListedWrite, AreSingle};

use vd_io::Failed;

/// A disk of sectors of 512 bytes.
pub trait Disk {
    // Whether it tells its contents.
    ghost tells: { Bool };

    // How many sectors it has.
    ghost size: { Self → ℕ };

    // The present content of each sector.
    ghost present: { Self → ℕ → List ℕ };

    // The contents of each sector, one of which a crash now leaves.
    ghost may_leave: { Self → ℕ → List (List ℕ) };

    // The moments so far.
    ghost clock: { Self → ℕ };

    // How often it failed.
    ghost faults: { Self → ℕ };

    // At each moment from the first state to the second, each sector's list lies in that of the map.
    ghost through: { (ℕ → List (List ℕ)) → Self → Self → Type 0 };

    /// The number of its sectors, which never changes.
    fn sectors(&self) -> u64
        ensures size { result ≡ size self.now }
        ensures whole { tells ≡ true → AreWhole result (present self.now) }
        ensures listed { tells ≡ true → (s : ℕ) → Has (present self.now s) (may_leave self.now s) };

    /// Reads whole sectors from this one on.
    fn read(&mut self, sector: u64, into: &mut [u8]) -> Result<(), Failed>
        requires { IsSpan (size self.old) sector (length into.old) }
        ensures read { tells ≡ true →
            OnOk result (into.new ≡ joined (present self.old) sector (length into.old / 512)) }
        ensures kept { tells ≡ true → (s : ℕ) → present self.new s ≡ present self.old s }
        ensures lists { tells ≡ true → (s : ℕ) → may_leave self.new s ≡ may_leave self.old s }
        ensures moments { tells ≡ true → (map : ℕ → List (List ℕ)) →
            Lie map (may_leave self.old) → Lie map (may_leave self.new) → through map self.old self.new }
        ensures size { size self.new ≡ size self.old }
        ensures clock { Rose (clock self.old) (clock self.new) }
        ensures cause { HasCause (faults self.old) (faults self.new) result };

    /// Replaces one sector. After `Failed` it has the new bytes or the old ones.
    fn write(&mut self, sector: u64, bytes: &[u8]) -> Result<(), Failed>
        requires inside { IsSpan (size self.old) sector (length bytes.now) }
        requires one { length bytes.now ≡ 512 }
        ensures written { tells ≡ true → OnOk result (present self.new sector ≡ bytes.now) }
        ensures either { tells ≡ true → IsEither sector bytes.now (present self.old) (present self.new) }
        ensures others { tells ≡ true → (s : ℕ) → s ≢ sector → present self.new s ≡ present self.old s }
        ensures lists { tells ≡ true →
            IsListedWrite sector bytes.now (may_leave self.old) (may_leave self.new) }
        ensures listed { tells ≡ true → Has (present self.new sector) (may_leave self.new sector) }
        ensures moments { tells ≡ true → (map : ℕ → List (List ℕ)) →
            Lie map (may_leave self.old) → Lie map (may_leave self.new) → through map self.old self.new }
        ensures size { size self.new ≡ size self.old }
        ensures clock { Rose (clock self.old) (clock self.new) }
        ensures cause { HasCause (faults self.old) (faults self.new) result };

    /// Makes what was written stay.
    fn sync(&mut self) -> Result<(), Failed>
        ensures kept { tells ≡ true → (s : ℕ) → present self.new s ≡ present self.old s }
        ensures synced { tells ≡ true → OnOk result (AreSingle (present self.new) (may_leave self.new)) }
        ensures lists { tells ≡ true → OnErr result ((s : ℕ) → may_leave self.new s ≡ may_leave self.old s) }
        ensures moments { tells ≡ true → (map : ℕ → List (List ℕ)) →
            Lie map (may_leave self.old) → Lie map (may_leave self.new) → through map self.old self.new }
        ensures size { size self.new ≡ size self.old }
        ensures clock { Rose (clock self.old) (clock self.new) }
        ensures cause { HasCause (faults self.old) (faults self.new) result };

    // It holds from a state to itself where its lists lie in the map's, and goes on for one map.
    ghost stays: { (map : ℕ → List (List ℕ)) (disk : Self) → Lie map (may_leave disk) → through map disk disk };

    ghost goes_on: { (map : ℕ → List (List ℕ)) (a b c : Self) → through map a b → through map b c → through map a c };
}
