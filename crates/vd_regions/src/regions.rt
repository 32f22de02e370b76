//! Regions in an ordered map, by their starts.

ghost use Rattle.std.specs.Prelude.{◌≡◌, ◌==◌, ◌≤◌, ◌↔◌, not, true, [], filter, find, IsTrue, OnOk, OnErr};
ghost use Rattle.std.specs.List.{list_any};
ghost use Rattle.std.specs.BTreeMap.{values};
ghost use Rattle.vd_model.specs.AreaTurns.{overlaps, first_region};
ghost use Rattle.vd_regions.specs.Ordered.{with_region};

use std::alloc::Global;
use std::collections::BTreeMap;
use std::marker::Model;
use vd_model::Region;
use vd_num::Range;

/// Why a region isn't added.
#[derive(Clone, Copy, Debug, PartialEq, Eq)]
pub enum AddRegionError {
    /// It meets a region that is there.
    Overlap,
    Memory,
}

/// Regions that don't overlap, in the order of their addresses.
#[derive(Drop)]
pub struct Regions {
    map: BTreeMap<u64, Region>,
}

impl Model for Regions {
    ghost use Rattle.std.specs.Prelude.{List};
    ghost use Rattle.std.specs.BTreeMap.{values};
    ghost use Rattle.vd_model.specs.declared.memory.Region.{Region};
    ghost use Rattle.vd_regions.specs.Ordered.{IsFrom};

    ghost Value = { List Region };

    ghost view = { λ r. values r.map };

    ghost invariant = { λ r. IsFrom 0 r.map.entries };
}

impl Regions {
    /// No regions.
    pub fn new(alloc: Global) -> Regions
        ensures { result ≡ [] }
    {
        Regions {
            map: BTreeMap::new(alloc),
        }
    }

    /// Adds a region.
    pub fn add(&mut self, region: Region) -> Result<(), AddRegionError>
        requires { region.start ≤ region.last }
        ensures ok { OnOk result (self.new ≡ with_region region self.old) }
        ensures overlap { result
            ≡ Err AddRegionError.Overlap ↔ (list_any (overlaps region.start region.last) self.old
            ≡ true) }
        ensures err { OnErr result (self.new ≡ self.old) }
    {
        let range = Range {
            start: region.start,
            last: region.last,
        };
        if meets(&self.map, range) {
            return Err(AddRegionError::Overlap);
        }
        match self.map.insert(region.start, region) {
            Ok(_) => Ok(()),
            Err(_) => Err(AddRegionError::Memory),
        }
    }

    /// Takes the region with this start away, and says whether there was one.
    pub fn remove(&mut self, start: u64) -> bool
        ensures was { IsTrue result ↔ (list_any (λ r. r.start == start) self.old ≡ true) }
        ensures new { self.new ≡ filter (λ r. not (r.start == start)) self.old }
    {
        self.map.remove(&start).is_some()
    }

    /// The region of least start that overlaps the range.
    pub fn first(&self, range: Range) -> Option<Region>
        ensures { result ≡ first_region self.now range.start range.last }
    {
        first_in(&self.map, range)
    }
}

/// The first region that overlaps the range, in the order of addresses.
fn first_in(map: &BTreeMap<u64, Region>, range: Range) -> Option<Region>
    ensures { result ≡ find (overlaps range.start range.last) (values map.now) }
{
    map.values().copied().find(|region| region.start <= range.last && range.start <= region.last)
}

/// Whether a region overlaps the range.
fn meets(map: &BTreeMap<u64, Region>, range: Range) -> bool
    ensures { result ≡ list_any (overlaps range.start range.last) (values map.now) }
{
    map.values().any(|region| region.start <= range.last && range.start <= region.last)
}

#[cfg(test)]
mod tests {
    use super::*;
    use std::test::Fail;

    #[test]
    fn keeps_apart(rt: HostRuntime) -> Result<(), Fail> {
        let mut regions = Regions::new(rt.alloc());
        let region = |start: u64, last: u64| Region {
            start,
            last,
            offset: start,
            perm: 3,
        };
        let first = regions.add(region(0, 9));
        let second = regions.add(region(9, 12));
        let third = regions.add(region(10, 12));
        assert_eq!(rt; first, Ok(()));
        assert_eq!(rt; second, Err(AddRegionError::Overlap));
        assert_eq!(rt; third, Ok(()));
        let range = |start: u64, last: u64| Range { start, last };
        assert_eq!(rt; regions.first(range(5, 100)), Some(region(0, 9)));
        assert_eq!(rt; regions.first(range(10, 100)), Some(region(10, 12)));
        assert_eq!(rt; regions.first(range(13, 100)), None);
        assert_eq!(rt; regions.remove(0), true);
        assert_eq!(rt; regions.remove(0), false);
        assert_eq!(rt; regions.first(range(5, 100)), Some(region(10, 12)));
        Ok(())
    }
}
