//! A table of regions, made of a list of them.

ghost use Rattle.std.specs.Prelude.{◌≡◌, ◌&&◌, true, false, List, MatchOption, IfOk, drop};
ghost use Rattle.std.specs.List.{list_all};
ghost use Rattle.vd_model.specs.declared.memory.Region.{Region as Span};
ghost use Rattle.vd_vhost_model.specs.GuestTable.{is_region_of, are_apart};
ghost use Rattle.vd_vhost_model.specs.VhostTurns.{is_table_of};
ghost use Rattle.vd_guest.specs.Kept.{IsTableFor};

use std::alloc::{AllocError, Global};
use vd_model::Region;
use vd_regions::{AddRegionError, Regions};

/// Whether a region permits something, has an address, and lies within a memory of so many bytes.
fn is_region_of(region: &Region, size: u64) -> bool
    ensures { result ≡ is_region_of size region.now }
{
    if region.perm < 1 || region.perm > 3 || region.start > region.last {
        return false;
    }
    let past = region.last - region.start;
    region.offset < size && past < size - region.offset
}

/// Whether each of the regions does.
fn are_regions_of(spans: &[Region], size: u64) -> bool
    ensures { result ≡ list_all (is_region_of size) spans.now }
{
    spans.iter().all(|region| is_region_of(region, size))
}

/// The regions as a table over a memory of so many bytes: None exactly where they can't be one.
pub fn table_of(alloc: Global, spans: &[Region], size: u64) -> Result<Option<Regions>, AllocError>
    ensures { IfOk result (λ table. MatchOption table (is_table_of size spans.now ≡ false)
        (λ kept. (is_table_of size spans.now ≡ true) × IsTableFor size spans.now kept)) }
{
    if !are_regions_of(spans, size) {
        return Ok(None);
    }
    let mut table = Regions::new(alloc);
    let mut left = spans.len();
    while left > 0 {
        left -= 1;
        match table.add(spans[left]) {
            Ok(()) => {}
            Err(AddRegionError::Overlap) => return Ok(None),
            Err(AddRegionError::Memory) => return Err(AllocError),
        }
    }
    Ok(Some(table))
}
