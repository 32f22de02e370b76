//! The lists of what is live, and of the slots that mappings met.

ghost use Rattle.std.specs.Prelude.{◌≡◌, ◌==◌, not, find, filter, map, IfOk};
ghost use Rattle.std.specs.List.{list_any};
ghost use Rattle.vd_model.specs.Live.{region_covers};
ghost use Rattle.vd_origin_moves.specs.Placed.{coherent, covers, stretch_of};

use std::alloc::AllocError;
use vd_num::SLOT_SIZE;
use vd_origin_moves::{Placed, Shared, Stretch};

/// The mapping of this number.
pub fn find_mapping(live: &Vec<Placed>, number: u64) -> Option<Placed>
    ensures { result ≡ find (λ p. p.number == number) live.now.items }
{
    live.iter().copied().find(|placed| placed.number == number)
}

/// The region of this number.
pub fn find_shared(shared: &Vec<Shared>, number: u64) -> Option<Shared>
    ensures { result ≡ find (λ r. r.number == number) shared.now.items }
{
    shared
        .iter()
        .copied()
        .find(|region| region.number == number)
}

/// Takes the mapping of this number out.
pub fn drop_mapping(live: &mut Vec<Placed>, number: u64)
    ensures { live.new.items ≡ filter (λ p. not (p.number == number)) live.old.items }
{
    live.retain(|placed| placed.number != number);
}

/// Takes the region of this number out.
pub fn drop_shared(shared: &mut Vec<Shared>, number: u64)
    ensures { shared.new.items ≡ filter (λ r. not (r.number == number)) shared.old.items }
{
    shared.retain(|region| region.number != number);
}

/// Whether one of some stretches has another one in it.
pub fn is_covered(met: &Vec<Stretch>, stretch: Stretch) -> bool
    ensures { result ≡ list_any (λ s. covers s stretch) met.now.items }
{
    met.iter().any(|other| other.has(&stretch))
}

/// Whether an address lies in one of some regions.
pub fn is_shared(shared: &Vec<Shared>, at: u64) -> bool
    ensures { result ≡ list_any (λ r. region_covers (coherent r) at) shared.now.items }
{
    let slot = at / SLOT_SIZE;
    shared.iter().any(|region| region.has(slot))
}

/// The slots of some mappings.
pub fn stretches(live: &Vec<Placed>) -> Result<Vec<Stretch>, AllocError>
    ensures { IfOk result (λ v. v.items ≡ map stretch_of live.now.items) }
{
    let mut met = Vec::new(*live.allocator());
    for placed in live {
        met.push(placed.stretch())?;
    }
    Ok(met)
}
