//! The places of the driver's sides of the queues.

ghost use Rattle.std.specs.Prelude.{◌≡◌, IfOk, replicate, None};
ghost use Rattle.std.specs.List.{list_any};
ghost use Rattle.vd_model.specs.Queues.{has_map, made_buffer};
ghost use Rattle.vd_instance.specs.Drivers.{is_in, owns};

use std::alloc::{AllocError, Global};
use vd_request_lines::HeldDriver;

/// A place for the driver's side of each queue, none of which has a ring.
pub(crate) fn no_drivers(alloc: Global, queues: u32) -> Result<Vec<Option<HeldDriver>>, AllocError>
    ensures { IfOk result (λ drivers. drivers.items ≡ replicate queues None) }
{
    let mut drivers = Vec::with_capacity(alloc, queues as usize)?;
    for _queue in 0..queues {
        drivers.push(None)?;
    }
    Ok(drivers)
}

/// Whether a ring that is kept lies in a region.
fn is_in(kept: &Option<HeldDriver>, region: u64) -> bool
    ensures { result ≡ is_in region kept.now }
{
    match kept {
        Some(held) => held.region == region,
        None => false,
    }
}

/// Whether a ring lies in a region.
pub(crate) fn has_region(drivers: &[Option<HeldDriver>], region: u64) -> bool
    ensures { result ≡ list_any (is_in region) drivers.now }
{
    drivers.iter().any(|kept| is_in(kept, region))
}

/// Whether a pending request of a queue has a mapping.
fn has_map(kept: &Option<HeldDriver>, mapping: u64) -> bool
    ensures { result ≡ owns (has_map mapping) kept.now }
{
    match kept {
        Some(held) => held.driver.owns_map(mapping),
        None => false,
    }
}

/// Whether a buffer was made for a pending request of a queue.
fn made_buffer(kept: &Option<HeldDriver>, buffer: u64) -> bool
    ensures { result ≡ owns (made_buffer buffer) kept.now }
{
    match kept {
        Some(held) => held.driver.owns_buffer(buffer),
        None => false,
    }
}

/// Whether a pending request has a mapping.
pub(crate) fn owns_map(drivers: &[Option<HeldDriver>], mapping: u64) -> bool
    ensures { result ≡ list_any (owns (has_map mapping)) drivers.now }
{
    drivers.iter().any(|kept| has_map(kept, mapping))
}

/// Whether a buffer was made for a pending request.
pub(crate) fn owns_buffer(drivers: &[Option<HeldDriver>], buffer: u64) -> bool
    ensures { result ≡ list_any (owns (made_buffer buffer)) drivers.now }
{
    drivers.iter().any(|kept| made_buffer(kept, buffer))
}
