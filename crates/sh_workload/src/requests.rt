//! A request with its bytes.
ghost use Rattle.std.specs.Prelude.{◌≡◌, ◌≤◌, ◌<◌, ◌+◌, ◌*◌, IfOk, length};
ghost use Rattle.vd_model.specs.Puts.{each_from};
ghost use Rattle.sh_workload.specs.Requests.{bytes_of, byte_of, request_by, request_at, state_at};

use crate::generator::Generator;
use crate::plan::Plan;
use std::alloc::{AllocError, Global};
use vd_num::Bytes;

/// A request of a driver: the number of its type, its first sector and how many it has, and the
/// bytes of a write, which are none for the other kinds.
#[derive(Drop)]
pub struct WorkRequest {
    pub kind: u32,
    pub sector: u64,
    pub sectors: u32,
    pub bytes: Bytes,
}

/// Fills a driver's write at a place.
fn fill(driver: u32, place: u32, bytes: &mut [u8])
    requires { length bytes.old ≤ 2048 }
    ensures { bytes.new ≡ each_from (byte_of driver place) 0 (length bytes.old) }
{
    let first = 31 * u64::from(driver) + 7 * u64::from(place);
    for (j, byte) in bytes.iter_mut().enumerate() {
        *byte = ((first + j as u64) % 256) as u8;
    }
}

/// The bytes of a driver's write at a place.
fn write_bytes(alloc: Global, driver: u32, place: u32, len: usize) -> Result<Vec<u8>, AllocError>
    requires { len ≤ 2048 }
    ensures { IfOk result (λ v. v.items ≡ each_from (byte_of driver place) 0 len) }
{
    let mut bytes = vec![in alloc; 0; len]?;
    fill(driver, place, bytes.as_mut_slice());
    Ok(bytes)
}

impl WorkRequest {
    /// The request that a plan asks a driver for at a place.
    pub fn new(
        alloc: Global,
        plan: Plan,
        driver: u32,
        place: u32,
    ) -> Result<WorkRequest, AllocError>
        requires { plan.sectors ≤ 4 }
        ensures { IfOk result (λ r. r ≡ request_by plan driver place) }
    {
        let bytes = if plan.is_write() {
            write_bytes(alloc, driver, place, 512 * plan.sectors as usize)?
        } else {
            Vec::new(alloc)
        };
        Ok(WorkRequest {
            kind: plan.kind,
            sector: plan.sector,
            sectors: plan.sectors,
            bytes: Bytes::from_vec(bytes),
        })
    }
}

/// The request of a driver at a place, in a run that begins at `start`.
pub fn request(
    alloc: Global,
    start: u64,
    driver: u32,
    place: u32,
) -> Result<WorkRequest, AllocError>
    requires driver { driver ≤ 7 }
    requires place { place < 20000 }
    ensures { IfOk result (λ r. r ≡ request_at start driver place) }
{
    let mut generator = Generator::new(start, driver);
    for _ in 0..place {
        Plan::draw(&mut generator);
    }
    WorkRequest::new(alloc, Plan::draw(&mut generator), driver, place)
}
