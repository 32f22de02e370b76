//! Fetching the request that is due.
ghost use Rattle.std.specs.Prelude.{◌≡◌, ◌<◌, ◌≤◌, true, Some, IfOk, IfSome};
ghost use Rattle.vr_split.specs.Reach.{KeepsReach};
ghost use Rattle.blk_daemon.specs.Held.{Held, payload_in};
ghost use Rattle.blk_daemon.specs.Fetched.{TakesUp};
ghost use Rattle.sh_workload.specs.Requests.{answer_len};
ghost use Rattle.sh_due.specs.Due.{IsInHand};

use crate::parts::{Places, places_of};
use blk_daemon::{BlkQueue, FetchError, Fetched, RingPlace};
use sh_workload::WorkRequest;
use std::alloc::AllocError;
use vr_split::Mem;

/// A request that was fetched and is the one that is due: where its readable parts lie, and its tag.
#[derive(Clone, Copy, Debug)]
pub struct Candidate {
    pub places: Places,
    pub tag: u32,
}

/// How many bytes the device writes: a read's, and the status.
fn answer_len(due: &WorkRequest) -> u64
    ensures { result ≡ answer_len due.now }
{
    if due.kind == 0 {
        512 * u64::from(due.sectors) + 1
    } else {
        1
    }
}

/// Whether bytes are the same.
fn same(xs: &[u8], ys: &[u8]) -> bool
    ensures { result ≡ true → xs.now ≡ ys.now }
{
    xs == ys
}

/// Whether what was fetched is the request, its reserved word aside.
#[tactic(auto, using(crate::proofs::PartLemmas::fetched_due))]
fn is_due(queue: &BlkQueue, fetched: &Fetched, due: &WorkRequest) -> bool
    requires { (before : Held) × TakesUp before queue.now fetched.now }
    ensures { result ≡ true → IsInHand due.now queue.now.request }
{
    if fetched.header.kind != due.kind || fetched.header.sector != due.sector {
        return false;
    }
    if fetched.writable != answer_len(due) {
        return false;
    }
    same(queue.payload(), due.bytes.as_slice())
}

/// The request in hand, if its readable parts are a header and the bytes of a write.
fn candidate_in(queue: &BlkQueue, tag: u32, due: &WorkRequest) -> Option<Candidate> {
    let chain = queue.chain()?;
    let places = places_of(chain.parts.as_slice(), due.bytes.len())?;
    Some(Candidate { places, tag })
}

/// Fetches the request at the position, and answers it where it is the one that is due. Else the queue
/// forgets its position and what is in hand, as after every refusal but want of memory.
pub fn fetch<M: Mem>(
    queue: &mut BlkQueue,
    mem: &mut M,
    place: RingPlace,
    features: u64,
    due: &WorkRequest,
) -> Result<Option<Candidate>, AllocError>
    requires some { 0 < place.size }
    requires small { place.size ≤ 32768 }
    ensures due { IfOk result (λ found. IfSome found (λ c. IsInHand due.now queue.new.request)) }
    ensures name { queue.new.name ≡ queue.old.name }
    ensures memory { KeepsReach M.told M.span M.keeps mem.old mem.new }
{
    let fetched = match queue.fetch(mem, place, features) {
        Ok(fetched) => fetched,
        Err(FetchError::Memory) => return Err(AllocError),
        Err(_) => {
            queue.stop();
            return Ok(None);
        }
    };
    if is_due(queue, &fetched, due) {
        if let Some(candidate) = candidate_in(queue, fetched.header.reserved, due) {
            return Ok(Some(candidate));
        }
    }
    queue.stop();
    Ok(None)
}
