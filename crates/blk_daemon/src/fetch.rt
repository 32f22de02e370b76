//! Taking a request from a ring.
ghost use Rattle.std.specs.Prelude.{◌≡◌, ◌≢◌, ◌≤◌, length, Some, None, Err, IfOk, OnOk, OnErr};
ghost use Rattle.std.specs.Option.{ForSome};
ghost use Rattle.vd_model.specs.Creation.{has_feature};
ghost use Rattle.vd_model.specs.Rings.{next16};
ghost use Rattle.vd_model.specs.Trace.{chain_of, readable_len, writable_len};
ghost use Rattle.vr_split.specs.Mem.{IsUnchanged};
ghost use Rattle.vr_split.specs.Reach.{KeepsReach};
ghost use Rattle.blk_daemon.specs.Errors.{IsUnlessMemory};
ghost use Rattle.blk_daemon.specs.Fetched.{request_in, hand_at, with_event, hand_given};
ghost use Rattle.blk_daemon.specs.Parts.{ReadsParts};

use crate::error::FetchError;
use crate::features::{EVENT_IDX, INDIRECT_DESC, has_feature};
use crate::request::Request;
use blk_proto::Header;
use std::alloc::{AllocError, Global};
use vd_model::{Chain, Part};
use vd_num::Bus;
use vr_device::DeviceRing;
use vr_split::Mem;

/// The most bytes of a chain, 16 MiB.
const MAX_CHAIN_BYTES: u64 = 16777216;

/// How many bytes of a chain's parts the device reads and writes.
#[derive(Clone, Copy)]
struct Lens {
    readable: u64,
    writable: u64,
}

/// The lengths of a chain's parts. There is no room for more bytes than a chain may have.
fn lens_of(parts: &[Part]) -> Result<Lens, AllocError>
    ensures readable { IfOk result (λ lens. lens.readable ≡ readable_len parts.now) }
    ensures writable { IfOk result (λ lens. lens.writable ≡ writable_len parts.now) }
    ensures short_read { IfOk result (λ lens. lens.readable ≤ 16777216) }
    ensures short_write { IfOk result (λ lens. lens.writable ≤ 16777216) }
{
    let mut readable = 0;
    let mut writable = 0;
    for part in parts {
        if part.writable {
            writable += part.len as u64;
        } else {
            readable += part.len as u64;
        }
        if readable > MAX_CHAIN_BYTES || writable > MAX_CHAIN_BYTES {
            return Err(AllocError);
        }
    }
    Ok(Lens { readable, writable })
}

/// Loads the parts that the device reads, one after another.
fn load_parts<M: Mem>(mem: &mut M, parts: &[Part], bytes: &mut [u8]) -> Result<(), Bus>
    requires { readable_len parts.now ≡ length bytes.old }
    ensures reads { ForSome (M.told mem.old) (λ m. ReadsParts m parts.now result bytes.new) }
    ensures memory { IsUnchanged M.told M.span M.keeps mem.old mem.new }
{
    let mut at = 0;
    for part in parts {
        if !part.writable {
            let end = at + part.len as usize;
            mem.load(part.at, &mut bytes[at..end])?;
            at = end;
        }
    }
    Ok(())
}

/// Reads the request of a chain.
fn read_request<M: Mem>(alloc: Global, mem: &mut M, chain: Chain) -> Result<Request, FetchError>
    ensures read { chain ≡ chain_of chain.head chain.parts → ForSome (M.told mem.old) (λ m.
        IsUnlessMemory (hand_given result) (request_in m chain)) }
    ensures fresh { IfOk result (λ r. r.outcome ≡ None) }
    ensures never_busy { result ≢ Err FetchError.Busy }
    ensures memory { IsUnchanged M.told M.span M.keeps mem.old mem.new }
{
    let lens = lens_of(chain.parts.as_slice())?;
    if lens.readable < Header::LEN as u64 || lens.writable == 0 {
        return Err(FetchError::Shape {
            readable: lens.readable,
            writable: lens.writable,
        });
    }
    let mut bytes = vec![in alloc; 0; lens.readable as usize]?;
    let answer = vec![in alloc; 0; lens.writable as usize]?;
    load_parts(mem, chain.parts.as_slice(), &mut bytes)?;
    let chain = Chain {
        readable: lens.readable,
        writable: lens.writable,
        ..chain
    };
    Ok(Request::new(chain, bytes, answer))
}

/// Takes the request at the position of a ring. The position moves on, and is told to the driver, where that asks for it,
/// only if a request is there.
pub fn take<M: Mem>(
    alloc: Global,
    mem: &mut M,
    ring: &mut DeviceRing,
    features: u64,
) -> Result<Request, FetchError>
    ensures taken { ForSome (M.told mem.old) (λ m.
        IsUnlessMemory (hand_given result) (hand_at m (has_feature features 28) (has_feature features 29) ring.old)) }
    ensures fresh { IfOk result (λ r. r.outcome ≡ None) }
    ensures never_busy { result ≢ Err FetchError.Busy }
    ensures moved { OnOk result (ring.new ≡ record ring.old { position = next16 ring.old.position }) }
    ensures stays { OnErr result (ring.new ≡ ring.old) }
    ensures event { OnOk result (ForSome (M.told mem.old) (λ m.
        M.told mem.new ≡ Some (with_event (has_feature features 29) ring.new m))) }
    ensures memory_stays { OnErr result (ForSome (M.told mem.old) (λ m. M.told mem.new ≡ Some m)) }
    ensures memory { KeepsReach M.told M.span M.keeps mem.old mem.new }
{
    let indirect = has_feature(features, INDIRECT_DESC);
    let Some(chain) = ring.next(alloc, mem, indirect)? else {
        return Err(FetchError::Empty);
    };
    let request = read_request(alloc, mem, chain)?;
    ring.accept(mem, has_feature(features, EVENT_IDX))?;
    Ok(request)
}
