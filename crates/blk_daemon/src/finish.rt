//! Giving a request back to its ring.
ghost use Rattle.std.specs.Prelude.{◌≡◌, ◌≢◌, length, Some, None, Ok, Err, IsOk, IfOk, OnOk, OnErr};
ghost use Rattle.std.specs.Option.{ForSome};
ghost use Rattle.vd_model.specs.Trace.{writable_len};
ghost use Rattle.vd_model.specs.Queues.{Execution};
ghost use Rattle.vr_split.specs.Mem.{IsUnchanged};
ghost use Rattle.vr_split.specs.Reach.{KeepsReach};
ghost use Rattle.blk_daemon.specs.Finished.{first_unwritable, spread_over, used_next, Finishes};
ghost use Rattle.blk_daemon.specs.Parts.{IsThere, AreThere};

use crate::error::FinishError;
use crate::request::Request;
use vd_model::Part;
use vd_num::Bus;
use vr_device::DeviceRing;
use vr_split::Mem;

/// How a request was finished: how many bytes were written, and whether the driver wants an interrupt.
#[derive(Clone, Copy, Debug, PartialEq, Eq)]
pub struct Finished {
    pub len: u32,
    pub irq: bool,
}

/// As many bytes of a part are tested at once.
const PAGE: usize = 4096;

/// Tests whether each byte of a part can be accessed.
fn check_part<M: Mem>(mem: &mut M, part: &Part) -> Result<(), Bus>
    ensures there { ForSome (M.told mem.old) (λ m. IsThere m part.now.at part.now.len result) }
    ensures memory { IsUnchanged M.told M.span M.keeps mem.old mem.new }
{
    let mut page = [0; PAGE];
    let mut at = part.at;
    let mut left = part.len as usize;
    while left > 0 {
        let len = left.min(PAGE);
        mem.load(at, &mut page[..len])?;
        at = at.wrapping_add(len as u64);
        left -= len;
    }
    Ok(())
}

/// Tests the parts that the device writes.
fn check_parts<M: Mem>(mem: &mut M, parts: &[Part]) -> Result<(), Bus>
    ensures there { ForSome (M.told mem.old) (λ m. AreThere m parts.now result) }
    ensures memory { IsUnchanged M.told M.span M.keeps mem.old mem.new }
{
    for part in parts {
        if part.writable {
            check_part(mem, part)?;
        }
    }
    Ok(())
}

/// Stores bytes over the parts that the device writes, one after another.
fn spread<M: Mem>(mem: &mut M, parts: &[Part], bytes: &[u8]) -> Result<(), Bus>
    requires { writable_len parts.now ≡ length bytes.now }
    ensures works { ForSome (M.told mem.old) (λ m. first_unwritable m parts.now ≡ None → IsOk result) }
    ensures spread { ForSome (M.told mem.old) (λ m. first_unwritable m parts.now ≡ None →
        M.told mem.new ≡ Some (spread_over m parts.now bytes.now)) }
    ensures memory { KeepsReach M.told M.span M.keeps mem.old mem.new }
{
    let mut at = 0;
    for part in parts {
        if part.writable {
            let end = at + part.len as usize;
            mem.store(part.at, &bytes[at..end])?;
            at = end;
        }
    }
    Ok(())
}

/// Gives a request back that was executed. All that is accessed is tested before the first byte is stored.
pub fn give_back<M: Mem>(
    mem: &mut M,
    ring: &mut DeviceRing,
    request: &Request,
    event_idx: bool,
) -> Result<Finished, FinishError>
    ensures finished { (end : Execution) → request.now.outcome ≡ Some end → ForSome (M.told mem.old) (λ m.
        Finishes m ring.old event_idx request.now.hand end result (M.told mem.new)) }
    ensures len { IfOk result (λ f. f.len ≡ request.now.hand.writable) }
    ensures only_bus { result ≢ Err FinishError.NoRequest }
    ensures moved { OnOk result (ring.new ≡ used_next ring.old) }
    ensures stays { OnErr result (ring.new ≡ ring.old) }
    ensures memory { KeepsReach M.told M.span M.keeps mem.old mem.new }
{
    let parts = request.chain().parts.as_slice();
    let len = request.len();
    check_parts(mem, parts)?;
    ring.check_used(mem)?;
    ring.should_interrupt(mem, event_idx)?;
    spread(mem, parts, request.answer())?;
    ring.push_used(mem, request.chain().head, len)?;
    // What was tested is there still, where the memory tells its bytes; elsewhere one interrupt too many does no harm.
    let irq = ring.should_interrupt(mem, event_idx).unwrap_or(true);
    Ok(Finished { len, irq })
}
