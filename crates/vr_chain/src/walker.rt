//! The walk of a chain.
ghost use Rattle.std.specs.Prelude.{◌≡◌, ◌<◌, ◌≤◌, true, false, length, vec_len, slice_index_or, IsOk, OnOk};
ghost use Rattle.std.specs.Option.{ForSome};
ghost use Rattle.vd_model.specs.Memory.{Memory};
ghost use Rattle.vd_model.specs.Trace.{descriptor_address, first_kind, is_indirect, Ending, EndsAs, TraceStart, trace_start, ending_of};
ghost use Rattle.vr_split.specs.Mem.{IsUnchanged};
ghost use Rattle.vr_split.specs.Reach.{Reaches, TableInReach};
ghost use Rattle.vr_chain.specs.Walk.{Reads, UnlessMemory, IsNoBus, error_of, marked};

use crate::descriptor::{
    address_of, from_bytes, has_next, is_indirect, is_misshapen, is_writable, position_after,
};
use crate::error::WalkError;
use crate::gathered::Gathered;
use std::alloc::{AllocError, Global};
use vd_model::{Chain, ChainFault, ChainKind, Descriptor, Position, RingPlace, Table};
use vd_num::Bus;
use vr_split::Mem;

/// The most bytes of a chain, 16 MiB.
const MAX_CHAIN_BYTES: u64 = 16777216;

/// Loads the descriptor at a position.
fn load<M: Mem>(mem: &mut M, position: &Position) -> Result<Descriptor, Bus>
    ensures loads { ForSome (M.told mem.old) (λ m. Reads m position.now result) }
    ensures in_reach { Reaches (M.told mem.old) (M.span mem.old) (descriptor_address position.now)
        16 → IsOk result }
    ensures memory { IsUnchanged M.told M.span M.keeps mem.old mem.new }
{
    let mut bytes = [0; 16];
    mem.load(address_of(position), &mut bytes)?;
    Ok(from_bytes(&bytes))
}

/// The first rule that a descriptor breaks, if it breaks one. A mark stands at each index of its table that was visited.
fn check(
    negotiated: bool,
    gathered: &Gathered,
    marks: &[bool],
    position: &Position,
    d: &Descriptor,
) -> Option<ChainKind>
    requires { length marks.now ≡ position.now.table.entries }
    ensures { let seen = slice_index_or marks.now d.now.next false in
        result ≡ first_kind negotiated gathered.now seen position.now d.now }
{
    if is_indirect(d) {
        if position.table.number == 1 {
            return Some(ChainKind::Nested);
        }
        if is_misshapen(negotiated, d) {
            return Some(ChainKind::Shape);
        }
        return None;
    }
    if !is_writable(d) && gathered.any_writable() {
        return Some(ChainKind::Order);
    }
    if gathered.total() + d.len as u64 > MAX_CHAIN_BYTES {
        return Some(ChainKind::Long);
    }
    if !has_next(d) {
        return None;
    }
    if d.next >= position.table.entries {
        return Some(ChainKind::Next);
    }
    if marks[d.next as usize] {
        return Some(ChainKind::Loop);
    }
    None
}

/// The fault at a position.
fn fault_at(kind: ChainKind, position: &Position) -> WalkError
    ensures { result ≡ error_of position.now kind }
{
    WalkError::Fault(ChainFault {
        kind,
        table: position.table.number,
        index: position.index as u32,
    })
}

/// Marks the index that the walk comes to, in a table that may be new.
fn arrive(
    alloc: Global,
    marks: &mut Vec<bool>,
    is_new: bool,
    position: &Position,
) -> Result<(), AllocError>
    requires inside { position.now.index < position.now.table.entries }
    requires same { is_new ≡ false → vec_len marks.old ≡ position.now.table.entries }
    ensures ok { OnOk result (marks.new.items ≡ marked is_new marks.old.items position.now) }
    ensures len { OnOk result (vec_len marks.new ≡ position.now.table.entries) }
{
    if is_new {
        *marks = vec![in alloc; false; position.table.entries as usize]?;
    }
    marks[position.index as usize] = true;
    Ok(())
}

/// Walks from the head on, and answers how the trace ends.
fn follow<M: Mem>(
    alloc: Global,
    mem: &mut M,
    ring: &RingPlace,
    head: u16,
    negotiated: bool,
) -> Result<Chain, WalkError>
    requires { ring.now.size ≤ 32768 }
    ensures found { ForSome (M.told mem.old)
        (λ m. UnlessMemory result (EndsAs (trace_start ring.now head negotiated) m)) }
    ensures no_bus { negotiated ≡ false → TableInReach (M.told mem.old) (M.span mem.old) ring.now →
        IsNoBus result }
    ensures memory { IsUnchanged M.told M.span M.keeps mem.old mem.new }
{
    let mut position = Position {
        table: Table {
            number: 0,
            at: ring.desc,
            entries: ring.size,
        },
        index: head,
    };
    if head >= ring.size {
        return Err(fault_at(ChainKind::Head, &position));
    }
    let mut marks = Vec::new(alloc);
    arrive(alloc, &mut marks, true, &position)?;
    let mut gathered = Gathered::new(alloc);
    'walk: loop {
        let d = load(mem, &position)?;
        if let Some(kind) = check(negotiated, &gathered, &marks, &position, &d) {
            return Err(fault_at(kind, &position));
        }
        gathered.take(&d)?;
        match position_after(&position, &d) {
            None => return Ok(gathered.into_chain(head)),
            Some(next) => {
                arrive(alloc, &mut marks, is_indirect(&d), &next)?;
                position = next;
            }
        }
    }
}

/// Walks the chain that begins at `head`; `indirect` tells whether indirect tables were negotiated.
///
/// The rules are those of virtio 1.2, section 2.7.5, with at most 16 MiB in a chain. It answers the first rule that is
/// broken, at the first descriptor of the chain that breaks one. It never changes the memory.
pub fn walk<M: Mem>(
    alloc: Global,
    mem: &mut M,
    ring: &RingPlace,
    head: u16,
    indirect: bool,
) -> Result<Chain, WalkError>
    requires { ring.now.size ≤ 32768 }

    // The trace ends as the answer tells, and where it ends so, this is the answer.
    ensures found { ForSome (M.told mem.old)
        (λ m. UnlessMemory result (EndsAs (trace_start ring.now head indirect) m)) }
    ensures only { ForSome (M.told mem.old) (λ m. (end : Ending) →
        EndsAs (trace_start ring.now head indirect) m end → UnlessMemory result (λ e. e ≡ end)) }
    ensures computed { ForSome (M.told mem.old)
        (λ m. UnlessMemory result (λ e. e ≡ ending_of (trace_start ring.now head indirect) m)) }

    // With no indirect tables it reads the ring's descriptors alone.
    ensures no_bus { indirect ≡ false → TableInReach (M.told mem.old) (M.span mem.old) ring.now →
        IsNoBus result }

    ensures memory { IsUnchanged M.told M.span M.keeps mem.old mem.new }
{
    follow(alloc, mem, ring, head, indirect)
}

/// Each memory, ring, head and setting have one trace, and it ends in one way. It does nothing.
pub fn one_trace()
    ensures ends { (s : TraceStart) (m : Memory) → EndsAs s m (ending_of s m) }
    ensures once { (s : TraceStart) (m : Memory) (a b : Ending) → EndsAs s m a → EndsAs s m b → a ≡ b }
{}
