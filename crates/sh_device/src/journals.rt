//! Steps on the two journals, each under its lock and noted.
ghost use Rattle.std.specs.Prelude.{◌≡◌, ◌≢◌, ◌≤◌, ◌<◌, ◌^◌, ℕ, IfOk, length, slice_index_or, None};
ghost use Rattle.sh_parts.specs.declared.entry.DomainStep.TheVariants as step;
ghost use Rattle.sh_parts.specs.declared.entry.MessageStep.TheVariants as asks;
ghost use Rattle.sh_device.specs.Calls.{IsDomainNote, IsMessageNote, IsTick, side_after};

use crate::held::Noted;
use sh_cells::Side;
use sh_parts::{
    DomainAnswer, DomainState, DomainStep, MessageAnswer, MessageStep, Naming, Note, SharedDomain,
    SharedMessages,
};
use std::alloc::AllocError;
use std::sync::Wait;

/// Does a step on the memory under its lock, and notes it.
pub(crate) fn domain_step<N: Naming>(
    rt: &impl Wait,
    domain: &SharedDomain<N>,
    step: DomainStep,
) -> Result<Noted<DomainAnswer, N>, AllocError>
    ensures { IfOk result (λ n. IsDomainNote N.numbers n.note step n.value) }
{
    let mut guard = domain.state.lock(rt);
    let state = &mut *guard;
    let value = state.apply(step)?;
    let note = state.note();
    Ok(Noted { value, note })
}

/// Ends the registration. Under the same lock it asks of each bounce page whether a live mapping has
/// it, and says where the page is to lie.
pub(crate) fn deregister_step<N: Naming>(
    rt: &impl Wait,
    domain: &SharedDomain<N>,
    count: u64,
    sides: &mut [Option<Side>],
) -> Result<Noted<DomainAnswer, N>, AllocError>
    requires { (count ≤ length sides.old) × (count ≤ 4096) }
    ensures noted { IfOk result (λ n. IsDomainNote N.numbers n.note step.Deregister n.value) }
    ensures sides { IfOk result
        (λ n. (page : ℕ) → page < count →
        slice_index_or sides.new page None ≡ side_after N.numbers n.note.entries page) }
{
    // One lock for the entry and for what is asked.
    let mut guard = domain.state.lock(rt);
    let state = &mut *guard;
    let value = state.apply(DomainStep::Deregister)?;
    sides_in_use(state, count, sides);
    let note = state.note();
    Ok(Noted { value, note })
}

/// Where each of so many bounce pages lies that isn't registered: on its first side if a live mapping
/// has it.
fn sides_in_use<N: Naming>(state: &DomainState<N>, count: u64, sides: &mut [Option<Side>])
    requires { (count ≤ length sides.old) × (count ≤ 4096) }
    ensures { (page : ℕ) → page < count →
        slice_index_or sides.new page None ≡ side_after N.numbers state.now.entries page }
{
    let mut page = 0;
    while page < count {
        sides[page as usize] = if state.in_use(page as u32) {
            Some(Side::First)
        } else {
            None
        };
        page += 1;
    }
}

/// Does a step on the messages under their lock, and notes it. A tick has a call of its own.
pub(crate) fn message_step<N: Naming>(
    rt: &impl Wait,
    messages: &SharedMessages<N>,
    step: MessageStep,
) -> Result<Noted<MessageAnswer, N>, AllocError>
    requires { step ≢ asks.Tick }
    ensures { IfOk result (λ n. IsMessageNote N.numbers n.note step n.value) }
{
    let mut guard = messages.state.lock(rt);
    let state = &mut *guard;
    let now = state.now();
    let value = state.apply(step, now)?;
    let note = state.note();
    Ok(Noted { value, note })
}

/// Lets the time go on to `now`, or stand still where it was later, and notes the tick.
pub(crate) fn tick_step<N: Naming>(
    rt: &impl Wait,
    messages: &SharedMessages<N>,
    now: u64,
) -> Result<Note<N>, AllocError>
    requires { now ≤ 2 ^ 40 }
    ensures { IfOk result (IsTick N.numbers now) }
{
    let mut guard = messages.state.lock(rt);
    let state = &mut *guard;
    let moment = now.max(state.now());
    let value = state.apply(MessageStep::Tick, moment)?;
    let _ = value;
    Ok(state.note())
}
