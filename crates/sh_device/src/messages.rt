//! The messages between the two sides of a device.
ghost use Rattle.std.specs.Prelude.{◌≡◌, ◌≢◌, ◌≤◌, ◌^◌, IfOk};
ghost use mathlib.Core.List.{IsPrefix};
ghost use Rattle.vd_model.specs.declared.message.TakeAnswer.TheVariants.{Pending};
ghost use Rattle.sh_parts.specs.declared.entry.JournalKind.TheVariants as kind;
ghost use Rattle.sh_parts.specs.declared.entry.MessageStep.TheVariants as asks;
ghost use Rattle.sh_parts.specs.declared.entry.MessageAnswer.TheVariants as tells;
ghost use Rattle.sh_device.specs.Calls.{IsMessageNote, IsTick};

use crate::device::Device;
use crate::held::Noted;
use crate::journals::{message_step, tick_step};
use sh_parts::{
    Body, Errno, MessageAnswer, MessageStep, Naming, Note, Sent, SharedMessages, TakeAnswer,
};
use std::alloc::AllocError;
use std::sync::Wait;

/// What became of a message that was sent.
#[derive(Clone, Copy, Debug, PartialEq, Eq)]
pub enum SendAnswer {
    /// It was taken, with this end.
    Taken(TakeAnswer),
    /// It was refused: a timeout broke the device.
    Broken,
    /// It was refused: no id is left.
    Ids,
}

impl<N: Naming> Device<N> {
    ghost use Rattle.sh_device.specs.Sending.{IsSent};

    /// Sends a message, waits for its end and takes it. For want of memory the message may have been
    /// sent; then it stays untaken.
    pub fn send_and_wait(
        &self,
        rt: &impl Wait,
        body: Body,
    ) -> Result<Noted<SendAnswer, N>, AllocError>
        ensures { IfOk result (λ n. IsSent N.numbers n.note body n.value) }
    {
        let step = MessageStep::Send { body };
        let Noted { value, note } = message_step(rt, &self.messages, step)?;
        let value = match value {
            MessageAnswer::Id(id) => {
                let Noted { value, note } = take_end(rt, &self.messages, id, note)?;
                let value = SendAnswer::Taken(value);
                return Ok(Noted { value, note });
            }
            MessageAnswer::Err(Errno::Io) => SendAnswer::Broken,
            _ => SendAnswer::Ids,
        };
        Ok(Noted { value, note })
    }

    /// The next message that waits to be received, if there is one.
    pub fn recv(&self, rt: &impl Wait) -> Result<Noted<Option<Sent>, N>, AllocError>
        ensures { IfOk result (λ n. IsMessageNote N.numbers n.note asks.Recv (tells.Got n.value)) }
    {
        let Noted { value, note } = message_step(rt, &self.messages, MessageStep::Recv)?;
        let MessageAnswer::Got(value) = value else {
            unreachable!();
        };
        Ok(Noted { value, note })
    }

    /// Answers a message that was received, with a result and an available index. Says whether the
    /// answer was accepted.
    pub fn answer(
        &self,
        rt: &impl Wait,
        id: u32,
        code: u32,
        avail: u16,
    ) -> Result<Noted<bool, N>, AllocError>
        ensures { IfOk result (λ n. IsMessageNote N.numbers n.note (asks.Answer id code avail)
            (tells.Answered n.value)) }
    {
        let step = MessageStep::Answer {
            id,
            result: code,
            avail,
        };
        let Noted { value, note } = message_step(rt, &self.messages, step)?;
        let MessageAnswer::Answered(value) = value else {
            unreachable!();
        };
        self.messages.woken.notify_all();
        Ok(Noted { value, note })
    }

    /// The daemon's session is lost: what it has received and not answered waits again.
    pub fn lost(&self, rt: &impl Wait) -> Result<Note<N>, AllocError>
        ensures { IfOk result (λ n. IsMessageNote N.numbers n asks.Lost tells.Done) }
    {
        let Noted { value: _, note } = message_step(rt, &self.messages, MessageStep::Lost)?;
        self.messages.woken.notify_all();
        Ok(note)
    }

    /// Lets the time, in seconds, go on to `now`, or stand still where it was later. Messages whose
    /// deadline is due fail.
    pub fn tick(&self, rt: &impl Wait, now: u64) -> Result<Note<N>, AllocError>
        requires { now ≤ 2 ^ 40 }
        ensures { IfOk result (IsTick N.numbers now) }
    {
        let note = tick_step(rt, &self.messages, now)?;
        self.messages.woken.notify_all();
        Ok(note)
    }
}

/// Waits until a message that was sent has an end, and takes it.
fn take_end<N: Naming>(
    rt: &impl Wait,
    messages: &SharedMessages<N>,
    id: u32,
    sent: Note<N>,
) -> Result<Noted<TakeAnswer, N>, AllocError>
    requires { sent.kind ≡ kind.Messages }
    ensures taken { IfOk result (λ n. IsMessageNote N.numbers n.note (asks.Take id) (tells.Taken n.value)) }
    ensures ended { IfOk result (λ n. n.value ≢ Pending) }
    ensures sent { IfOk result (λ n. IsPrefix sent.entries n.note.entries) }
{
    let mut guard = messages.state.lock(rt);
    for _ in rt.forever() {
        let now = guard.now();
        let answer = guard.apply(MessageStep::Take { id }, now)?;
        if answer != MessageAnswer::Taken(TakeAnswer::Pending) {
            let MessageAnswer::Taken(value) = answer else {
                unreachable!();
            };
            let state = &mut *guard;
            state.holds(sent);
            let note = state.note();
            return Ok(Noted { value, note });
        }
        guard = messages.woken.wait(rt, guard);
    }
    unreachable!()
}
