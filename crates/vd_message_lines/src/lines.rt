//! The lines, each on the messages alone.

ghost use Rattle.std.specs.Prelude.{◌∷◌, [], List};
ghost use Rattle.vd_model.specs.declared.answer.Answer.TheVariants.{Done};
ghost use Rattle.vd_model.specs.declared.answer.Item.TheVariants.{Word, Number};
ghost use Rattle.vd_model.specs.declared.answer.Tag.TheVariants.{Id};
ghost use Rattle.vd_model.specs.Acts.{Act, Message_act};
ghost use Rattle.vd_model.specs.BusTurns.{send_turn};
ghost use Rattle.vd_model.specs.Turn.{done_with};
ghost use Rattle.vd_model.specs.Messages.{Timed};
ghost use Rattle.vd_model.specs.NodeTurns.{recv_turn, answered_with, body_items};
ghost use Rattle.vd_answers.specs.Tells.{Tells, MayTell};
ghost use Rattle.vd_message_lines.specs.After.{MessagesBefore, MessagesAfter};

use std::alloc::AllocError;
use vd_answers::Hears;
use vd_model::{Body, Item, Sent, Tag};
use vd_msg::{Messages, NotHeld, SendError};
use vd_num::Errno;

/// Tells a message: its id, and what it says.
fn tell_message<T: Hears>(sent: &Sent, told: &mut T)
    requires { T.is_ready told.old }
    ensures { T.heard told.old (Done (Word Id ∷ Number sent.now.id ∷ body_items sent.now.body)) told.new }
{
    let id = Item::Number(u64::from(sent.id));
    match sent.body {
        Body::Status { value } => told.fields(&[
            Item::Word(Tag::Id),
            id,
            Item::Word(Tag::Status),
            Item::Number(u64::from(value)),
        ]),
        Body::VqState { index } => told.fields(&[
            Item::Word(Tag::Id),
            id,
            Item::Word(Tag::VqState),
            Item::Number(u64::from(index)),
        ]),
        Body::Iotlb { range } => told.fields(&[
            Item::Word(Tag::Id),
            id,
            Item::Word(Tag::Iotlb),
            Item::Address(range.start),
            Item::Address(range.last),
        ]),
    }
}

/// Receives the first message that isn't held.
pub fn recv<T: Hears>(messages: &mut Messages, told: &mut T)
    requires { T.is_ready told.old }
    ensures line { (acts : List Act) → MessagesBefore acts messages.old →
        Tells (λ said. T.heard told.old said told.new) (recv_turn acts)
        (MessagesAfter acts messages.new) }
{
    match messages.recv() {
        None => told.refused(Errno::Again),
        Some(sent) => tell_message(&sent, told),
    }
}

/// Answers a message that the session holds.
pub fn answer<T: Hears>(messages: &mut Messages, id: u32, code: u32, avail: u16, told: &mut T)
    requires { T.is_ready told.old }
    ensures line { (acts : List Act) → MessagesBefore acts messages.old →
        Tells (λ said. T.heard told.old said told.new) (answered_with [] acts id code avail)
        (MessagesAfter acts messages.new) }
{
    match messages.answer(id, code, avail) {
        Ok(()) => told.done(),
        Err(NotHeld) => told.refused(Errno::Noent),
    }
}

/// Sends a message, for which there may be no memory.
pub fn send<T: Hears>(
    messages: &mut Messages,
    body: Body,
    now: u64,
    told: &mut T,
) -> Result<(), AllocError>
    requires { T.is_ready told.old }
    ensures line { (acts : List Act) → MessagesBefore acts messages.old →
        MayTell (λ said. T.heard told.old said told.new) (send_turn now acts body)
        (MessagesAfter acts messages.new) result }
{
    match messages.send(body, now) {
        Ok(id) => told.fields(&[Item::Word(Tag::Id), Item::Number(u64::from(id))]),
        Err(SendError::Broken) => told.refused(Errno::Io),
        Err(SendError::Ids) => told.refused(Errno::Nospc),
        Err(SendError::Memory) => return Err(AllocError),
    }
    Ok(())
}

/// Sets the timeout of later messages, in seconds and 0 for none.
pub fn timeout<T: Hears>(messages: &mut Messages, seconds: u32, told: &mut T)
    requires { T.is_ready told.old }
    ensures line { (acts : List Act) → MessagesBefore acts messages.old →
        Tells (λ said. T.heard told.old said told.new) (done_with [] (Message_act (Timed seconds) ∷ []))
        (MessagesAfter acts messages.new) }
{
    messages.set_timeout(seconds);
    told.done();
}
