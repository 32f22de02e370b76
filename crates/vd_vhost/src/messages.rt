//! The steps on messages.

ghost use Rattle.std.specs.Prelude.{◌≡◌, ◌∷◌, ◌+◌, ◌++◌, [], ℕ, List};
ghost use Rattle.vd_model.specs.declared.answer.Answer.TheVariants.{Done};
ghost use Rattle.vd_model.specs.declared.answer.Item.TheVariants.{Word, Number};
ghost use Rattle.vd_model.specs.declared.answer.Tag.TheVariants.{Id};
ghost use Rattle.vd_model.specs.Messages as acts;
ghost use Rattle.vd_model.specs.NodeTurns.{body_items};
ghost use Rattle.vd_model.specs.Turn.{done_with};
ghost use Rattle.vd_vhost_model.specs.GuestTable.{VhostAct, Message, messages_of};
ghost use Rattle.vd_vhost_model.specs.VhostTurns.{guest_recv_turn, answer_turn, guest_take_turn};
ghost use Rattle.vd_vhost.specs.Told.{Tells};
ghost use Rattle.vd_vhost.specs.After.{MessagesBefore, MessagesAfter};

use crate::bus::Bus;
use vd_answers::Hears;
use vd_model::{Answer, Body, Item, Sent, Tag, TakeAnswer};
use vd_msg::{Messages, NotHeld};
use vd_num::Errno;

/// Tells a message: its id, and what it says.
fn tell_message<T: Hears>(sent: &Sent, told: &mut T)
    requires { T.is_ready told.old }
    ensures { T.heard told.old (Done (Word Id ∷ Number sent.now.id ∷ body_items sent.now.body)) told.new }
{
    let id = Item::Number(u64::from(sent.id));
    match sent.body {
        Body::Status { value } => told.fields(&[
            Item::Word(Tag::Id),
            id,
            Item::Word(Tag::Status),
            Item::Number(u64::from(value)),
        ]),
        Body::VqState { index } => told.fields(&[
            Item::Word(Tag::Id),
            id,
            Item::Word(Tag::VqState),
            Item::Number(u64::from(index)),
        ]),
        Body::Iotlb { range } => told.fields(&[
            Item::Word(Tag::Id),
            id,
            Item::Word(Tag::Iotlb),
            Item::Address(range.start),
            Item::Address(range.last),
        ]),
    }
}

/// Receives the first message that isn't held.
fn recv<T: Hears>(messages: &mut Messages, told: &mut T)
    requires { T.is_ready told.old }
    ensures { (done : List VhostAct) → MessagesBefore done messages.old →
        Tells (λ said. T.heard told.old said told.new) (guest_recv_turn (messages_of done))
        (MessagesAfter done messages.new) }
{
    match messages.recv() {
        None => told.refused(Errno::Again),
        Some(sent) => tell_message(&sent, told),
    }
}

/// Answers a message that the daemon holds.
fn answer<T: Hears>(messages: &mut Messages, id: u32, code: u32, told: &mut T)
    requires { T.is_ready told.old }
    ensures { (done : List VhostAct) → MessagesBefore done messages.old →
        Tells (λ said. T.heard told.old said told.new) (answer_turn (messages_of done) id code)
        (MessagesAfter done messages.new) }
{
    match messages.answer(id, code, 0) {
        Ok(()) => told.done(),
        Err(NotHeld) => told.refused(Errno::Noent),
    }
}

/// Takes what the daemon holds back from it.
fn lost<T: Hears>(messages: &mut Messages, told: &mut T)
    requires { T.is_ready told.old }
    ensures { (done : List VhostAct) → MessagesBefore done messages.old →
        Tells (λ said. T.heard told.old said told.new) (done_with [] (Message acts.Lost ∷ []))
        (MessagesAfter done messages.new) }
{
    messages.lost();
    told.done();
}

/// Tells the end of a message.
pub fn tell_end<T: Hears>(id: u32, end: TakeAnswer, told: &mut T)
    requires { T.is_ready told.old }
    ensures { T.heard told.old (guest_take_turn id end).answer told.new }
{
    match end {
        TakeAnswer::Pending => told.answer(Answer::Pending),
        TakeAnswer::Unknown => told.refused(Errno::Noent),
        TakeAnswer::Done { .. } => told.done(),
        TakeAnswer::FailedByReply { result: code, .. } => {
            told.answer(Answer::FailedReply { result: code })
        }
        TakeAnswer::FailedByTimeout { deadline, now, .. } => {
            told.answer(Answer::FailedTimeout { deadline, now })
        }
    }
}

impl Bus {
    ghost use Rattle.vd_vhost.specs.After.{IsAfter};
    ghost use Rattle.vd_vhost.specs.Parts.{parts_of};

    /// Receives the first message that isn't held.
    pub fn recv<T: Hears>(&mut self, told: &mut T)
        requires { T.is_ready told.old }
        ensures { (size : ℕ) (done : List VhostAct) → IsAfter size done (parts_of self.old) →
            Tells (λ said. T.heard told.old said told.new) (guest_recv_turn (messages_of done))
            (λ acts. IsAfter size (acts ++ done) (parts_of self.new)) }
    {
        recv(&mut self.messages, told);
    }

    /// Answers a message that the daemon holds.
    pub fn answer<T: Hears>(&mut self, id: u32, code: u32, told: &mut T)
        requires { T.is_ready told.old }
        ensures { (size : ℕ) (done : List VhostAct) → IsAfter size done (parts_of self.old) →
            Tells (λ said. T.heard told.old said told.new) (answer_turn (messages_of done) id code)
            (λ acts. IsAfter size (acts ++ done) (parts_of self.new)) }
    {
        answer(&mut self.messages, id, code, told);
    }

    /// Takes what the daemon holds back from it.
    pub fn lost<T: Hears>(&mut self, told: &mut T)
        requires { T.is_ready told.old }
        ensures { (size : ℕ) (done : List VhostAct) → IsAfter size done (parts_of self.old) →
            Tells (λ said. T.heard told.old said told.new) (done_with [] (Message acts.Lost ∷ []))
            (λ acts. IsAfter size (acts ++ done) (parts_of self.new)) }
    {
        lost(&mut self.messages, told);
    }
}
