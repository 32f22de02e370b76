//! The messages of a device, and the calls on them.

ghost use Rattle.std.specs.Prelude.{◌≡◌, List, [], is_ok, OnErr};
ghost use Rattle.std.specs.Option.{option_map};
ghost use Rattle.vd_msg.specs.declared.messages.SendError.TheVariants.{Memory};

use crate::lists::{
    Ended, earliest_due, ended_by, fail_all, has, make_room, requeue, take_ended, take_message,
};
use std::alloc::{AllocError, Global};
use std::collections::VecDeque;
use std::marker::Model;
use vd_model::{Body, Message, Sent, TakeAnswer};

/// Why a message was not sent.
#[derive(Clone, Copy, Debug, PartialEq, Eq)]
pub enum SendError {
    /// The device is broken.
    Broken,
    /// No id is left.
    Ids,
    /// Memory is short.
    Memory,
}

impl From<AllocError> for SendError {
    ghost from_gives = { λ _ e. e ≡ Memory };

    fn from(_error: AllocError) -> SendError {
        SendError::Memory
    }
}

/// The session does not hold the message that it answers.
#[derive(Clone, Copy, Debug, PartialEq, Eq)]
pub struct NotHeld;

/// The messages of a device that weren't taken yet.
#[derive(Drop)]
pub struct Messages {
    timeout: u32,
    next: u32,
    broken: bool,
    /// How many untaken messages each of the lists has room for.
    room: usize,
    /// Those that wait for a receive, the first sent first.
    waiting: VecDeque<Message>,
    /// Those that the session holds, the first sent first.
    held: VecDeque<Message>,
    /// Those that ended.
    ended: VecDeque<Ended>,
}

impl Model for Messages {
    ghost use Rattle.vd_msg.specs.Lists.{Lists};

    ghost Value = { Lists };

    ghost use Rattle.vd_msg.specs.Inside.{lists_of, HasRoom};

    ghost view = { lists_of };

    ghost invariant = { HasRoom };
}

impl Messages {
    ghost use Rattle.vd_model.specs.Messages as acts;
    ghost use Rattle.vd_model.specs.Messages.{MessageAct};
    ghost use Rattle.vd_model.specs.Messages.{MessageStart};
    ghost use Rattle.vd_msg.specs.Stands.{Stands, Makes, SendsExactly, sent_of};

    /// No messages yet. The first one gets this timeout, in seconds and 0 for none, and this id.
    pub fn new(alloc: Global, timeout: u32, first_id: u32) -> Messages
        ensures { Stands (record { timeout = timeout; first = first_id }) [] result }
    {
        Messages {
            timeout,
            next: first_id,
            broken: false,
            room: 0,
            waiting: VecDeque::new(alloc),
            held: VecDeque::new(alloc),
            ended: VecDeque::new(alloc),
        }
    }

    /// Sets the timeout of the messages that are sent later, in seconds and 0 for none.
    pub fn set_timeout(&mut self, timeout: u32)
        ensures { (start : MessageStart) (done : List MessageAct) → Stands start done self.old →
            Makes start done (acts.Timing timeout) self.new }
    {
        self.timeout = timeout;
    }

    /// Sends a message, which waits for a receive then, and gives its id.
    pub fn send(&mut self, body: Body, now: u64) -> Result<u32, SendError>
        ensures says { (start : MessageStart) (done : List MessageAct) → Stands start done self.old →
            SendsExactly start done body now result self.new }
        ensures err { OnErr result (self.new ≡ self.old) }
    {
        if self.broken {
            return Err(SendError::Broken);
        }
        if self.next == u32::MAX {
            return Err(SendError::Ids);
        }
        self.room = make_room(
            &mut self.waiting,
            &mut self.held,
            &mut self.ended,
            self.room,
        )?;
        let id = self.next;
        self.waiting.push_back_reserved(Message {
            id,
            body,
            moment: now,
            timeout: self.timeout,
        });
        self.next += 1;
        Ok(id)
    }

    /// Gives the session the first message that waits.
    pub fn recv(&mut self) -> Option<Sent>
        ensures says { (start : MessageStart) (done : List MessageAct) → Stands start done self.old →
            result ≡ option_map sent_of (acts.next_message done) }
        ensures stands { (start : MessageStart) (done : List MessageAct) → Stands start done self.old →
            Makes start done acts.Receiving self.new }
    {
        let message = match self.waiting.pop_front() {
            Some(message) => message,
            None => return None,
        };
        self.held.push_back_reserved(message);
        Some(Sent {
            id: message.id,
            body: message.body,
        })
    }

    /// Answers a message that the session holds.
    pub fn answer(&mut self, id: u32, code: u32, avail: u16) -> Result<(), NotHeld>
        ensures says { (start : MessageStart) (done : List MessageAct) → Stands start done self.old →
            is_ok result ≡ acts.is_held done id }
        ensures stands { (start : MessageStart) (done : List MessageAct) → Stands start done self.old →
            Makes start done (acts.Answering id code avail) self.new }
    {
        let message = match take_message(&mut self.held, id) {
            Some(message) => message,
            None => return Err(NotHeld),
        };
        let told = ended_by(&message, code, avail);
        self.ended.push_back_reserved(Ended { id, told });
        Ok(())
    }

    /// Takes what the session holds back from it: it is received again before all that waits.
    pub fn lost(&mut self)
        ensures { (start : MessageStart) (done : List MessageAct) → Stands start done self.old →
            Makes start done acts.Losing self.new }
    {
        requeue(&mut self.waiting, &mut self.held);
    }

    /// Tells the time. Where an outstanding message is due, all of them fail and the device is broken.
    pub fn tick(&mut self, now: u64)
        ensures { (start : MessageStart) (done : List MessageAct) → Stands start done self.old →
            Makes start done (acts.Ticking now) self.new }
    {
        let least = earliest_due(&self.held, now, None);
        match earliest_due(&self.waiting, now, least) {
            None => {}
            Some(deadline) => {
                fail_all(&mut self.held, &mut self.ended, deadline, now);
                fail_all(&mut self.waiting, &mut self.ended, deadline, now);
                self.broken = true;
            }
        }
    }

    /// Takes the result of a message: once, except that a pending one is still there.
    pub fn take(&mut self, id: u32) -> TakeAnswer
        ensures says { (start : MessageStart) (done : List MessageAct) → Stands start done self.old →
            result ≡ acts.message_told done id }
        ensures stands { (start : MessageStart) (done : List MessageAct) → Stands start done self.old →
            Makes start done (acts.Taking id) self.new }
    {
        if has(&self.held, id) || has(&self.waiting, id) {
            return TakeAnswer::Pending;
        }
        match take_ended(&mut self.ended, id) {
            Some(ended) => ended.told,
            None => TakeAnswer::Unknown,
        }
    }

    /// How many messages were sent and not taken with a final answer.
    pub fn untaken(&self) -> u64
        ensures { (start : MessageStart) (done : List MessageAct) → Stands start done self.now →
            result ≡ acts.untaken done }
    {
        (self.held.len() + self.waiting.len() + self.ended.len()) as u64
    }

    /// Whether a tick broke the device.
    pub fn broken(&self) -> bool
        ensures { (start : MessageStart) (done : List MessageAct) → Stands start done self.now →
            result ≡ acts.is_broken done }
    {
        self.broken
    }
}
