//! The messages of the device under their lock, with their journal.
ghost use Rattle.std.specs.Prelude.{◌≡◌, ◌≢◌, ◌≤◌, ◌<◌, ◌-◌, ◌^◌, ◌++◌, ◌∷◌, [], List, reverse, length, IfOk, OnErr};
ghost use mathlib.Core.List.{IsPrefix};
ghost use Rattle.vd_model.specs.Messages.{MessageAct, MessageStart};
ghost use Rattle.vd_msg.specs.Stands.{Stands, Makes};
ghost use Rattle.sh_parts.specs.declared.entry.JournalKind.TheVariants as kind;
ghost use Rattle.sh_parts.specs.declared.entry.Entry.TheVariants as entry;
ghost use Rattle.sh_parts.specs.Legal.{call_of, acts_of_entries, message_answer, now_of, message_start, NoneLater, IsMoment, IsLegal};
ghost use Rattle.sh_parts.specs.Steps.{IsFront};
ghost use Rattle.sh_parts.specs.Journals.{StateView, NoteView, NewMessagesView};

use crate::entry::{Entry, JournalKind, MessageAnswer, MessageStep};
use crate::journal::{Journal, Naming, NewJournal, Note};
use std::alloc::{AllocError, Global};
use std::marker::{Brand, Model};
use std::sync::{Condvar, Mutex};
use vd_msg::{Messages, SendError};
use vd_num::Errno;

/// The messages, the time in seconds, and the journal of the messages. In contracts it is the
/// journal's entries and how many of them were noted.
#[derive(Drop)]
pub struct MessageState<N: Naming> {
    journal: Journal<N>,
    messages: Messages,
    time: u64,
}

impl<N: Naming> Model for MessageState<N> {
    ghost use Rattle.std.specs.Prelude.{◌≡◌, ◌≤◌, ◌^◌, reverse};
    ghost use Rattle.vd_msg.specs.Stands.{Stands};
    ghost use Rattle.sh_parts.specs.declared.entry.JournalKind.TheVariants.{Messages};
    ghost use Rattle.sh_parts.specs.Legal.{acts_of_entries, now_of, message_start};
    ghost use Rattle.sh_parts.specs.Journals.{StateView};

    ghost Value = { StateView };

    ghost view = { λ s. record { entries = s.journal.entries; noted = s.journal.noted } };

    ghost invariant = { λ s. (s.journal.kind ≡ Messages)
        × Stands (message_start N.numbers) (acts_of_entries N.numbers (reverse s.journal.entries)) s.messages
        × (s.time ≡ now_of (reverse s.journal.entries))
        × (s.time ≤ 2 ^ 40) };
}

/// The state of the messages under its lock, and what a thread that waits for one sleeps on.
#[derive(Drop)]
pub struct SharedMessages<N: Naming> {
    pub state: Mutex<MessageState<N>>,
    pub woken: Condvar,
}

/// The messages of a device that has no name yet, with an empty journal. In contracts they are their
/// journal's table and entries, and their timeout.
#[derive(Drop)]
pub struct NewMessages {
    journal: NewJournal,
    messages: Messages,
    timeout: u32,
}

impl Model for NewMessages {
    ghost use Rattle.std.specs.Prelude.{◌≡◌, []};
    ghost use Rattle.vd_msg.specs.Stands.{Stands};
    ghost use Rattle.sh_parts.specs.declared.entry.JournalKind.TheVariants.{Messages};
    ghost use Rattle.sh_parts.specs.Journals.{NewMessagesView};

    ghost Value = { NewMessagesView };

    ghost view = { λ m. record {
      table = m.journal.seat.table_id;
      entries = m.journal.entries.items;
      timeout = m.timeout;
    } };

    ghost invariant = { λ m. (m.journal.kind ≡ Messages)
        × Stands (record { timeout = m.timeout; first = 0 }) [] m.messages };
}

impl SharedMessages<Brand> {
    /// No messages. Each that is sent has this timeout, in seconds and 0 for none, and the first one
    /// has the id 0. They get their name by `named`.
    pub fn new(alloc: Global, timeout: u32) -> Result<NewMessages, AllocError>
        ensures empty { IfOk result (λ m. m.entries ≡ []) }
        ensures timeout { IfOk result (λ m. m.timeout ≡ timeout) }
    {
        Ok(NewMessages {
            journal: NewJournal::new(alloc, JournalKind::Messages)?,
            messages: Messages::new(alloc, timeout, 0),
            timeout,
        })
    }
}

impl NewMessages {
    /// The state with its name, whose table and timeout are its own.
    pub fn into_state<N: Naming>(self) -> MessageState<N>
        requires table { self.table ≡ N.messages }
        requires numbers { self.timeout ≡ N.numbers.timeout }
        ensures same { result.entries ≡ self.entries }
        ensures empty { (result.entries ≡ []) × (result.noted ≡ 0) }
    {
        let NewMessages {
            journal,
            messages,
            timeout: _,
        } = self;
        MessageState {
            journal: journal.named(),
            messages,
            time: 0,
        }
    }

    /// The state with its name, under its lock.
    pub fn named<N: Naming>(self) -> SharedMessages<N>
        requires table { self.table ≡ N.messages }
        requires numbers { self.timeout ≡ N.numbers.timeout }
    {
        SharedMessages {
            state: Mutex::new(self.into_state()),
            woken: Condvar::new(),
        }
    }
}

impl<N: Naming> MessageState<N> {
    /// Does a step at a moment, in seconds, and appends it with its answer. For want of memory
    /// nothing is done.
    pub fn apply(&mut self, step: MessageStep, now: u64) -> Result<MessageAnswer, AllocError>
        requires small { now ≤ 2 ^ 40 }
        requires moment { IsMoment (reverse self.old.entries) step now }

        ensures answer { IfOk result
            (λ answer. answer ≡ message_answer (message_start N.numbers)
            (acts_of_entries N.numbers (reverse self.old.entries)) step) }
        ensures entry { IfOk result
            (λ answer. self.new ≡ record self.old {
              entries = self.old.entries
                  ++ entry.Message step now answer ∷ [];
            }) }
        ensures unnoted { IfOk result (λ _. self.new.noted < length self.new.entries) }
        ensures err { OnErr result (self.new ≡ self.old) }
    {
        self.journal.reserve()?;
        let answer = answer_to(&mut self.messages, step, now)?;
        if matches!(step, MessageStep::Tick) {
            self.time = now;
        }
        self.journal.append(Entry::Message {
            step,
            moment: now,
            answer,
        });
        Ok(answer)
    }

    /// What holds whenever the lock is free: the journal is legal.
    pub fn legal(&self)
        ensures { IsLegal N.numbers kind.Messages self.now.entries }
    {
        self.journal.legal();
    }

    /// The moment of the last tick, in seconds, which is the greatest, and 0 before the first.
    pub fn now(&self) -> u64
        ensures last { result ≡ now_of (reverse self.now.entries) }
        ensures greatest { NoneLater result (reverse self.now.entries) }
        ensures small { result ≤ 2 ^ 40 }
    {
        self.journal.legal();
        self.time
    }

    /// A note of the last entry, which has none yet.
    pub fn note(&mut self) -> Note<N>
        requires { self.old.noted < length self.old.entries }
        ensures noted { self.new ≡ record self.old { noted = length self.old.entries } }
        ensures note { result ≡ record {
          kind = kind.Messages;
          entries = self.old.entries;
          place =
              length self.old.entries - 1;
        } }
        ensures legal { IsLegal N.numbers kind.Messages self.old.entries }
    {
        self.journal.note()
    }

    /// Tells of two notes of this journal that their places differ, and that one's list is a front
    /// of the other's. The second is used up.
    pub fn meet(&mut self, first: &mut Note<N>, second: Note<N>)
        requires { (first.old.kind ≡ kind.Messages) × (second.kind ≡ kind.Messages) }
        ensures same { (self.new ≡ self.old) × (first.new ≡ first.old) }
        ensures apart { first.old.place ≢ second.place }
        ensures fronts { IsFront first.old.entries second.entries }
    {
        self.journal.meet(first, second);
    }

    /// Tells of a note of this journal that its list is a front of the journal. The note is used up.
    pub fn holds(&mut self, note: Note<N>)
        requires { note.kind ≡ kind.Messages }
        ensures same { self.new ≡ self.old }
        ensures front { IsPrefix note.entries self.old.entries }
    {
        self.journal.holds(note);
    }
}

/// Does a step on the messages.
fn answer_to(
    messages: &mut Messages,
    step: MessageStep,
    now: u64,
) -> Result<MessageAnswer, AllocError>
    ensures answer { (start : MessageStart) (done : List MessageAct) → Stands start done messages.old →
        IfOk result (λ answer. answer ≡ message_answer start done step) }
    ensures acts { (start : MessageStart) (done : List MessageAct) → Stands start done messages.old →
        IfOk result (λ _. Makes start done (call_of step now) messages.new) }
    ensures err { OnErr result (messages.new ≡ messages.old) }
{
    Ok(match step {
        MessageStep::Send { body } => match messages.send(body, now) {
            Ok(id) => MessageAnswer::Id(id),
            Err(SendError::Broken) => MessageAnswer::Err(Errno::Io),
            Err(SendError::Ids) => MessageAnswer::Err(Errno::Nospc),
            Err(SendError::Memory) => return Err(AllocError),
        },
        MessageStep::Recv => MessageAnswer::Got(messages.recv()),
        MessageStep::Answer { id, result, avail } => {
            MessageAnswer::Answered(messages.answer(id, result, avail).is_ok())
        }
        MessageStep::Lost => {
            messages.lost();
            MessageAnswer::Done
        }
        MessageStep::Tick => {
            messages.tick(now);
            MessageAnswer::Done
        }
        MessageStep::Take { id } => MessageAnswer::Taken(messages.take(id)),
    })
}
