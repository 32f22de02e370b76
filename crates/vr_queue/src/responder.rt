//! A queue that answers lines.

ghost use Rattle.std.specs.Prelude.{◌≡◌, ◌+◌, ◌<◌, ◌≤◌, ◌^◌, ◌-◌, length, nat_lt};
ghost use Rattle.vr_pair.specs.QueueLists.{QueueLists, is_readable_first, bytes_in, chain_limit, numbered_chain};
ghost use Rattle.vr_pair.specs.QueueLines.{lists_add_turn, lists_turn, next_turn, used_turn, reclaim_turn};
ghost use Rattle.vr_queue.specs.Answers.{Answers, AnswersLine, IsAsked};

use crate::read::read_queue_line;
use crate::reply::{say_chain, say_done, say_number, say_refused, say_used};
use std::alloc::{AllocError, Global};
use vd_num::Errno;
use vd_words::LineError;
use vr_pair::{Pair, PairError, Part, Parts, QueueLine};

/// The most bytes of a chain, 16 MiB.
const CHAIN_LIMIT: u64 = 16777216;

/// Both sides of a queue, the parts of the chain that was taken last, and the reply to the line that was answered last.
#[derive(Drop)]
pub struct Responder<P> {
    pair: P,
    taken: Parts,
    reply: Vec<u8>,
}

/// Whether no part that the device reads stands behind one that it writes.
fn is_readable_first(parts: &[Part]) -> bool
    ensures { result ≡ is_readable_first parts.now }
{
    let mut any_writable = false;
    for part in parts {
        if any_writable && !part.writable {
            return false;
        }
        any_writable = part.writable;
    }
    true
}

/// Whether the parts have more bytes together than a chain may have.
fn is_too_long(parts: &[Part]) -> bool
    ensures { result ≡ nat_lt chain_limit (bytes_in parts.now) }
{
    let mut bytes = 0u64;
    for part in parts {
        bytes += u64::from(part.len);
        if bytes > CHAIN_LIMIT {
            return true;
        }
    }
    false
}

impl<P: Pair> Responder<P> {
    /// A queue that has answered nothing.
    pub fn new(alloc: Global, pair: P) -> Self
        ensures { result.pair ≡ pair }
    {
        Responder {
            pair,
            taken: Parts::new(alloc),
            reply: Vec::new(alloc),
        }
    }

    fn add(&mut self, parts: &[Part]) -> Result<(), AllocError>
        requires some { 0 < length parts.now }
        requires room { P.placed self.old.pair < 2 ^ 62 }
        ensures lists { (q : QueueLists) → P.stands self.old.pair q →
            Answers q (lists_add_turn q parts.now) result self.new.reply.items (P.stands self.new.pair) }
        ensures placed { P.placed self.new.pair ≤ P.placed self.old.pair + length parts.now }
    {
        if !is_readable_first(parts) || is_too_long(parts) {
            return say_refused(&mut self.reply, Errno::Inval);
        }
        match self.pair.add(parts) {
            Ok(number) => say_number(&mut self.reply, number),
            Err(PairError::Full) => say_refused(&mut self.reply, Errno::Nospc),
            Err(PairError::Memory) => Err(AllocError),
        }
    }

    fn next(&mut self) -> Result<(), AllocError>
        ensures lists { (q : QueueLists) → P.stands self.old.pair q →
            Answers q (next_turn q q.waiting) result self.new.reply.items (P.stands self.new.pair) }
        ensures placed { P.placed self.new.pair ≡ P.placed self.old.pair }
    {
        match self.pair.next(&mut self.taken)? {
            Some(number) => say_chain(&mut self.reply, number, self.taken.as_slice()),
            None => say_refused(&mut self.reply, Errno::Again),
        }
    }

    fn used(&mut self, number: u64, len: u32) -> Result<(), AllocError>
        ensures lists { (q : QueueLists) → P.stands self.old.pair q →
            Answers q (used_turn q (numbered_chain number q.taken) len) result self.new.reply.items
            (P.stands self.new.pair) }
        ensures placed { P.placed self.new.pair ≡ P.placed self.old.pair }
    {
        if self.pair.used(number, len) {
            say_done(&mut self.reply)
        } else {
            say_refused(&mut self.reply, Errno::Noent)
        }
    }

    fn reclaim(&mut self) -> Result<(), AllocError>
        ensures lists { (q : QueueLists) → P.stands self.old.pair q →
            Answers q (reclaim_turn q q.used) result self.new.reply.items (P.stands self.new.pair) }
        ensures placed { P.placed self.new.pair ≡ P.placed self.old.pair }
    {
        match self.pair.reclaim() {
            Some(done) => say_used(&mut self.reply, done.number, done.len),
            None => say_refused(&mut self.reply, Errno::Again),
        }
    }

    fn answer_asked(&mut self, line: &QueueLine) -> Result<(), AllocError>
        requires asked { IsAsked line.now }
        requires room { P.placed self.old.pair < 2 ^ 62 }
        ensures lists { (q : QueueLists) → P.stands self.old.pair q →
            Answers q (lists_turn q line.now) result self.new.reply.items (P.stands self.new.pair) }
        ensures placed { P.placed self.new.pair ≤ P.placed self.old.pair + 64 }
    {
        match line {
            QueueLine::Add { parts } => self.add(parts.as_slice()),
            QueueLine::Next => self.next(),
            QueueLine::Used { number, len } => self.used(*number, *len),
            QueueLine::Reclaim => self.reclaim(),
        }
    }

    /// Answers a line: where it is in the grammar, the lists and the reply become the turn's. `Bad` changes nothing.
    /// After want of memory the lists are those before or the turn's, and nothing is said of the reply.
    pub fn answer(&mut self, alloc: Global, line: &[u8]) -> Result<(), LineError>
        requires room { P.placed self.old.pair < 2 ^ 62 }
        ensures lists { (q : QueueLists) → P.stands self.old.pair q →
            AnswersLine q line.now result self.new.reply.items (P.stands self.new.pair) }
        ensures placed { P.placed self.new.pair ≤ P.placed self.old.pair + 64 }
    {
        match read_queue_line(alloc, line)? {
            Some(asked) => self.answer_asked(&asked)?,
            None => self.reply.clear(),
        }
        Ok(())
    }

    /// The reply to the line that was answered last, empty for a line that asks nothing.
    pub fn reply(&self) -> &[u8]
        ensures { result.now ≡ self.now.reply.items }
    {
        self.reply.as_slice()
    }
}
