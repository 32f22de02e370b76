//! The replies that wait to be written, in large pieces.

ghost use Rattle.std.specs.Prelude.{◌≡◌, ◌<◌, ◌≤◌, ◌++◌, ℕ, List, [], Option, true, false, OnOk, OnErr, IsErr, IfErr, length, take, find};
ghost use Rattle.vd_io.specs.Told.{Rose};
ghost use Rattle.vd_loop.specs.Written.{Appended};
ghost use Rattle.vd_loop.specs.Replies.{IsReplyAdded, Cut, ends_after, line_at};

use std::alloc::{AllocError, Global};
use std::marker::Model;
use vd_io::{Failed, Sink};

/// Where a reply ends among those that wait, and how many lines stand before its line.
#[derive(Clone, Copy)]
pub struct Mark {
    pub end: usize,
    pub before: u64,
}

/// Replies that wait to be written.
#[derive(Drop)]
pub struct Waiting {
    bytes: Vec<u8>,
    marks: Vec<Mark>,
}

impl Model for Waiting {
    ghost use Rattle.vd_loop.specs.Replies.{Replies, IsMarked};

    ghost Value = { Replies };

    ghost view = { λ w. record { bytes = w.bytes.items; marks = w.marks.items } };

    ghost invariant = { λ w. IsMarked (record { bytes = w.bytes.items; marks = w.marks.items }) };
}

/// Writes all of the bytes, or answers how many were written before the sink failed.
fn write_all<K: Sink>(sink: &mut K, bytes: &[u8]) -> Result<(), usize>
    ensures all { OnOk result (Appended (K.held sink.old) (K.held sink.new) bytes.now) }
    ensures front { IfErr result (λ n. Appended (K.held sink.old) (K.held sink.new) (take n bytes.now)) }
    ensures less { IfErr result (λ n. n < length bytes.now) }
    ensures later { K.faults sink.old ≤ K.faults sink.new }
    ensures failed { IsErr result → Rose (K.faults sink.old) (K.faults sink.new) }
{
    let mut at = 0;
    while at < bytes.len() {
        match sink.push(&bytes[at..]) {
            Ok(n) => at += n,
            Err(Failed) => return Err(at),
        }
    }
    Ok(())
}

/// The first of the marks whose reply ends behind the byte at this place.
fn mark_of(marks: &[Mark], place: usize) -> Option<Mark>
    ensures { result ≡ find (ends_after place) marks.now }
{
    marks.iter().copied().find(|mark| place < mark.end)
}

impl Waiting {
    /// No reply.
    pub fn new(alloc: Global) -> Waiting
        ensures { result ≡ record { bytes = []; marks = [] } }
    {
        Waiting {
            bytes: Vec::new(alloc),
            marks: Vec::new(alloc),
        }
    }

    /// How many bytes wait.
    pub fn len(&self) -> usize
        ensures { result ≡ length self.now.bytes }
    {
        self.bytes.len()
    }

    /// No byte waits.
    pub fn is_empty(&self) -> bool
        ensures none { result ≡ true → self.now.bytes ≡ [] }
        ensures some { result ≡ false → 0 < length self.now.bytes }
    {
        self.bytes.is_empty()
    }

    /// Adds the reply to a line before which so many others stand.
    pub fn add(&mut self, reply: &[u8], before: u64) -> Result<(), AllocError>
        ensures ok { OnOk result (IsReplyAdded reply.now before self.old self.new) }
        ensures err { OnErr result (self.new ≡ self.old) }
    {
        if reply.is_empty() {
            return Ok(());
        }
        let len = self.bytes.len();
        self.bytes.extend_from_slice(reply)?;
        let mark = Mark {
            end: self.bytes.len(),
            before,
        };
        match self.marks.push(mark) {
            Ok(()) => Ok(()),
            Err(_) => {
                self.bytes.truncate(len);
                Err(AllocError)
            }
        }
    }

    /// How many lines stand before the one whose reply has the byte at this place.
    fn line_at(&self, place: usize) -> u64
        ensures { result ≡ line_at self.now place }
    {
        match mark_of(&self.marks, place) {
            Some(mark) => mark.before,
            None => 0,
        }
    }

    /// Writes all that waits. If the sink fails, it answers to how many lines the replies were
    /// written whole.
    pub fn write<K: Sink>(&mut self, sink: &mut K) -> Result<(), u64>
        ensures all { OnOk result (Appended (K.held sink.old) (K.held sink.new) self.old.bytes) }
        ensures none { OnOk result (self.new ≡ record { bytes = []; marks = [] }) }
        ensures front { IfErr result (λ lines. Cut self.old lines (K.held sink.old) (K.held sink.new)) }
        ensures later { K.faults sink.old ≤ K.faults sink.new }
        ensures failed { IsErr result → Rose (K.faults sink.old) (K.faults sink.new) }
    {
        match write_all(sink, self.bytes.as_slice()) {
            Ok(()) => {
                self.bytes.clear();
                self.marks.clear();
                Ok(())
            }
            Err(written) => Err(self.line_at(written)),
        }
    }
}
