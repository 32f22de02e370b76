//! Where bytes go.

ghost use Rattle.std.specs.Prelude.{◌≡◌, ◌<◌, ◌≤◌, ◌-◌, ◌==◌, ◌||◌, ◌↔◌, ℕ, List, [], Option, Some, None, Result, IfOk, IsErr, IsTrue, OnErr, length, min};
ghost use Rattle.vd_io.specs.Told.{Pushed, HasCause};
ghost use Rattle.vd_io.specs.Faults.{Calls, after_call, first_call};
ghost use Rattle.vd_io.specs.Memory.{Held, is_refused};

use crate::Failed;
use crate::faults::Faults;
use std::alloc::{AllocError, Global};
use std::io::Write;
use std::marker::Model;
use vd_num::Lines;

/// Where bytes go.
pub trait Sink {
    // The bytes that it holds, if it tells them.
    ghost held: { Self → Option (List ℕ) };

    // How often it failed.
    ghost faults: { Self → ℕ };

    /// Appends the first of the bytes, at least one, and answers how many.
    fn push(&mut self, bytes: &[u8]) -> Result<usize, Failed>
        requires { 0 < length bytes.now }
        ensures within { IfOk result (λ n. n ≤ length bytes.now) }
        ensures some { IfOk result (λ n. 0 < n) }
        ensures given { IfOk result (λ n. Pushed n bytes.now (held self.old) (held self.new)) }
        ensures kept { OnErr result (held self.new ≡ held self.old) }
        ensures cause { HasCause (faults self.old) (faults self.new) result };
}

/// A sink in memory, whose room is taken when it is made.
#[derive(Drop)]
pub struct MemSink {
    held: Vec<u8>,
    room: usize,
    faults: Faults,
}

impl Model for MemSink {
    ghost use Rattle.std.specs.Prelude.{◌≤◌, length, vec_capacity};
    ghost use Rattle.vd_io.specs.Memory.{Held};

    ghost Value = { Held };

    ghost view = { λ s. record { bytes = s.held.items; room = s.room; calls = s.faults } };

    ghost invariant = { λ s. (length s.held.items ≤ s.room) × (s.room ≤ vec_capacity s.held) };
}

impl MemSink {
    /// An empty sink with room for so many bytes. `fails` lists the calls of `push` that are to
    /// fail, counted from 0.
    pub fn new(alloc: Global, room: u64, fails: Lines) -> Result<MemSink, AllocError>
        ensures { IfOk result (λ s. s ≡ record { bytes = []; room = room; calls = first_call fails }) }
    {
        Ok(MemSink {
            held: Vec::with_capacity(alloc, room as usize)?,
            room: room as usize,
            faults: Faults::new(fails),
        })
    }

    /// The bytes that it holds.
    pub fn as_slice(&self) -> &[u8]
        ensures { result.now ≡ self.now.bytes }
    {
        self.held.as_slice()
    }
}

impl Sink for MemSink {
    ghost held = { λ s. Some s.bytes };

    ghost faults = { λ s. s.calls.failed };

    fn push(&mut self, bytes: &[u8]) -> Result<usize, Failed>
        requires { 0 < length bytes.now }
        ensures within { IfOk result (λ n. n ≤ length bytes.now) }
        ensures some { IfOk result (λ n. 0 < n) }
        ensures given { IfOk result (λ n. Pushed n bytes.now (Some self.old.bytes) (Some self.new.bytes)) }
        ensures kept { OnErr result (Some self.new.bytes ≡ Some self.old.bytes) }
        ensures cause { HasCause self.old.calls.failed self.new.calls.failed result }

        // It takes as much as it has room for, and fails exactly where it has none or the call's number is listed.
        ensures most { IfOk result (λ n. n ≡ min (length bytes.now) (self.old.room - length self.old.bytes)) }
        ensures failed { IsErr result ↔ IsTrue (is_refused self.old) }
        ensures room { self.new.room ≡ self.old.room }
        ensures counted { self.new.calls ≡ after_call (is_refused self.old) self.old.calls }
    {
        let room = self.room - self.held.len();
        if self.faults.call(room == 0) {
            return Err(Failed);
        }
        let n = bytes.len().min(room);
        self.held.extend_from_slice(&bytes[..n]).unwrap();
        Ok(n)
    }
}

/// A sink over a writer, as standard output. It tells no bytes.
#[derive(Drop)]
pub struct StdSink<W> {
    writer: W,
    faults: u64,
}

impl<W: Write> StdSink<W> {
    pub fn new(writer: W) -> StdSink<W>
        ensures { result.faults ≡ 0 }
    {
        StdSink { writer, faults: 0 }
    }
}

impl<W: Write> Sink for StdSink<W> {
    ghost held = { λ _. None };

    ghost faults = { λ s. s.faults };

    /// A writer that takes no byte of a piece that isn't empty has failed too.
    fn push(&mut self, bytes: &[u8]) -> Result<usize, Failed> {
        match self.writer.write(bytes) {
            Ok(n) if n > 0 => Ok(n),
            _ => {
                self.faults = self.faults.saturating_add(1);
                Err(Failed)
            }
        }
    }
}
