//! Where bytes come from.

ghost use Rattle.std.specs.Prelude.{◌≡◌, ◌<◌, ◌≤◌, ◌↔◌, ℕ, List, Option, Some, None, Result, IfOk, IsErr, IsTrue, OnErr, length, min};
ghost use Rattle.vd_io.specs.Told.{Pulled, HasCause};
ghost use Rattle.vd_io.specs.Faults.{Calls, is_to_fail, after_call, first_call};

use crate::Failed;
use crate::faults::Faults;
use std::io::Read;
use std::marker::Model;
use vd_num::{Bytes, Lines};

/// Where bytes come from.
pub trait Source {
    // The bytes that are left, if it tells them.
    ghost left: { Self → Option (List ℕ) };

    // How often it failed.
    ghost faults: { Self → ℕ };

    /// Takes the next bytes, which then stand at the front of `into`; 0 is the end of the input.
    fn pull(&mut self, into: &mut [u8]) -> Result<usize, Failed>
        requires { 0 < length into.old }
        ensures within { IfOk result (λ n. n ≤ length into.old) }
        ensures taken { IfOk result (λ n. Pulled n into.new (left self.old) (left self.new)) }
        ensures kept { OnErr result (left self.new ≡ left self.old) }
        ensures cause { HasCause (faults self.old) (faults self.new) result };
}

/// A source in memory.
#[derive(Drop)]
pub struct MemSource {
    bytes: Bytes,
    taken: usize,
    faults: Faults,
}

impl Model for MemSource {
    ghost use Rattle.std.specs.Prelude.{◌≤◌, drop, length};
    ghost use Rattle.vd_io.specs.Memory.{Text};

    ghost Value = { Text };

    ghost view = { λ s. record { left = drop s.taken s.bytes; calls = s.faults } };

    ghost invariant = { λ s. s.taken ≤ length s.bytes };
}

impl MemSource {
    /// A source of these bytes. `fails` lists the calls of `pull` that are to fail, counted from 0.
    pub fn new(bytes: Bytes, fails: Lines) -> MemSource
        ensures { result ≡ record { left = bytes; calls = first_call fails } }
    {
        MemSource {
            bytes,
            taken: 0,
            faults: Faults::new(fails),
        }
    }
}

impl Source for MemSource {
    ghost left = { λ s. Some s.left };

    ghost faults = { λ s. s.calls.failed };

    fn pull(&mut self, into: &mut [u8]) -> Result<usize, Failed>
        requires { 0 < length into.old }
        ensures within { IfOk result (λ n. n ≤ length into.old) }
        ensures taken { IfOk result (λ n. Pulled n into.new (Some self.old.left) (Some self.new.left)) }
        ensures kept { OnErr result (Some self.new.left ≡ Some self.old.left) }
        ensures cause { HasCause self.old.calls.failed self.new.calls.failed result }

        // It gives as much as it has room for, and fails exactly where the call's number is listed.
        ensures most { IfOk result (λ n. n ≡ min (length into.old) (length self.old.left)) }
        ensures failed { IsErr result ↔ IsTrue (is_to_fail self.old.calls) }
        ensures counted { self.new.calls ≡ after_call (is_to_fail self.old.calls) self.old.calls }
    {
        if self.faults.call(false) {
            return Err(Failed);
        }
        let rest = &self.bytes.as_slice()[self.taken..];
        let n = into.len().min(rest.len());
        into[..n].copy_from_slice(&rest[..n]);
        self.taken += n;
        Ok(n)
    }
}

/// A source over a reader, as standard input. It tells no bytes.
#[derive(Drop)]
pub struct StdSource<R> {
    reader: R,
    faults: u64,
}

impl<R: Read> StdSource<R> {
    pub fn new(reader: R) -> StdSource<R>
        ensures { result.faults ≡ 0 }
    {
        StdSource { reader, faults: 0 }
    }
}

impl<R: Read> Source for StdSource<R> {
    ghost left = { λ _. None };

    ghost faults = { λ s. s.faults };

    fn pull(&mut self, into: &mut [u8]) -> Result<usize, Failed> {
        match self.reader.read(into) {
            Ok(n) => Ok(n),
            Err(_) => {
                self.faults = self.faults.saturating_add(1);
                Err(Failed)
            }
        }
    }
}
