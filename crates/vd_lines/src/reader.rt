//! A reader of lines.

ghost use Rattle.std.specs.Prelude.{◌≡◌, ◌≢◌, ◌<◌, ◌≤◌, ◌+◌, ◌++◌, ◌∷◌, [], ℕ, List, Some, IfOk, OnErr, MatchOption, MatchBool, true, length, slice_index, take, Ok, Err};
ghost use Rattle.vd_io.specs.Told.{Pulled, Rose};
ghost use Rattle.vd_lines.specs.Ahead.{Ahead, IsOneLine, IsFilled};
ghost use Rattle.vd_lines.specs.IsAt.{IsAt, IsNext};

use memchr::memchr;
use std::alloc::{AllocError, Global};
use std::marker::Model;
use vd_io::{Failed, Source};

/// How many bytes a line may have before its LF.
pub const LINE_LIMIT: usize = 65536;

/// How many bytes a script may have.
pub const TEXT_LIMIT: usize = 67108864;

/// How many bytes are pulled at once.
const PIECE: usize = 65536;

/// Why no line is read.
#[derive(Clone, Copy, Debug, PartialEq, Eq)]
pub enum ReadFault {
    /// The source failed.
    Failed,
    /// The line or the script is too long.
    TooLong,
    Memory,
}

/// What was read.
#[derive(Clone, Copy, Debug, PartialEq, Eq)]
pub enum Next {
    /// A line that an LF ends.
    Line,
    /// The last line, which no LF ends.
    Last,
    /// No line is left.
    End,
}

/// A reader of lines. It keeps the line that was read last, and what was read ahead.
#[derive(Drop)]
pub struct LineReader {
    alloc: Global,
    buffer: Vec<u8>,
    start: usize,
    len: usize,
    next: usize,
    /// Up to here no LF was found behind `next`.
    searched: usize,
    taken: usize,
}

impl Model for LineReader {
    ghost use Rattle.std.specs.Prelude.{◌≤◌, ◌+◌, take, drop, length};
    ghost use Rattle.vd_lines.specs.Ahead.{Ahead, HasNoneBetween};

    ghost Value = { Ahead };

    ghost view = { λ r. record {
      line = take r.len (drop r.start r.buffer.items);
      pending = drop r.next r.buffer.items;
      taken = r.taken;
    } };

    ghost invariant = { λ r. (r.start + r.len ≤ length r.buffer.items) × (r.next ≤ r.searched)
        × (r.searched ≤ length r.buffer.items) × HasNoneBetween r.buffer.items r.next r.searched
        × (r.taken ≤ 67108864) };
}

/// Where the first LF is.
#[inline(always)]
fn line_end(bytes: &[u8]) -> Option<usize>
    ensures { MatchOption result (IsOneLine bytes.now)
        (λ i. (i < length bytes.now) × (slice_index bytes.now i ≡ 10)
        × ((k : ℕ) → k < i → slice_index bytes.now k ≢ 10)) }
{
    memchr(b'\n', bytes)
}

impl LineReader {
    /// A reader that has read nothing.
    pub fn new(alloc: Global) -> LineReader
        ensures { result ≡ record { line = []; pending = []; taken = 0 } }
    {
        LineReader {
            alloc,
            buffer: Vec::new(alloc),
            start: 0,
            len: 0,
            next: 0,
            searched: 0,
            taken: 0,
        }
    }

    /// The line that was read last.
    pub fn line(&self) -> &[u8]
        ensures { result.now ≡ self.now.line }
    {
        &self.buffer[self.start..self.start + self.len]
    }

    /// Takes the first line of what was read ahead, if an LF ends it.
    #[inline(always)]
    fn cut(&mut self) -> bool
        ensures { MatchBool result
            ((self.old.pending ≡ self.new.line ++ (10 ∷ self.new.pending)) × IsOneLine self.new.line
            × (self.new.taken ≡ self.old.taken))
            ((self.new ≡ self.old) × IsOneLine self.old.pending) }
    {
        match line_end(&self.buffer[self.searched..]) {
            None => {
                self.searched = self.buffer.len();
                false
            }
            Some(more) => {
                let end = self.searched + more;
                self.start = self.next;
                self.len = end - self.next;
                self.next = end + 1;
                self.searched = end + 1;
                true
            }
        }
    }

    /// Takes all that was read ahead as a line, if there is something.
    fn cut_last(&mut self) -> bool
        ensures { MatchBool result
            ((self.new.line ≡ self.old.pending) × (0 < length self.old.pending))
            (self.old.pending ≡ []) }
    {
        let len = self.buffer.len() - self.next;
        if len == 0 {
            return false;
        }
        self.start = self.next;
        self.len = len;
        self.next += len;
        self.searched = self.next;
        true
    }

    /// Forgets the lines that were read, and keeps what was read ahead.
    fn compact(&mut self) -> Result<(), AllocError>
        ensures pending { self.new.pending ≡ self.old.pending }
        ensures taken { self.new.taken ≡ self.old.taken }
    {
        if self.next > 0 {
            let rest = Vec::from_slice(self.alloc, &self.buffer[self.next..])?;
            self.buffer = rest;
            self.start = 0;
            self.len = 0;
            self.searched -= self.next;
            self.next = 0;
        }
        Ok(())
    }

    /// Appends bytes to what was read ahead.
    fn append(&mut self, bytes: &[u8]) -> Result<(), AllocError>
        requires { self.old.taken + length bytes.now ≤ 67108864 }
        ensures pending { IfOk result (λ _. self.new.pending ≡ self.old.pending ++ bytes.now) }
        ensures taken { IfOk result (λ _. self.new.taken ≡ self.old.taken + length bytes.now) }
        ensures kept { OnErr result (self.new.taken ≡ self.old.taken) }
    {
        self.buffer.extend_from_slice(bytes)?;
        self.taken += bytes.len();
        Ok(())
    }

    /// Pulls more bytes, and answers how many.
    // The piece on the stack costs at each entry, so `advance` isn't to have it.
    #[cold]
    #[inline(never)]
    fn fill<S: Source>(&mut self, source: &mut S) -> Result<usize, ReadFault>
        ensures filled { IsFilled self.old self.new (S.left source.old) (S.left source.new) result }
        ensures failed { result ≡ Err ReadFault.Failed → Rose (S.faults source.old) (S.faults source.new) }
        ensures later { S.faults source.old ≤ S.faults source.new }
    {
        if self.compact().is_err() {
            return Err(ReadFault::Memory);
        }
        let taken = self.taken();
        let mut piece = [0u8; PIECE];
        let room = (TEXT_LIMIT - taken).min(PIECE).max(1);
        let n = match source.pull(&mut piece[..room]) {
            Ok(n) => n,
            Err(Failed) => return Err(ReadFault::Failed),
        };
        if n > TEXT_LIMIT - taken {
            return Err(ReadFault::TooLong);
        }
        match self.append(&piece[..n]) {
            Ok(()) => Ok(n),
            Err(AllocError) => Err(ReadFault::Memory),
        }
    }

    /// How long the line is that was read last.
    fn line_len(&self) -> usize
        ensures { result ≡ length self.now.line }
    {
        self.len
    }

    /// How many bytes were taken.
    fn taken(&self) -> usize
        ensures value { result ≡ self.now.taken }
        ensures small { result ≤ 67108864 }
    {
        self.taken
    }

    /// How many bytes were read ahead.
    fn ahead(&self) -> usize
        ensures { result ≡ length self.now.pending }
    {
        self.buffer.len() - self.next
    }

    /// Reads the next line.
    pub fn advance<S: Source>(&mut self, source: &mut S) -> Result<Next, ReadFault>
        ensures next { (text : List ℕ) (done : List (List ℕ)) → IsAt text done self.old (S.left source.old) →
            IsNext text done self.new (S.left source.new) result }
        ensures failed { result ≡ Err ReadFault.Failed → Rose (S.faults source.old) (S.faults source.new) }
        ensures later { S.faults source.old ≤ S.faults source.new }
        ensures small { result ≡ Ok Next.Line → self.old.taken ≤ 67108864 → self.new.taken ≤ 67108864 }
        ensures lines { result ≡ Ok Next.Line →
            length self.new.pending + self.old.taken < self.new.taken + length self.old.pending }
    {
        loop {
            if self.cut() {
                if self.line_len() > LINE_LIMIT {
                    return Err(ReadFault::TooLong);
                }
                return Ok(Next::Line);
            }
            if self.ahead() > LINE_LIMIT {
                return Err(ReadFault::TooLong);
            }
            match self.fill(source) {
                Err(fault) => return Err(fault),
                Ok(n) => {
                    if n == 0 {
                        return Ok(if self.cut_last() {
                            Next::Last
                        } else {
                            Next::End
                        });
                    }
                }
            }
        }
    }
}
