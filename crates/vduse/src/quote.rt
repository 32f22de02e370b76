//! A source that keeps the text of the line in hand, so that the line at which a run stopped can be shown.

ghost use Rattle.std.specs.Prelude.{◌≡◌, ◌≤◌, ◌<◌, List, ℕ, Option, IfOk, OnErr, length};
ghost use Rattle.vd_io.specs.Told.{HasCause, Pulled};

use crate::grammar::Grammar;
use memchr::memrchr;
use std::alloc::Global;
use vd_io::{Failed, Source};

/// How many bytes of a line are shown.
const SHOWN: usize = 80;

/// A source, and what it gave since the last line that was whole before its last bytes came.
#[derive(Drop)]
pub struct Quoting<S> {
    source: S,
    kept: Vec<u8>,
}

impl<S: Source> Quoting<S> {
    /// This source, of which nothing is kept yet.
    pub fn new(alloc: Global, source: S) -> Quoting<S>
        ensures { result.source ≡ source }
    {
        Quoting {
            source,
            kept: Vec::new(alloc),
        }
    }

    /// The first line that isn't in the grammar, if it is still here: the lines before it were answered, so that is the line at which a run
    /// stopped with status 6.
    fn refused_line(&self, alloc: Global, grammar: Grammar) -> Option<&[u8]> {
        for line in self.kept.split(|byte| *byte == b'\n') {
            if grammar.refuses(alloc, line) {
                return Some(line);
            }
        }
        None
    }

    /// What follows a message on that line: a colon and its first bytes, the unprintable ones escaped; nothing where it isn't here,
    /// or at another status.
    pub fn quote_at(&self, alloc: Global, status: u8, grammar: Grammar) -> String {
        if status != 6 {
            return String::new(alloc);
        }
        let line = self.refused_line(alloc, grammar).unwrap_or(b"");
        let front = &line[..line.len().min(SHOWN)];
        if front.is_empty() {
            return String::new(alloc);
        }
        format!(in alloc; ": {}", front.escape_ascii()).unwrap_or(String::new(alloc))
    }

    /// Forgets the whole lines, which are answered by now.
    fn forget(&mut self)
        ensures { self.new.source ≡ self.old.source }
    {
        if let Some(last) = memrchr(b'\n', self.kept.as_slice()) {
            self.kept.drain(..=last);
        }
    }

    /// Keeps these bytes. Where there is no memory for them a line can't be shown, and nothing else happens.
    fn keep(&mut self, bytes: &[u8])
        ensures { self.new.source ≡ self.old.source }
    {
        if self.kept.extend_from_slice(bytes).is_err() {
            self.kept.clear();
        }
    }
}

impl<S: Source> Source for Quoting<S> {
    ghost left = { λ s. S.left s.source };

    ghost faults = { λ s. S.faults s.source };

    fn pull(&mut self, into: &mut [u8]) -> Result<usize, Failed> {
        self.forget();
        let n = self.source.pull(into)?;
        self.keep(&into[..n]);
        Ok(n)
    }
}
