//! The bytes of one dirty sector.

ghost use Rattle.std.specs.Prelude.{◌≡◌, length};

use std::alloc::{AllocError, Global};
use std::marker::Model;

/// The memory of one sector, seen as its bytes.
#[derive(Drop)]
pub struct Line {
    bytes: Box<[u8; 512]>,
}

impl Model for Line {
    ghost use Rattle.std.specs.Prelude.{List, ℕ};

    ghost Value = { List ℕ };

    ghost view = { λ l. l.bytes.value };
}

impl Line {
    /// A line of zeros.
    pub fn new(alloc: Global) -> Result<Line, AllocError> {
        Ok(Line {
            bytes: Box::new(alloc, [0; 512])?,
        })
    }

    /// Its bytes.
    pub fn as_slice(&self) -> &[u8]
        ensures bytes { result.now ≡ self.now }
        ensures whole { length self.now ≡ 512 }
    {
        &self.bytes[..]
    }

    /// Replaces its bytes.
    pub fn fill(&mut self, bytes: &[u8])
        requires { length bytes.now ≡ 512 }
        ensures { self.new ≡ bytes.now }
    {
        self.bytes.copy_from_slice(bytes);
    }
}
