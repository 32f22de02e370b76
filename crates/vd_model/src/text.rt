//! Bytes that lie elsewhere.

ghost use Rattle.std.specs.Prelude.{◌≡◌, ℕ, List};

use std::marker::Model;

/// Bytes that lie elsewhere: of a line, or of memory that is used again. Contracts see their list.
#[derive(Drop)]
pub struct Text<'a> {
    held: &'a [u8],
}

impl<'a> Model for Text<'a> {
    ghost Value = { List ℕ };

    ghost view = { λ t. t.held.now };
}

impl<'a> Text<'a> {
    /// These bytes.
    pub fn new(held: &'a [u8]) -> Self
        ensures { result ≡ held.now }
    {
        Text { held }
    }

    /// The bytes, for as long as they lie there.
    pub fn as_slice(&self) -> &'a [u8]
        ensures { result.now ≡ self.now }
    {
        self.held
    }
}
