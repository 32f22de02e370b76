//! The bytes of one buffer.

ghost use Rattle.std.specs.Prelude.{◌≡◌, ◌≤◌, ◌+◌, ◌-◌, ℕ, List, length, slice_index, if◌then◌else◌};
ghost use Rattle.vd_num.specs.Number.{is_within};

use std::marker::Model;

/// The bytes of a buffer. Contracts see it as their list.
#[derive(Drop)]
pub(crate) struct Buffer {
    bytes: Vec<u8>,
}

impl Model for Buffer {
    ghost Value = { List ℕ };

    ghost view = { λ b. b.bytes.items };
}

impl Buffer {
    /// These bytes; it takes no memory.
    pub(crate) fn from_vec(bytes: Vec<u8>) -> Buffer
        ensures { result ≡ bytes.items }
    {
        Buffer { bytes }
    }

    /// The vector that holds them; it takes no memory.
    pub(crate) fn into_vec(self) -> Vec<u8>
        ensures { result.items ≡ self }
    {
        self.bytes
    }

    pub(crate) fn as_slice(&self) -> &[u8]
        ensures { result.now ≡ self.now }
    {
        self.bytes.as_slice()
    }

    /// Writes bytes from an index on.
    pub(crate) fn write(&mut self, at: usize, bytes: &[u8])
        requires { at + length bytes.now ≤ length self.old }
        ensures size { length self.new ≡ length self.old }
        ensures bytes { (i : ℕ) → slice_index self.new i
            ≡ (if is_within at (length bytes.now) i then slice_index bytes.now (i - at) else slice_index self.old i) }
    {
        write(&mut self.bytes, at, bytes);
    }
}

/// Writes bytes from an index on.
fn write(memory: &mut [u8], at: usize, bytes: &[u8])
    requires { at + length bytes.now ≤ length memory.old }
    ensures { (i : ℕ) → slice_index memory.new i
        ≡ (if is_within at (length bytes.now) i then slice_index bytes.now (i - at) else slice_index memory.old i) }
{
    memory[at..at + bytes.len()].copy_from_slice(bytes);
}
