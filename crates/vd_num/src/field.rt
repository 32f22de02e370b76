//! Little-endian fields of a list of bytes.

ghost use Rattle.std.specs.Prelude.{◌≡◌, ◌+◌, ◌≤◌, length};
ghost use Rattle.vd_num.specs.Field.{field_at, with_field};

use byteorder::{ByteOrder, LittleEndian};

/// The little-endian number in the two bytes of `from` that begin at `at`.
pub fn get16(from: &[u8], at: usize) -> u16
    requires { at + 2 ≤ length from.now }
    ensures { result ≡ field_at 2 from.now at }
{
    LittleEndian::read_u16(&from[at..])
}

/// The little-endian number in the four bytes of `from` that begin at `at`.
pub fn get32(from: &[u8], at: usize) -> u32
    requires { at + 4 ≤ length from.now }
    ensures { result ≡ field_at 4 from.now at }
{
    LittleEndian::read_u32(&from[at..])
}

/// The little-endian number in the eight bytes of `from` that begin at `at`.
pub fn get64(from: &[u8], at: usize) -> u64
    requires { at + 8 ≤ length from.now }
    ensures { result ≡ field_at 8 from.now at }
{
    LittleEndian::read_u64(&from[at..])
}

/// Writes `value` into the two bytes of `into` that begin at `at`, and changes no other byte.
pub fn set16(into: &mut [u8], at: usize, value: u16)
    requires { at + 2 ≤ length into.old }
    ensures { into.new ≡ with_field 2 into.old at value }
{
    LittleEndian::write_u16(&mut into[at..], value);
}

/// Writes `value` into the four bytes of `into` that begin at `at`, and changes no other byte.
pub fn set32(into: &mut [u8], at: usize, value: u32)
    requires { at + 4 ≤ length into.old }
    ensures { into.new ≡ with_field 4 into.old at value }
{
    LittleEndian::write_u32(&mut into[at..], value);
}

/// Writes `value` into the eight bytes of `into` that begin at `at`, and changes no other byte.
pub fn set64(into: &mut [u8], at: usize, value: u64)
    requires { at + 8 ≤ length into.old }
    ensures { into.new ≡ with_field 8 into.old at value }
{
    LittleEndian::write_u64(&mut into[at..], value);
}
