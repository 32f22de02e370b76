//! Names and reserved bytes in a struct.

ghost use Rattle.std.specs.Prelude.{◌≡◌, ◌+◌, ◌≤◌, ◌==◌, IfOk, length, drop, replicate, slice_range};
ghost use Rattle.std.specs.List.{position, position_or_len};
ghost use Rattle.vd_num.specs.Field.{field_at, with_field};
ghost use Rattle.vd_model.specs.Raw.{are_zero};
ghost use Rattle.vd_abi.specs.Layout.{IsText, before_zero, with_bytes};

use std::alloc::{AllocError, Global};
use vd_num::{Bytes, Name};

/// Whether each of the bytes is zero.
pub fn are_zero(bytes: &[u8]) -> bool
    ensures { result ≡ are_zero bytes.now }
{
    bytes.iter().all(|byte| *byte == 0)
}

/// Makes each of the bytes zero.
pub fn clear(into: &mut [u8])
    ensures { into.new ≡ replicate (length into.old) 0 }
{
    into.fill(0);
}

/// Puts `bytes` in place of those of `into` that begin at `at`.
pub fn put(into: &mut [u8], at: usize, bytes: &[u8])
    requires { at + length bytes.now ≤ length into.old }
    ensures { into.new ≡ with_bytes into.old at bytes.now }
{
    into[at..at + bytes.len()].copy_from_slice(bytes);
}

/// The byte at `at`, as a field of one byte.
pub fn get8(from: &[u8], at: usize) -> u8
    requires { at + 1 ≤ length from.now }
    ensures { result ≡ field_at 1 from.now at }
{
    from[at]
}

/// Puts `value` in place of the byte at `at`.
pub fn set8(into: &mut [u8], at: usize, value: u8)
    requires { at + 1 ≤ length into.old }
    ensures { into.new ≡ with_field 1 into.old at value }
{
    into[at] = value;
}

/// Where the first zero stands.
fn first_zero(chars: &[u8]) -> Option<usize>
    ensures { result ≡ position (λ byte. byte == 0) chars.now }
{
    chars.iter().position(|byte| *byte == 0)
}

/// How many bytes stand before the first zero, or all where none is there.
fn text_len(chars: &[u8]) -> usize
    ensures value { result ≡ position_or_len (λ byte. byte == 0) chars.now }
    ensures within { result ≤ length chars.now }
{
    first_zero(chars).unwrap_or(chars.len())
}

/// The bytes before the first zero, or all.
fn before_zero(chars: &[u8]) -> &[u8]
    ensures { result.now ≡ before_zero chars.now }
{
    &chars[..text_len(chars)]
}

/// The name in the first 256 bytes, up to the first zero; the last of them counts as one.
pub fn name_in(alloc: Global, from: &[u8]) -> Result<Name, AllocError>
    requires { 256 ≤ length from.now }
    ensures value { IfOk result (λ name. name ≡ before_zero (slice_range from.now 0 255)) }
    ensures text { IfOk result (λ name. IsText 256 name) }
{
    let chars = before_zero(&from[..255]);
    Ok(Name::from_vec(Vec::from_slice(alloc, chars)?))
}

/// The bytes from `at` on.
pub fn bytes_from(alloc: Global, from: &[u8], at: usize) -> Result<Bytes, AllocError>
    requires { at ≤ length from.now }
    ensures { IfOk result (λ bytes. bytes ≡ drop at from.now) }
{
    Ok(Bytes::from_vec(Vec::from_slice(alloc, &from[at..])?))
}
