//! The words of a reply, each written behind what stands there.

ghost use Rattle.std.specs.Prelude.{◌≡◌, ◌∷◌, ◌++◌, [], codes, decimal, map, OnOk};
ghost use Rattle.vd_model.specs.Text.{behind, writable_text};
ghost use Rattle.vd_model.specs.Replies.{address_text};
ghost use Rattle.vd_num.specs.Errno.{errno_number};
ghost use Rattle.vr_pair.specs.QueueLines.{given_part, reply_words};

use itoa::Buffer;
use std::alloc::AllocError;
use vd_digits::{ADDRESS_LEN, write_hex};
use vd_num::Errno;
use vr_pair::Part;

/// A number in decimal.
fn put_decimal(into: &mut Vec<u8>, number: u64) -> Result<(), AllocError>
    ensures { OnOk result (into.new.items ≡ into.old.items ++ decimal number) }
{
    let mut buffer = Buffer::new();
    into.extend_from_slice(buffer.format(number).as_bytes())
}

/// A space and a number in decimal.
fn put_number(into: &mut Vec<u8>, number: u64) -> Result<(), AllocError>
    ensures { OnOk result (into.new.items ≡ into.old.items ++ 32 ∷ decimal number) }
{
    into.push(b' ')?;
    put_decimal(into, number)
}

/// `0x` and an address's digits.
fn put_address(into: &mut Vec<u8>, address: u64) -> Result<(), AllocError>
    ensures { OnOk result (into.new.items ≡ into.old.items ++ address_text address) }
{
    let mut buffer = [b' '; ADDRESS_LEN];
    let at = write_hex(address, &mut buffer);
    into.extend_from_slice(b"0x")?;
    into.extend_from_slice(&buffer[at..])
}

/// A space, and whether the device writes a part.
fn put_kind(into: &mut Vec<u8>, writable: bool) -> Result<(), AllocError>
    ensures { OnOk result (into.new.items ≡ into.old.items ++ 32 ∷ writable_text writable) }
{
    if writable {
        into.extend_from_slice(b" w")
    } else {
        into.extend_from_slice(b" r")
    }
}

/// A space, and a part with a colon between its fields.
fn put_part(into: &mut Vec<u8>, part: &Part) -> Result<(), AllocError>
    ensures { OnOk result (into.new.items ≡ into.old.items ++ 32 ∷ given_part part.now) }
{
    put_kind(into, part.writable)?;
    into.push(b':')?;
    put_address(into, part.at)?;
    into.push(b':')?;
    put_decimal(into, u64::from(part.len))
}

/// Parts, each behind a space.
fn put_parts(into: &mut Vec<u8>, parts: &[Part]) -> Result<(), AllocError>
    ensures { OnOk result (into.new.items ≡ into.old.items ++ behind 32 (map given_part parts.now)) }
{
    for part in parts {
        put_part(into, part)?;
    }
    Ok(())
}

/// A reply in place of what was there: done.
pub fn say_done(into: &mut Vec<u8>) -> Result<(), AllocError>
    ensures { OnOk result (into.new.items ≡ reply_words (codes "ok" ∷ [])) }
{
    into.clear();
    into.extend_from_slice(b"ok\n")
}

/// A chain's number.
pub fn say_number(into: &mut Vec<u8>, number: u64) -> Result<(), AllocError>
    ensures { OnOk result (into.new.items ≡ reply_words (codes "ok" ∷ decimal number ∷ [])) }
{
    into.clear();
    into.extend_from_slice(b"ok")?;
    put_number(into, number)?;
    into.push(b'\n')?;
    Ok(())
}

/// A chain's number and its parts.
pub fn say_chain(into: &mut Vec<u8>, number: u64, parts: &[Part]) -> Result<(), AllocError>
    ensures { OnOk result (into.new.items
        ≡ reply_words (codes "ok" ∷ decimal number ∷ map given_part parts.now)) }
{
    into.clear();
    into.extend_from_slice(b"ok")?;
    put_number(into, number)?;
    put_parts(into, parts)?;
    into.push(b'\n')?;
    Ok(())
}

/// A chain's number, and how many bytes were written.
pub fn say_used(into: &mut Vec<u8>, number: u64, len: u32) -> Result<(), AllocError>
    ensures { OnOk result (into.new.items
        ≡ reply_words (codes "ok" ∷ decimal number ∷ decimal len ∷ [])) }
{
    into.clear();
    into.extend_from_slice(b"ok")?;
    put_number(into, number)?;
    put_number(into, u64::from(len))?;
    into.push(b'\n')?;
    Ok(())
}

/// A refusal.
pub fn say_refused(into: &mut Vec<u8>, errno: Errno) -> Result<(), AllocError>
    ensures { OnOk result (into.new.items
        ≡ reply_words (codes "err" ∷ decimal (errno_number errno) ∷ [])) }
{
    into.clear();
    into.extend_from_slice(b"err")?;
    put_number(into, u64::from(errno.number()))?;
    into.push(b'\n')?;
    Ok(())
}
