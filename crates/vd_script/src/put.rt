//! The words of a line, each written behind a space.

ghost use Rattle.std.specs.Prelude.{◌≡◌, ◌∷◌, ◌++◌, decimal, map, OnOk};
ghost use Rattle.std.specs.List.{join_with_byte};
ghost use Rattle.hex.specs.Hex.{encode_lower};
ghost use Rattle.vd_model.specs.Text.{flag_text, dir_text, on_text, optional_hex_text, part_text, submit_text, behind};

use itoa::Buffer;
use std::alloc::AllocError;
use std::mem;
use vd_digits::append_hex;
use vd_model::{Bytes, Dir, Part, Parts, QueueOrConfig, SubmitForm, Text};

/// A space and a word.
pub fn put_word(into: &mut Bytes, word: &[u8]) -> Result<(), AllocError>
    ensures { OnOk result (into.new ≡ into.old ++ 32 ∷ word.now) }
{
    into.push(b' ')?;
    into.extend_from_slice(word)
}

/// A space and a name.
pub fn put_name(into: &mut Bytes, name: &Text<'_>) -> Result<(), AllocError>
    ensures { OnOk result (into.new ≡ into.old ++ 32 ∷ name.now) }
{
    put_word(into, name.as_slice())
}

/// A number in decimal, with no space.
pub fn put_digits(into: &mut Bytes, number: u64) -> Result<(), AllocError>
    ensures { OnOk result (into.new ≡ into.old ++ decimal number) }
{
    let mut buffer = Buffer::new();
    into.extend_from_slice(buffer.format(number).as_bytes())
}

/// A space and a number in decimal.
pub fn put_number(into: &mut Bytes, number: u64) -> Result<(), AllocError>
    ensures { OnOk result (into.new ≡ into.old ++ 32 ∷ decimal number) }
{
    let mut buffer = Buffer::new();
    put_word(into, buffer.format(number).as_bytes())
}

/// Numbers in decimal, each behind a space.
pub fn put_numbers(into: &mut Bytes, numbers: &[u64]) -> Result<(), AllocError>
    ensures { OnOk result (into.new ≡ into.old ++ behind 32 (map decimal numbers.now)) }
{
    for number in numbers {
        put_number(into, *number)?;
    }
    Ok(())
}

/// The first word of a line, the device's name and numbers.
pub fn begin(
    into: &mut Bytes,
    first: &[u8],
    device: &Text<'_>,
    numbers: &[u64],
) -> Result<(), AllocError>
    ensures { OnOk result (into.new
        ≡ into.old ++ join_with_byte 32 (first.now ∷ device.now ∷ map decimal numbers.now)) }
{
    into.extend_from_slice(first)?;
    put_name(into, device)?;
    put_numbers(into, numbers)
}

/// Two lower-case digits for each byte.
fn put_bytes(into: &mut Bytes, bytes: &[u8]) -> Result<(), AllocError>
    ensures { OnOk result (into.new ≡ into.old ++ encode_lower bytes.now) }
{
    let none = Bytes::new(into.allocator());
    let mut text = mem::replace(into, none).into_vec();
    let added = append_hex(&mut text, bytes);
    *into = Bytes::from_vec(text);
    added?;
    Ok(())
}

/// A space, and two lower-case digits for each byte.
pub fn put_hex(into: &mut Bytes, bytes: &[u8]) -> Result<(), AllocError>
    ensures { OnOk result (into.new ≡ into.old ++ 32 ∷ encode_lower bytes.now) }
{
    into.push(b' ')?;
    put_bytes(into, bytes)
}

/// The same, or `-` for no bytes.
pub fn put_optional_hex(into: &mut Bytes, bytes: &Text<'_>) -> Result<(), AllocError>
    ensures { OnOk result (into.new ≡ into.old ++ 32 ∷ optional_hex_text bytes.now) }
{
    match bytes.as_slice() {
        [] => put_word(into, b"-"),
        _ => put_hex(into, bytes.as_slice()),
    }
}

/// A space, and `0` or `1`.
pub fn put_flag(into: &mut Bytes, flag: bool) -> Result<(), AllocError>
    ensures { OnOk result (into.new ≡ into.old ++ 32 ∷ flag_text flag) }
{
    if flag {
        put_word(into, b"1")
    } else {
        put_word(into, b"0")
    }
}

/// A space and the direction of a mapping.
pub fn put_dir(into: &mut Bytes, dir: Dir) -> Result<(), AllocError>
    ensures { OnOk result (into.new ≡ into.old ++ 32 ∷ dir_text dir) }
{
    match dir {
        Dir::To => put_word(into, b"to"),
        Dir::From => put_word(into, b"from"),
        Dir::Both => put_word(into, b"both"),
    }
}

/// A space, and a queue's number or `config`.
pub fn put_on(into: &mut Bytes, on: QueueOrConfig) -> Result<(), AllocError>
    ensures { OnOk result (into.new ≡ into.old ++ 32 ∷ on_text on) }
{
    match on {
        QueueOrConfig::Config => put_word(into, b"config"),
        QueueOrConfig::Queue(queue) => put_number(into, u64::from(queue)),
    }
}

/// A space, and a part with a colon between its fields.
pub fn put_part(into: &mut Bytes, part: &Part) -> Result<(), AllocError>
    ensures { OnOk result (into.new ≡ into.old ++ 32 ∷ part_text part.now) }
{
    let kind = if part.writable { b"w" } else { b"r" };
    put_word(into, kind)?;
    into.push(b':')?;
    put_digits(into, part.at)?;
    into.push(b':')?;
    put_digits(into, u64::from(part.len))
}

/// Parts, each behind a space.
pub fn put_parts(into: &mut Bytes, parts: &Parts) -> Result<(), AllocError>
    ensures { OnOk result (into.new ≡ into.old ++ behind 32 (map part_text parts.now)) }
{
    for part in parts.as_slice() {
        put_part(into, part)?;
    }
    Ok(())
}

/// The words of a block request, each behind a space.
pub fn put_submit_form(into: &mut Bytes, form: &SubmitForm) -> Result<(), AllocError>
    ensures { OnOk result (into.new ≡ into.old ++ behind 32 (submit_text form.now)) }
{
    match form {
        SubmitForm::Read {
            sector,
            buffer,
            offset,
            len,
        } => {
            put_word(into, b"read")?;
            put_numbers(into, &[*sector, *buffer, *offset, *len])
        }
        SubmitForm::Write {
            sector,
            buffer,
            offset,
            len,
        } => {
            put_word(into, b"write")?;
            put_numbers(into, &[*sector, *buffer, *offset, *len])
        }
        SubmitForm::Flush => put_word(into, b"flush"),
        SubmitForm::Id { buffer, offset } => {
            put_word(into, b"id")?;
            put_numbers(into, &[*buffer, *offset])
        }
    }
}
