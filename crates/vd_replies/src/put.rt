//! The words of a reply, each written behind a space where there is room.

ghost use Rattle.std.specs.Prelude.{◌≡◌, ◌≤◌, ◌+◌, ◌*◌, ◌∷◌, ◌++◌, decimal, length, map, false};
ghost use Rattle.hex.specs.Hex.{encode_lower};
ghost use Rattle.vd_model.specs.Text.{behind};
ghost use Rattle.vd_model.specs.Replies.{address_text, item_text};
ghost use Rattle.vd_answers.specs.Short.{is_text, are_short};
ghost use Rattle.vd_digits.specs.Adds.{Adds, HasRoom};

use crate::words::tag_text_of;
use itoa::Buffer;
use vd_digits::{ADDRESS_LEN, append_hex, write_hex};
use vd_model::Item;

/// Appends bytes.
pub fn put(into: &mut Vec<u8>, bytes: &[u8])
    requires { HasRoom (length bytes.now) into.old }
    ensures { Adds into.old into.new bytes.now (length bytes.now) }
{
    into.extend_from_slice(bytes).unwrap();
}

/// A space and a word.
pub fn put_word(into: &mut Vec<u8>, word: &[u8])
    requires { HasRoom (1 + length word.now) into.old }
    ensures { Adds into.old into.new (32 ∷ word.now) (1 + length word.now) }
{
    into.push_reserved(b' ');
    put(into, word);
}

/// A space and a number in decimal.
pub fn put_number(into: &mut Vec<u8>, number: u64)
    requires { HasRoom 41 into.old }
    ensures { Adds into.old into.new (32 ∷ decimal number) 41 }
{
    let mut buffer = Buffer::new();
    put_word(into, buffer.format(number).as_bytes());
}

/// A space, `0x` and the address's digits.
pub fn put_address(into: &mut Vec<u8>, address: u64)
    requires { HasRoom 41 into.old }
    ensures { Adds into.old into.new (32 ∷ address_text address) 41 }
{
    let mut buffer = [b' '; ADDRESS_LEN];
    let at = write_hex(address, &mut buffer);
    buffer[at - 1] = b'x';
    buffer[at - 2] = b'0';
    buffer[at - 3] = b' ';
    put(into, &buffer[at - 3..]);
}

/// A space, and two lower-case digits for each byte.
pub fn put_hex(into: &mut Vec<u8>, bytes: &[u8])
    requires { HasRoom (1 + 2 * length bytes.now) into.old }
    ensures { Adds into.old into.new (32 ∷ encode_lower bytes.now) (1 + 2 * length bytes.now) }
{
    into.push_reserved(b' ');
    append_hex(into, bytes).unwrap();
}

/// A space and a field that is no text.
pub fn put_field(into: &mut Vec<u8>, field: &Item)
    requires room { HasRoom 41 into.old }
    requires short { is_text field.now ≡ false }
    ensures { Adds into.old into.new (32 ∷ item_text field.now) 41 }
{
    match field {
        Item::Word(tag) => put_word(into, tag_text_of(*tag)),
        Item::Number(number) => put_number(into, *number),
        Item::Address(address) => put_address(into, *address),
        Item::Text(_) => unreachable!(),
    }
}
