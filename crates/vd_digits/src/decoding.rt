//! Hexadecimal text, decoded by a table.

ghost use Rattle.std.specs.Prelude.{◌≡◌, ◌≤◌, ◌*◌, ℕ, MatchBool, MatchOption, IfOk, length};
ghost use Rattle.std.specs.Result.{result_ok};
ghost use Rattle.hex.specs.Hex.{hex_digit_value, decode_pairs, pair_value};
ghost use Rattle.vd_model.specs.Fields.{hex_field};

use std::alloc::AllocError;

/// What each byte says as a hexadecimal digit of either case; 99 where it is none.
static HEX_DIGIT_VALUES: [u8; 256] = [
    99, 99, 99, 99, 99, 99, 99, 99, 99, 99, 99, 99, 99, 99, 99, 99, 99, 99, 99, 99, 99, 99, 99, 99,
    99, 99, 99, 99, 99, 99, 99, 99, 99, 99, 99, 99, 99, 99, 99, 99, 99, 99, 99, 99, 99, 99, 99, 99,
    0, 1, 2, 3, 4, 5, 6, 7, 8, 9, 99, 99, 99, 99, 99, 99, 99, 10, 11, 12, 13, 14, 15, 99, 99, 99,
    99, 99, 99, 99, 99, 99, 99, 99, 99, 99, 99, 99, 99, 99, 99, 99, 99, 99, 99, 99, 99, 99, 99, 10,
    11, 12, 13, 14, 15, 99, 99, 99, 99, 99, 99, 99, 99, 99, 99, 99, 99, 99, 99, 99, 99, 99, 99, 99,
    99, 99, 99, 99, 99, 99, 99, 99, 99, 99, 99, 99, 99, 99, 99, 99, 99, 99, 99, 99, 99, 99, 99, 99,
    99, 99, 99, 99, 99, 99, 99, 99, 99, 99, 99, 99, 99, 99, 99, 99, 99, 99, 99, 99, 99, 99, 99, 99,
    99, 99, 99, 99, 99, 99, 99, 99, 99, 99, 99, 99, 99, 99, 99, 99, 99, 99, 99, 99, 99, 99, 99, 99,
    99, 99, 99, 99, 99, 99, 99, 99, 99, 99, 99, 99, 99, 99, 99, 99, 99, 99, 99, 99, 99, 99, 99, 99,
    99, 99, 99, 99, 99, 99, 99, 99, 99, 99, 99, 99, 99, 99, 99, 99, 99, 99, 99, 99, 99, 99, 99, 99,
    99, 99, 99, 99, 99, 99, 99, 99, 99, 99, 99, 99, 99, 99,
];

/// The value of a digit; 99 where the byte is none.
#[inline]
fn hex_digit_of(byte: u8) -> u8
    ensures digit { MatchOption (hex_digit_value byte) (result ≡ 99)
        (λ digit. (result ≡ digit) × (digit ≤ 15)) }
    ensures small { result ≤ 99 }
{
    HEX_DIGIT_VALUES[byte as usize]
}

/// The byte that two digits say. Two digits say 30 at most together, and what is none says 99.
#[inline]
fn pair_of(high: u8, low: u8) -> Option<u8>
    ensures { (i : ℕ) → result ≡ result_ok (pair_value high low i) }
{
    let first = hex_digit_of(high);
    let second = hex_digit_of(low);
    if first + second > 30 {
        return None;
    }
    Some(first * 16 + second)
}

/// Decodes two digits for each byte. It says whether all of them are digits.
fn decode_pairs(text: &[u8], out: &mut [u8]) -> bool
    requires { length text.now ≡ 2 * length out.old }
    ensures { MatchBool result (decode_pairs 0 text.now
        ≡ Ok out.new) (result_ok (decode_pairs 0 text.now) ≡ None) }
{
    'bytes: for i in 0..out.len() {
        match pair_of(text[2 * i], text[2 * i + 1]) {
            Some(byte) => out[i] = byte,
            None => return false,
        }
    }
    true
}

/// Decodes two digits of either case for each byte, in place of what `into` holds. It says whether
/// the text is one such byte or more; if it isn't, nothing is said of what `into` then holds.
#[tactic(auto, unfolding(vd_model::specs::Fields::hex_field))]
pub fn decode(text: &[u8], into: &mut Vec<u8>) -> Result<bool, AllocError>
    ensures { IfOk result (λ all. MatchBool all (hex_field text.now
        ≡ Some into.new.items) (hex_field text.now ≡ None)) }
{
    if text.is_empty() || text.len() % 2 != 0 {
        return Ok(false);
    }
    into.resize(text.len() / 2, 0u8)?;
    Ok(decode_pairs(text, into.as_mut_slice()))
}
