//! Bytes and numbers, written as lower-case hexadecimal digits.

ghost use Rattle.std.specs.Prelude.{◌≡◌, ◌<◌, ◌≤◌, ◌*◌, ◌%◌, false, length, drop, OnOk, OnErr, IsOk};
ghost use Rattle.std.specs.Fmt.{digit_glyph, digits};
ghost use Rattle.hex.specs.Hex.{encode_lower};
ghost use Rattle.vd_digits.specs.Adds.{Adds, HasRoom};

use std::alloc::AllocError;

/// The longest address with the space before it: ` 0x` and sixteen digits.
pub const ADDRESS_LEN: usize = 19;

/// The two digits of each byte, one pair behind the other.
const DIGIT_PAIRS: &[u8; 512] = b"000102030405060708090a0b0c0d0e0f101112131415161718191a1b1c1d1e1f\
    202122232425262728292a2b2c2d2e2f303132333435363738393a3b3c3d3e3f\
    404142434445464748494a4b4c4d4e4f505152535455565758595a5b5c5d5e5f\
    606162636465666768696a6b6c6d6e6f707172737475767778797a7b7c7d7e7f\
    808182838485868788898a8b8c8d8e8f909192939495969798999a9b9c9d9e9f\
    a0a1a2a3a4a5a6a7a8a9aaabacadaeafb0b1b2b3b4b5b6b7b8b9babbbcbdbebf\
    c0c1c2c3c4c5c6c7c8c9cacbcccdcecfd0d1d2d3d4d5d6d7d8d9dadbdcdddedf\
    e0e1e2e3e4e5e6e7e8e9eaebecedeeeff0f1f2f3f4f5f6f7f8f9fafbfcfdfeff";

/// Writes two digits for each byte.
fn encode(bytes: &[u8], text: &mut [u8])
    requires { length text.old ≡ 2 * length bytes.now }
    ensures { text.new ≡ encode_lower bytes.now }
{
    'bytes: for i in 0..bytes.len() {
        let at = 2 * bytes[i] as usize;
        text[2 * i] = DIGIT_PAIRS[at];
        text[2 * i + 1] = DIGIT_PAIRS[at + 1];
    }
}

/// Appends two lower-case digits for each byte. Where there is room for them it takes no memory.
pub fn append_hex(into: &mut Vec<u8>, bytes: &[u8]) -> Result<(), AllocError>
    ensures ok { OnOk result (Adds into.old into.new (encode_lower bytes.now) (2 * length bytes.now)) }
    ensures err { OnErr result (into.new.items ≡ into.old.items) }
    ensures succeeds { HasRoom (2 * length bytes.now) into.old → IsOk result }
{
    let start = into.len();
    into.reserve(2 * bytes.len())?;
    into.resize(start + 2 * bytes.len(), 0)?;
    encode(bytes, &mut into.as_mut_slice()[start..]);
    Ok(())
}

/// The last digit of a number.
#[inline]
fn low_digit(number: u64) -> u8
    ensures { result ≡ digit_glyph false (number % 16) }
{
    DIGIT_PAIRS[2 * (number % 16) as usize + 1]
}

/// Writes a number's digits at the end of the buffer, and returns where they begin.
pub fn write_hex(number: u64, buffer: &mut [u8; ADDRESS_LEN]) -> usize
    ensures start { (3 ≤ result) × (result < 19) }
    ensures written { drop result buffer.new ≡ digits 16 false number }
{
    let mut left = number;
    let mut at = ADDRESS_LEN;
    while left >= 16 {
        at -= 1;
        buffer[at] = low_digit(left);
        left /= 16;
    }
    buffer[at - 1] = low_digit(left);
    at - 1
}
