//! Numbers of a line, read digit by digit.

ghost use Rattle.std.specs.Prelude.{◌≡◌, ◌-◌, ◌^◌, ◌<◌, ◌≤◌, length};
ghost use Rattle.vd_model.specs.Fields.{digit, digits_from, plain_number, numeral, number_within};

/// What each byte says as a digit, 0 to 9 and lower-case a to f; 99 where it is none.
static DIGIT_VALUES: [u8; 256] = [
    99, 99, 99, 99, 99, 99, 99, 99, 99, 99, 99, 99, 99, 99, 99, 99, 99, 99, 99, 99, 99, 99, 99, 99,
    99, 99, 99, 99, 99, 99, 99, 99, 99, 99, 99, 99, 99, 99, 99, 99, 99, 99, 99, 99, 99, 99, 99, 99,
    0, 1, 2, 3, 4, 5, 6, 7, 8, 9, 99, 99, 99, 99, 99, 99, 99, 99, 99, 99, 99, 99, 99, 99, 99, 99,
    99, 99, 99, 99, 99, 99, 99, 99, 99, 99, 99, 99, 99, 99, 99, 99, 99, 99, 99, 99, 99, 99, 99, 10,
    11, 12, 13, 14, 15, 99, 99, 99, 99, 99, 99, 99, 99, 99, 99, 99, 99, 99, 99, 99, 99, 99, 99, 99,
    99, 99, 99, 99, 99, 99, 99, 99, 99, 99, 99, 99, 99, 99, 99, 99, 99, 99, 99, 99, 99, 99, 99, 99,
    99, 99, 99, 99, 99, 99, 99, 99, 99, 99, 99, 99, 99, 99, 99, 99, 99, 99, 99, 99, 99, 99, 99, 99,
    99, 99, 99, 99, 99, 99, 99, 99, 99, 99, 99, 99, 99, 99, 99, 99, 99, 99, 99, 99, 99, 99, 99, 99,
    99, 99, 99, 99, 99, 99, 99, 99, 99, 99, 99, 99, 99, 99, 99, 99, 99, 99, 99, 99, 99, 99, 99, 99,
    99, 99, 99, 99, 99, 99, 99, 99, 99, 99, 99, 99, 99, 99, 99, 99, 99, 99, 99, 99, 99, 99, 99, 99,
    99, 99, 99, 99, 99, 99, 99, 99, 99, 99, 99, 99, 99, 99,
];

#[inline]
fn digit_of(byte: u8) -> u8
    ensures { result ≡ digit byte }
{
    DIGIT_VALUES[byte as usize]
}

/// The number of a word so short that it fits: no digit is tested for a number too large.
#[inline]
fn number_of_few_digits(radix: u64, digits: &[u8]) -> Option<u64>
    requires radix { (2 ≤ radix) × (radix ≤ 16) }
    requires few { length digits.now ≤ 16 }
    ensures { result ≡ number_within 0 (2 ^ 64 - 1) (digits_from radix 0 digits.now) }
{
    let mut number = 0u64;
    for byte in digits {
        let digit = u64::from(digit_of(*byte));
        if digit >= radix {
            return None;
        }
        let shifted = number * radix;
        number = shifted + digit;
    }
    Some(number)
}

fn number_of_digits(radix: u64, digits: &[u8]) -> Option<u64>
    requires { (2 ≤ radix) × (radix ≤ 16) }
    ensures { result ≡ number_within 0 (2 ^ 64 - 1) (digits_from radix 0 digits.now) }
{
    let mut number = 0u64;
    for byte in digits {
        let digit = u64::from(digit_of(*byte));
        if digit >= radix {
            return None;
        }
        let shifted = number.checked_mul(radix)?;
        number = shifted.checked_add(digit)?;
    }
    Some(number)
}

#[inline]
fn plain(radix: u64, digits: &[u8]) -> Option<u64>
    requires { (2 ≤ radix) × (radix ≤ 16) }
    ensures { result ≡ number_within 0 (2 ^ 64 - 1) (plain_number radix digits.now) }
{
    match digits {
        [] => None,
        [b'0', _, ..] => None,
        _ if digits.len() <= 16 => number_of_few_digits(radix, digits),
        _ => number_of_digits(radix, digits),
    }
}

/// The number that a word says, decimal or hexadecimal.
#[inline]
pub fn number_of(word: &[u8]) -> Option<u64>
    ensures { result ≡ number_within 0 (2 ^ 64 - 1) (numeral word.now) }
{
    match word {
        [b'0', b'x', digits @ ..] => plain(16, digits),
        _ => plain(10, word),
    }
}
