//! The digits of lines: hexadecimal text both ways, and numbers that are read.
//!
//! It stands on `vd_model`, which has the fields of a line as definitions, and on `hex`, which has
//! hexadecimal text as definitions. Digits are looked up in tables, so no digit is tested one by one.
#![tactic(auto)]

mod decoding;
mod encoding;
mod numbers;

pub use decoding::decode;
pub use encoding::{ADDRESS_LEN, append_hex, write_hex};
pub use numbers::number_of;

#[cfg(test)]
mod tests;
