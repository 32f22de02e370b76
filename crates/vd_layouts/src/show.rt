//! How a layout is printed.

use std::io;

/// Prints the length of a struct.
pub fn size(rt: &impl Print, name: &str, len: usize) -> io::Result<()> {
    println!(rt; "{name} {len}")
}

/// Prints where a field stands: its offset and width in a struct that has all ones in this field
/// and zeros elsewhere.
pub fn field(rt: &impl Print, name: &str, bytes: &[u8]) -> io::Result<()> {
    let at = bytes.iter().position(|byte| *byte == 0xff).unwrap_or(0);
    let width = bytes.iter().filter(|byte| **byte == 0xff).count();
    println!(rt; "{name} {at} {width}")
}

/// Prints a filled struct.
pub fn filled(rt: &impl Print, name: &str, bytes: &[u8]) -> io::Result<()> {
    print!(rt; "{name} = ")?;
    for byte in bytes {
        print!(rt; "{byte:02x}")?;
    }
    println!(rt; "")
}

/// Prints a constant.
pub fn constant(rt: &impl Print, name: &str, value: u64) -> io::Result<()> {
    println!(rt; "{name} {value}")
}
