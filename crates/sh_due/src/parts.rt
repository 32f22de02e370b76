//! Where the readable parts of a request lie.

use vd_model::Part;

/// The addresses of a request's header and of a write's bytes, 0 for the other kinds.
#[derive(Clone, Copy, Debug)]
pub struct Places {
    pub header: u64,
    pub bytes: u64,
}

/// The bytes of a header.
const HEADER_LEN: u32 = 16;

/// The parts that a device reads, if they are a header and so many bytes behind it, in a part of their
/// own where there are any.
pub fn places_of(parts: &[Part], len: usize) -> Option<Places> {
    let mut readable = parts.iter().filter(|part| !part.writable);
    let header = readable.next()?;
    if header.len != HEADER_LEN {
        return None;
    }
    match readable.next() {
        None if len == 0 => Some(Places {
            header: header.at,
            bytes: 0,
        }),
        Some(bytes) if len > 0 && bytes.len as usize == len && readable.next().is_none() => {
            Some(Places {
                header: header.at,
                bytes: bytes.at,
            })
        }
        _ => None,
    }
}
