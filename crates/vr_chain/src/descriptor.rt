//! What a descriptor says, and where it stands.
ghost use Rattle.std.specs.Prelude.{◌≡◌, ◌≤◌, true};
ghost use Rattle.vd_model.specs.Trace.{descriptor_of, descriptor_address, position_after, has_next, is_writable, is_indirect, is_misshapen, descriptor_part};

use bitflags::Flags;
use vd_model::{Descriptor, Part, Position, Table};
use vd_num::{DescFlags, get16, get32, get64};

/// The most bytes of an indirect table, which has up to 32,768 descriptors.
const MAX_TABLE_BYTES: u32 = 524288;

pub fn from_bytes(bytes: &[u8; 16]) -> Descriptor
    ensures { result ≡ descriptor_of bytes.now }
{
    Descriptor {
        at: get64(bytes, 0),
        len: get32(bytes, 8),
        flags: get16(bytes, 12),
        next: get16(bytes, 14),
    }
}

pub fn has_next(d: &Descriptor) -> bool
    ensures { result ≡ has_next d.now }
{
    DescFlags::from_bits_retain(d.flags).contains(DescFlags::NEXT)
}

pub fn is_writable(d: &Descriptor) -> bool
    ensures { result ≡ is_writable d.now }
{
    DescFlags::from_bits_retain(d.flags).contains(DescFlags::WRITE)
}

pub fn is_indirect(d: &Descriptor) -> bool
    ensures { result ≡ is_indirect d.now }
{
    DescFlags::from_bits_retain(d.flags).contains(DescFlags::INDIRECT)
}

/// Whether it names a table and may not.
pub fn is_misshapen(negotiated: bool, d: &Descriptor) -> bool
    ensures { result ≡ is_misshapen negotiated d.now }
{
    !negotiated || has_next(d) || d.len == 0 || d.len % 16 != 0 || d.len > MAX_TABLE_BYTES
}

pub fn part_of(d: &Descriptor) -> Part
    ensures { result ≡ descriptor_part d.now }
{
    Part {
        at: d.at,
        len: d.len,
        writable: is_writable(d),
    }
}

/// The address of the descriptor at a position.
pub fn address_of(position: &Position) -> u64
    ensures { result ≡ descriptor_address position.now }
{
    position.table.at.wrapping_add(16 * position.index as u64)
}

/// The position to which the descriptor at a position leads, if it leads on.
pub fn position_after(position: &Position, d: &Descriptor) -> Option<Position>
    requires { is_indirect d.now ≡ true → d.now.len ≤ 524288 }
    ensures { result ≡ position_after position.now d.now }
{
    if is_indirect(d) {
        return Some(Position {
            table: Table {
                number: 1,
                at: d.at,
                entries: (d.len / 16) as u16,
            },
            index: 0,
        });
    }
    if has_next(d) {
        return Some(Position {
            table: position.table,
            index: d.next,
        });
    }
    None
}
