//! A request's header (virtio 1.2, section 5.2.6).

ghost use Rattle.std.specs.Prelude.{◌≡◌, ◌↔◌, IsSome, IfSome, length};
ghost use Rattle.blk_proto.specs.Headers.{header_bytes, IsAt, Fits};
ghost use Rattle.blk_proto.specs.declared.header.Header.{Header};

use vd_num::{get32, get64, set32, set64};

/// What a block request begins with (`struct virtio_blk_req` up to its data).
#[derive(Clone, Copy, Debug, PartialEq, Eq)]
pub struct Header {
    /// The type, as a number of a [`BlkType`](crate::BlkType) or another.
    pub kind: u32,
    pub reserved: u32,
    /// The first sector, of 512 bytes.
    pub sector: u64,
}

impl Header {
    /// The bytes that it has.
    pub const LEN: usize = 16;

    /// The header in these bytes.
    pub fn read(from: &[u8]) -> Option<Header>
        ensures formed { IsSome result ↔ (length from.now ≡ 16) }
        ensures fields { IfSome result (IsAt from.now) }
        ensures again { (h : Header) → Fits h → from.now ≡ header_bytes h → result ≡ Some h }
    {
        if from.len() != Header::LEN {
            return None;
        }
        Some(Header {
            kind: get32(from, 0),
            reserved: get32(from, 4),
            sector: get64(from, 8),
        })
    }

    /// Writes it as bytes.
    #[tactic(auto, unfolding(crate::specs::Headers::header_bytes))]
    pub fn write(&self, into: &mut [u8])
        requires { length into.old ≡ 16 }
        ensures { into.new ≡ header_bytes self.now }
    {
        set32(into, 0, self.kind);
        set32(into, 4, self.reserved);
        set64(into, 8, self.sector);
    }
}
