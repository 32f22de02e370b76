//! What is asked of a block device.
ghost use Rattle.std.specs.Prelude.{◌≡◌, ◌++◌, ◌∷◌, ◌+◌, ◌<◌, ◌≤◌, ◌^◌, [], Some, IfSome, length, if◌then◌else◌};
ghost use Rattle.vd_model.specs.RingTurns.{parts_count, table_len, part_wants, needed_descriptors};
ghost use Rattle.blk_driver.specs.Asked.{asked_in, header_in, front_bytes, draft_of, wants_of, written_len, IsAsked};
ghost use Rattle.blk_driver.specs.Pended.{pending_for};

use crate::features::{EVENT_IDX, INDIRECT_DESC, has_feature};
use crate::pending::Pending;
use blk_proto::{BlkType, Header};
use vd_model::{Dir, Want};

/// The bytes of the buffer that is made for a request: its header, and the status byte.
const FRONT_LEN: usize = Header::LEN + 1;

/// A request for a block device. A want is the range of a buffer that it reads into or writes from.
#[derive(Clone, Copy, Debug, PartialEq, Eq)]
pub enum Ask {
    /// Reads sectors from this one on.
    Read { sector: u64, want: Want },
    /// Writes sectors from this one on.
    Write { sector: u64, want: Want },
    /// Makes what was written last.
    Flush,
    /// Asks for the device's name, of 20 bytes.
    Id { want: Want },
}

impl Ask {
    /// The range of a buffer that it maps, if there is one.
    pub fn want(&self) -> Option<Want>
        ensures want { result ≡ (asked_in self.now).want }
        ensures sized { IsAsked self.now → IfSome result (λ w. (0 < w.len) × (w.len ≤ 1048576)) }
    {
        match self {
            Ask::Read { want, .. } => Some(*want),
            Ask::Write { want, .. } => Some(*want),
            Ask::Flush => None,
            Ask::Id { want } => Some(*want),
        }
    }

    /// Its header, with a tag in the reserved word.
    fn header(&self, tag: u32) -> Header
        ensures { result ≡ header_in self.now tag }
    {
        let (kind, sector) = match self {
            Ask::Read { sector, .. } => (BlkType::In, *sector),
            Ask::Write { sector, .. } => (BlkType::Out, *sector),
            Ask::Flush => (BlkType::Flush, 0),
            Ask::Id { .. } => (BlkType::GetId, 0),
        };
        Header {
            kind: kind.number(),
            reserved: tag,
            sector,
        }
    }

    /// The header, and the status byte before the device writes it.
    pub fn front(&self, tag: u32) -> [u8; FRONT_LEN]
        ensures { result ≡ front_bytes self.now tag }
    {
        let mut bytes = [0xff; FRONT_LEN];
        self.header(tag).write(&mut bytes[..Header::LEN]);
        bytes
    }
}

/// A request that is to be placed: what is asked, the number of the buffer for its header and its status, and whether its
/// parts are listed in a table, which is then the next buffer.
#[derive(Clone, Copy, Debug, PartialEq, Eq)]
pub struct Draft {
    pub ask: Ask,
    pub buffer: u64,
    pub indirect: bool,
    /// Whether the device says of which index it wants to be told.
    pub event_idx: bool,
}

impl Draft {
    /// A request under the features that the driver accepted.
    pub fn new(ask: Ask, buffer: u64, features: u64) -> Draft
        ensures { result ≡ draft_of ask buffer features }
    {
        Draft {
            ask,
            buffer,
            indirect: has_feature(features, INDIRECT_DESC),
            event_idx: has_feature(features, EVENT_IDX),
        }
    }

    /// How many buffers are made for it.
    fn buffer_count(&self) -> u8
        ensures { result ≡ (if self.now.indirect then 2 else 1) }
    {
        if self.indirect { 2 } else { 1 }
    }

    /// How many mappings it has.
    fn map_count(&self) -> u64
        ensures { result ≡ length (wants_of self.now) }
    {
        self.part_count() as u64 + if self.indirect { 1 } else { 0 }
    }

    /// How many bytes its device may write.
    fn written_len(&self) -> u64
        requires { IsAsked self.now.ask }
        ensures { result ≡ written_len (part_wants self.now.buffer (asked_in self.now.ask)) }
    {
        match self.ask.want() {
            Some(want) => if want.dir.is_from_device() {
                want.len + 1
            } else {
                1
            },
            None => 1,
        }
    }

    /// What is kept of it once it is placed.
    pub fn pending(&self, head: u16, first_map: u64) -> Pending
        requires asked { IsAsked self.now.ask }
        requires room { first_map + length (wants_of self.now) < 2 ^ 64 }
        ensures { result ≡ pending_for self.now head first_map }
    {
        Pending {
            head,
            buffer: self.buffer,
            buffers: self.buffer_count(),
            first_map,
            end_map: first_map + self.map_count(),
            writable: self.written_len(),
        }
    }

    /// How many parts it has.
    pub fn part_count(&self) -> u16
        ensures { result ≡ parts_count (asked_in self.now.ask) }
    {
        if self.ask.want().is_some() { 3 } else { 2 }
    }

    /// How many descriptors of the ring it needs.
    pub fn descriptor_count(&self) -> u16
        ensures { result ≡ needed_descriptors self.now.indirect (asked_in self.now.ask) }
    {
        if self.indirect { 1 } else { self.part_count() }
    }

    /// The range of its header.
    pub fn header_want(&self) -> Want
        ensures { result ≡ record { buffer = self.now.buffer; offset = 0; len = 16; dir = Dir.To } }
    {
        Want {
            buffer: self.buffer,
            offset: 0,
            len: Header::LEN as u64,
            dir: Dir::To,
        }
    }

    /// The range of its status byte.
    pub fn status_want(&self) -> Want
        ensures { result ≡ record { buffer = self.now.buffer; offset = 16; len = 1; dir = Dir.From } }
    {
        Want {
            buffer: self.buffer,
            offset: Header::LEN as u64,
            len: 1,
            dir: Dir::From,
        }
    }

    /// The range of the table of its parts.
    pub fn table_want(&self) -> Want
        requires { self.now.buffer + 1 < 2 ^ 64 }
        ensures { result ≡ record {
          buffer = self.now.buffer + 1;
          offset = 0;
          len = table_len
              (asked_in self.now.ask);
          dir = Dir.To;
        } }
    {
        Want {
            buffer: self.buffer + 1,
            offset: 0,
            len: 16 * self.part_count() as u64,
            dir: Dir::To,
        }
    }
}
