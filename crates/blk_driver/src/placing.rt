//! Placing a request's chain in the ring.
ghost use Rattle.std.specs.Prelude.{◌≡◌, ◌+◌, ◌*◌, ◌<◌, ◌≤◌, ◌^◌, ℕ, List, take, length};
ghost use Rattle.vd_model.specs.Setting.{Setting};
ghost use Rattle.vd_model.specs.Acts.{Act};
ghost use Rattle.vd_model.specs.RingTurns.{table_bytes, part_wants, needed_descriptors};
ghost use Rattle.vr_split.specs.Mem.{IsUnchanged, Becomes};
ghost use Rattle.vr_split.specs.Reach.{RingInReach, KeepsReach};
ghost use Rattle.vr_driver.specs.Side.{unowned_descriptors, next_head, with_chain};
ghost use Rattle.blk_driver.specs.Asked.{IsAsked, asked_in, wants_of};
ghost use Rattle.blk_driver.specs.Placed.{IsPart, AreParts, Lists, IsPlaced, with_request, chain_len};

use crate::ask::Draft;
use crate::dma::Dma;
use vd_model::{Descriptor, Part, Want};
use vr_driver::table::{encode, flags};
use vr_driver::{AddError, DriverRing, Published};
use vr_split::Mem;

/// A chain that is placed: its head, and what was published.
#[derive(Clone, Copy, Debug, PartialEq, Eq)]
pub struct Placed {
    pub head: u16,
    pub published: Published,
}

/// The most bytes of a table: a descriptor for the header, the range and the status.
const TABLE_LEN: usize = 48;

/// The part of a range that is mapped under this number.
pub fn part_at<P: Dma>(port: &P, number: u64, want: &Want) -> Part
    requires { want.now.len < 2 ^ 32 }
    ensures { IsPart P.stands port.now number want.now result }
{
    Part {
        at: port.iova(number),
        len: want.len as u32,
        writable: want.dir.is_from_device(),
    }
}

/// The descriptors of a table, each but the last with the next one's index.
fn table_of(parts: &[Part]) -> [u8; TABLE_LEN]
    requires { length parts.now ≤ 3 }
    ensures { take (16 * length parts.now) result ≡ table_bytes 0 parts.now }
{
    let mut bytes = [0; TABLE_LEN];
    for (k, part) in parts.iter().enumerate() {
        let has_next = k + 1 < parts.len();
        let d = Descriptor {
            at: part.at,
            len: part.len,
            flags: flags(has_next, part.writable),
            next: if has_next { k as u16 + 1 } else { 0 },
        };
        bytes[16 * k..16 * k + 16].copy_from_slice(&encode(&d));
    }
    bytes
}

/// Lists the parts in the table of a request, which is mapped under this number, and answers the table's address; without a
/// table it does nothing, and answers 0.
pub fn list_parts<P: Dma>(port: &mut P, draft: &Draft, number: u64, parts: &[Part]) -> u64
    requires few { length parts.now ≤ 3 }
    requires buffer { draft.now.buffer + 1 < 2 ^ 64 }
    ensures lists { Lists P.stands port.old draft.now number parts.now result port.new }
    ensures memory { IsUnchanged P.told P.span P.keeps_rest port.old port.new }
{
    if !draft.indirect {
        return 0;
    }
    let table = table_of(parts);
    port.fill(draft.buffer + 1, 0, &table[..16 * parts.len()]);
    port.refresh(number);
    port.iova(number)
}

/// Adds a chain of parts to the ring, or of the table that lists them.
pub fn add_parts<M: Mem>(
    mem: &mut M,
    ring: &mut DriverRing,
    indirect: bool,
    table: u64,
    parts: &[Part],
) -> u16
    requires in_reach { RingInReach (M.told mem.old) (M.span mem.old) ring.old.place }
    requires some { 0 < length parts.now }
    requires few { length parts.now ≤ 3 }
    requires enough { chain_len indirect parts.now ≤ length (unowned_descriptors ring.old) }
    requires size { length (unowned_descriptors ring.old) ≤ ring.old.place.size }
    ensures head { result ≡ next_head ring.old (chain_len indirect parts.now) }
    ensures side { ring.new ≡ with_chain ring.old (chain_len indirect parts.now) }
    ensures written { Becomes M.told mem.old mem.new (λ m. with_request m ring.old indirect table parts.now) }
    ensures in_reach { RingInReach (M.told mem.new) (M.span mem.new) ring.new.place }
    ensures memory { KeepsReach M.told M.span M.keeps mem.old mem.new }
{
    if indirect {
        match ring.add_indirect(mem, table, parts.len() as u16) {
            Ok(head) => head,
            Err(AddError::Full) => unreachable!(),
            Err(AddError::TooLong) => unreachable!(),
        }
    } else {
        match ring.add(mem, parts) {
            Ok(head) => head,
            Err(AddError::Full) => unreachable!(),
            Err(AddError::TooLong) => unreachable!(),
        }
    }
}

/// Lists a request's parts in its table, if it has one, adds its chain to the ring, and publishes it.
fn publish_parts<P: Dma>(
    port: &mut P,
    ring: &mut DriverRing,
    draft: &Draft,
    number: u64,
    parts: &[Part],
) -> Placed
    requires in_reach { RingInReach (P.told port.old) (P.span port.old) ring.old.place }
    requires some { 0 < length parts.now }
    requires few { length parts.now ≤ 3 }
    requires enough { chain_len draft.now.indirect parts.now ≤ length (unowned_descriptors ring.old) }
    requires size { length (unowned_descriptors ring.old) ≤ ring.old.place.size }
    requires buffer { draft.now.buffer + 1 < 2 ^ 64 }
    ensures placed { (first : ℕ) → number ≡ first + length parts.now →
        AreParts P.stands port.old first (part_wants draft.now.buffer (asked_in draft.now.ask)) parts.now →
        chain_len draft.now.indirect parts.now ≡ needed_descriptors draft.now.indirect (asked_in draft.now.ask) →
        IsPlaced P.told P.span P.keeps P.keeps_rest P.stands port.old draft.now first ring.old ring.new result port.new }
    ensures in_reach { RingInReach (P.told port.new) (P.span port.new) ring.new.place }
    ensures memory { KeepsReach P.told P.span P.keeps_rest port.old port.new }
{
    let table = list_parts(port, draft, number, parts);
    let head = add_parts(port, ring, draft.indirect, table, parts);
    let published = ring.publish(port, draft.event_idx);
    Placed { head, published }
}

/// Places a request of which all is mapped, with mappings from this one on.
pub fn place<P: Dma>(port: &mut P, ring: &mut DriverRing, draft: &Draft, first: u64) -> Placed
    requires in_reach { RingInReach (P.told port.old) (P.span port.old) ring.old.place }
    requires asked { IsAsked draft.now.ask }
    requires enough { needed_descriptors draft.now.indirect (asked_in draft.now.ask) ≤ length
        (unowned_descriptors ring.old) }
    requires size { length (unowned_descriptors ring.old) ≤ ring.old.place.size }
    requires buffer { draft.now.buffer + 1 < 2 ^ 64 }
    requires room { first + length (wants_of draft.now) < 2 ^ 64 }
    ensures placed { IsPlaced P.told P.span P.keeps P.keeps_rest P.stands port.old draft.now first
        ring.old ring.new result port.new }
    ensures in_reach { RingInReach (P.told port.new) (P.span port.new) ring.new.place }
    ensures memory { KeepsReach P.told P.span P.keeps_rest port.old port.new }
{
    let header = part_at(port, first, &draft.header_want());
    match draft.ask.want() {
        Some(want) => {
            let data = part_at(port, first + 1, &want);
            let status = part_at(port, first + 2, &draft.status_want());
            publish_parts(port, ring, draft, first + 3, &[header, data, status])
        }
        None => {
            let status = part_at(port, first + 1, &draft.status_want());
            publish_parts(port, ring, draft, first + 2, &[header, status])
        }
    }
}
