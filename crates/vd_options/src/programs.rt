//! The words of the programs beside a run.

ghost use Rattle.std.specs.Prelude.{◌≡◌, map, string_bytes};
ghost use Rattle.vd_options.specs.Programs.{asked_guest, asked_queue, ring_kind_of, ring_size_of};

use crate::words::number;

/// Which ring a queue has: that of section 2.7 or that of section 2.8 of virtio 1.2.
#[derive(Clone, Copy, Debug, PartialEq, Eq)]
pub enum RingKind {
    Packed,
    Split,
}

/// A queue that words ask for: its ring, and how many descriptors that has.
#[derive(Clone, Copy, Debug, PartialEq, Eq)]
pub struct QueueOptions {
    pub kind: RingKind,
    pub size: u16,
}

/// The kind of a ring.
fn ring_kind(word: &[u8]) -> Option<RingKind>
    ensures { result ≡ ring_kind_of word.now }
{
    if word == b"packed".as_slice() {
        Some(RingKind::Packed)
    } else if word == b"split".as_slice() {
        Some(RingKind::Split)
    } else {
        None
    }
}

/// The size of a ring.
fn ring_size(word: &[u8]) -> Option<u16>
    ensures { result ≡ ring_size_of word.now }
{
    match number(word, 1, 32768) {
        Some(n) if n.is_power_of_two() => Some(n as u16),
        _ => None,
    }
}

/// Reads the words of a queue's program: `queue`, then `packed` or `split`, then the size of its ring, a
/// power of two from 1 to 32,768 in decimal without leading zeros.
pub fn read_queue(words: &Vec<String>) -> Option<QueueOptions>
    ensures { result ≡ asked_queue (map string_bytes words.now.items) }
{
    let [first, kind, size] = words.as_slice() else {
        return None;
    };
    if first.as_bytes() != b"queue".as_slice() {
        return None;
    }
    match (ring_kind(kind.as_bytes()), ring_size(size.as_bytes())) {
        (Some(kind), Some(size)) => Some(QueueOptions { kind, size }),
        _ => None,
    }
}

/// Reads the words of a guest's program: `vhost`, then how many bytes the guest's memory has, from 1 to
/// 67,108,864 in decimal without leading zeros.
pub fn read_guest(words: &Vec<String>) -> Option<u32>
    ensures { result ≡ asked_guest (map string_bytes words.now.items) }
{
    let [first, bytes] = words.as_slice() else {
        return None;
    };
    if first.as_bytes() != b"vhost".as_slice() {
        return None;
    }
    number(bytes.as_bytes(), 1, 67_108_864)
}
