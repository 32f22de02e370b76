//! Both sides of a queue.
ghost use Rattle.std.specs.Prelude.{◌≡◌, ◌+◌, ◌<◌, ◌≤◌, ◌^◌, ℕ, Ok, length, is_ok, if◌then◌else◌, true};

use crate::parts::Parts;
use std::alloc::AllocError;
use vd_model::Part;

/// Why a chain wasn't added: it needs more descriptors than are free, or memory was refused.
#[derive(Clone, Copy, Debug, PartialEq, Eq)]
pub enum PairError {
    Full,
    Memory,
}

/// A chain that is reclaimed: the number of its addition, and how many bytes the device wrote.
#[derive(Clone, Copy, Debug, PartialEq, Eq)]
pub struct UsedChain {
    pub number: u64,
    pub len: u32,
}

/// The driver's side and the device's side of a queue, with the memory of its ring. Chains are numbered by their
/// additions, from 0 on.
pub trait Pair {
    ghost use Rattle.vr_pair.specs.QueueLists.{QueueLists, Adds, Takes, Uses, Reclaims, is_readable_first, bytes_in, chain_limit};

    /// The lists that it stands for.
    ghost stands: { Self → QueueLists → Type 0 };

    /// How many parts all chains that were added have together.
    ghost placed: { Self → ℕ };

    /// Adds a chain, and answers its number.
    fn add(&mut self, parts: &[Part]) -> Result<u64, PairError>
        requires some { 0 < length parts.now }
        requires readable_first { is_readable_first parts.now ≡ true }
        requires bytes { bytes_in parts.now ≤ chain_limit }
        requires room { placed self.old < 2 ^ 62 }
        ensures lists { (q : QueueLists) → stands self.old q → Adds q parts.now result (stands self.new) }
        ensures placed { placed self.new ≡
            (if is_ok result then placed self.old + length parts.now else placed self.old) };

    /// Takes the chain that has waited longest: its number, and its parts in place of those in `into`.
    fn next(&mut self, into: &mut Parts) -> Result<Option<u64>, AllocError>
        ensures lists { (q : QueueLists) → stands self.old q → Takes q result into.new (stands self.new) }
        ensures placed { placed self.new ≡ placed self.old };

    /// Gives the taken chain of a number back, with how many bytes were written; false where no such chain is taken.
    fn used(&mut self, number: u64, len: u32) -> bool
        ensures lists { (q : QueueLists) → stands self.old q → Uses q number len result (stands self.new) }
        ensures placed { placed self.new ≡ placed self.old };

    /// Takes back the chain that was used first.
    fn reclaim(&mut self) -> Option<UsedChain>
        ensures lists { (q : QueueLists) → stands self.old q → Reclaims q result (stands self.new) }
        ensures placed { placed self.new ≡ placed self.old };

    /// The lists count the same parts.
    ghost placed_is: { (s : Self) (q : QueueLists) → stands s q → q.placed ≡ placed s };
}
