//! A list that loses its first items at little cost.

ghost use Rattle.std.specs.Prelude.{◌≡◌, ◌<◌, ◌≤◌, ◌^◌, [], ◌∷◌, ◌++◌, drop, length, slice_index_or, vec_len, IfOk, OnErr};
ghost use Rattle.std.specs.List.{remove};

use std::alloc::{AllocError, Global};
use std::marker::Model;
use std::ops::Index;

/// What remains of a list. Contracts see the items that are left.
///
/// An item that goes from the front stays in memory until half of them are gone, so that it doesn't move the others.
#[derive(Drop)]
pub struct Remaining<T: Drop> {
    held: Vec<T>,
    /// How many of the first ones are gone.
    gone: usize,
}

impl<T: Drop> Model for Remaining<T> {
    ghost use Rattle.std.specs.Prelude.{◌≤◌, List, drop, length};

    ghost Value = { List T };

    ghost view = { λ r. drop r.gone r.held.items };

    ghost invariant = { λ r. r.gone ≤ length r.held.items };
}

impl<T: Drop> Remaining<T> {
    /// No item.
    pub fn new(alloc: Global) -> Remaining<T>
        ensures { result ≡ [] }
    {
        Remaining {
            held: Vec::new(alloc),
            gone: 0,
        }
    }

    /// How many are left.
    pub fn len(&self) -> usize
        ensures value { result ≡ length self.now }
        ensures small { result < 2 ^ 63 }
    {
        self.held.len() - self.gone
    }

    /// The items that are left.
    pub fn as_slice(&self) -> &[T]
        ensures { result.now ≡ self.now }
    {
        &self.held[self.gone..]
    }

    /// Adds an item behind the others.
    pub fn push(&mut self, item: T) -> Result<(), AllocError>
        ensures ok { IfOk result (λ _. self.new ≡ self.old ++ item ∷ []) }
        ensures err { OnErr result (self.new ≡ self.old) }
    {
        match self.held.push(item) {
            Ok(()) => Ok(()),
            Err(_) => Err(AllocError),
        }
    }

    /// Takes one item out.
    pub fn remove(&mut self, index: usize)
        requires { index < length self.old }
        ensures { self.new ≡ remove self.old index }
    {
        if index > 0 {
            self.held.remove(self.gone + index);
            return;
        }
        self.gone += 1;
        if self.gone > self.held.len() / 2 {
            drop_front(&mut self.held, self.gone);
            self.gone = 0;
        }
    }
}

impl<T: Drop> Index<usize> for Remaining<T> {
    type Output = T;

    ghost can_index = { λ r i. i < length r };

    ghost index_gives = { λ r i x. x ≡ slice_index_or r i x };

    fn index(&self, index: usize) -> &T
        requires { index < length self.now }
        ensures { result.now ≡ slice_index_or self.now index result.now }
    {
        &self.as_slice()[index]
    }
}

/// Takes so many of the first items away.
fn drop_front<T: Drop>(items: &mut Vec<T>, count: usize)
    requires { count ≤ vec_len items.old }
    ensures { items.new.items ≡ drop count items.old.items }
{
    items.drain(..count);
}
