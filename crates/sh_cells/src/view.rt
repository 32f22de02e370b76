//! What a pass has done and seen. These types are for contracts: no value of them is made.
use crate::word::{Kind, Side, Word};
use std::collections::LinkedList;

/// Bytes that were drawn at once, under one stamp, for the addresses from `base` on.
pub struct Entry {
    pub stamp: u64,
    pub kind: Kind,
    pub base: u64,
    pub bytes: LinkedList<u8>,
}

/// A word that was stored in a cell, or loaded from it.
pub struct Access {
    pub side: Side,
    pub at: u64,
    pub word: Word,
}

/// A page was made present on this side, or absent.
pub struct PageStore {
    pub page: u64,
    pub side: Option<Side>,
}

/// A page was found present on this side, or absent. `stored` says whether its pass had made that
/// page present by then.
pub struct PageRead {
    pub page: u64,
    pub side: Option<Side>,
    pub stored: bool,
}

/// What kind of step a pass has made.
pub enum StepKind {
    /// A stamp was drawn, for an entry.
    Drawn,
    /// A cell was stored.
    WordStored,
    /// A cell was loaded.
    WordLoaded,
    /// A page word was stored.
    PageStored,
    /// A page word was loaded.
    PageLoaded,
}

/// The steps of a pass: a list for each kind, in the order in which they were made, and the kinds of
/// all of them in that order, which says how the lists run into each other. Then the stamps that the
/// pass may still draw, and its share of all 2^47 stamps. What a join takes in stands behind.
pub struct View {
    pub entries: LinkedList<Entry>,
    pub puts: LinkedList<Access>,
    pub reads: LinkedList<Access>,
    pub page_stores: LinkedList<PageStore>,
    pub page_reads: LinkedList<PageRead>,
    pub order: LinkedList<StepKind>,
    pub left: u64,
    pub quota: u64,
}
