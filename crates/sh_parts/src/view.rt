//! What a seat at a journal's table knows. It is for contracts: no value of it is made.
use crate::entry::Entry;
use std::collections::LinkedList;

/// The seat under the lock keeps the journal, and how long it was when the last note was made. A
/// note's seat claims a front of the journal and a place in it. What a seat has met is the claim of
/// a note that was joined into it, until the next look.
pub struct View {
    pub keeps: bool,
    pub journal: LinkedList<Entry>,
    pub noted: u64,
    pub claims: bool,
    pub entries: LinkedList<Entry>,
    pub place: u64,
    pub met: bool,
    pub met_entries: LinkedList<Entry>,
    pub met_place: u64,
}
