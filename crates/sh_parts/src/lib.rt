//! The locked parts of the shared device: the state of its memory and that of its messages, each
//! with a journal of every step and its answer.
//!
//! Whenever its lock is free, a journal is legal: each answer is that of the model's definitions
//! after the entries before it. A note is a proof of an entry that outlives the lock: a front of the
//! journal and the place of an entry in it, which no other note has. It stands on `vd_iova`,
//! `vd_regions` and `vd_msg` for what the entries leave, and on `atomic_table` for the rule that
//! ties notes to their journal.
#![tactic(auto)]

mod domain;
mod entry;
mod journal;
mod memory;
mod messages;
mod rule;
mod view;

pub use domain::{DomainState, NewDomain, SharedDomain};
pub use entry::{DomainAnswer, DomainStep, Entry, JournalKind, MessageAnswer, MessageStep};
pub use journal::{Naming, Note};
pub use messages::{MessageState, NewMessages, SharedMessages};
pub use vd_model::{Body, Dir, Region, Sent, TakeAnswer};
pub use vd_num::{Errno, Range};
