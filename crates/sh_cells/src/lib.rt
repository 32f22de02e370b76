//! Memory that threads share without a lock: words of two bytes, each with the stamp of the log
//! entry that its bytes come from.
//!
//! It stands on `atomic_table`, whose single atomic steps it uses, and on `vd_num` for `Bus`. The
//! running device stands on it. No call waits, takes a lock or a runtime, and only
//! `Cells::new` takes memory. In any schedule each call adds exactly what it did to the view of its
//! pass, and `close` hands out the log, in which each word that was read is zero or was put there.
#![tactic(auto)]

mod cells;
mod pass;
mod rule;
#[cfg(test)]
mod tests;
mod view;
mod word;

pub use cells::Cells;
pub use pass::{DaemonPass, DriverPass, Log, Pass, Token};
pub use view::{Access, Entry, PageRead, PageStore, StepKind, View};
pub use word::{Kind, Side, Word};
