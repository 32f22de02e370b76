//! The memory that a ring lies in, as its daemon and its driver reach it.
//! Each struct lends a domain to the rings' code; what is told are the bytes that the acts say, and what is kept is that
//! puts alone were made. `walk` is the line that walks a chain.
#![tactic(auto)]

mod daemon;
mod event;
mod lines;
mod rings;

pub use daemon::DaemonMem;
pub use event::accept;
pub use lines::{ChainAt, walk};
pub use rings::RingMem;
