//! The block daemon's lines on a queue: a request is fetched, executed on an image, and finished.
//!
//! A `BlkQueue` is kept of a queue beside the domain that its ring lies in. Each call answers one line: it tells the answer
//! of the line's turn, and the domain, the daemon and the image stand for the turn's acts.
#![tactic(auto)]

mod executing;
mod fetching;
mod finishing;
mod known;
mod laws;

pub use executing::execute;
pub use fetching::fetch;
pub use finishing::finish;
pub use known::{Drive, KnownQueue};
pub use laws::kept_daemon;
