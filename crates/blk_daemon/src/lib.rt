//! The block daemon's side of a queue (virtio 1.2, sections 2.7 and 5.2): it fetches a request from the ring, executes it on a
//! window of an image, and gives it back.
//! Where the memory tells its bytes, each call says exactly what it takes, answers and leaves, and each fault with the first
//! address that isn't there; what a request does to an image holds of every memory.
#![tactic(auto)]

mod disk;
mod error;
mod features;
mod fetch;
mod finish;
mod queue;
mod request;

pub use blk_proto::{Header, Window};
pub use disk::Executed;
pub use error::{FetchError, FinishError, NoRequest};
pub use finish::Finished;
pub use queue::BlkQueue;
pub use request::Fetched;
pub use vd_model::{Chain, Name, RingPlace};
pub use vr_chain::ChainFault;
