//! The driver's side of a split ring: it adds chains, publishes them, and takes back those that were used.
//! Each call says its exact answer, what becomes of the descriptors, and the exact memory that it leaves, where memory
//! tells its bytes. `new` takes all memory, and the other calls none. Whatever stands in the used ring, only a published
//! chain is taken back, and only once.
#![tactic(auto)]

mod completion;
mod free;
mod ring;
pub mod table;

pub use completion::{Completion, UsedError};
pub use ring::{AddError, DriverRing, Published};
pub use vd_model::{Part, RingPlace};
