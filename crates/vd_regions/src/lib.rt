//! The regions of an address space, in the order of their addresses.
//!
//! It stands on `vd_num` and `vd_model`, which has the type of a region. No two regions overlap: `add` refuses
//! one exactly where it meets a region that is there. `first` is the region of least start among those that
//! overlap a range, exactly. Contracts see the list of regions. Only `add` takes memory.
#![tactic(auto)]

mod regions;

pub use regions::{AddRegionError, Regions};
pub use vd_model::Region;
