//! How origins move between a device's memory and its daemon's area: what is written while a registration stands
//! lies in the area, pages that become present are zeros, and a registration and its end carry the pages in use.
//!
//! It stands on `vd_origins`. Each call changes exactly the origins that its contract names.
#![tactic(auto)]

mod placed;
mod puts;
#[cfg(test)]
mod tests;

pub use placed::{Kept, Placed, Shared, Span, Stretch};
pub use puts::{adopt, clear_absent, give_back, has_page, is_used, put};
