//! Who hears what a line is answered, and what a call that answers a line promises.
//!
//! It stands on `vd_model`. An answer is told where it is made, to a `Hears`: a short one takes no
//! memory. `Tells` is the contract of a call that answers a line: the turn's answer was heard, and
//! what was changed stands for the turn's acts.
#![tactic(auto)]

mod hears;
mod kept;

pub use hears::{Hears, tell};
pub use kept::Kept;

#[cfg(test)]
mod tests;
