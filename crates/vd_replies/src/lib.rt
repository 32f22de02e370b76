//! Reply lines, printed where an answer is told.
//!
//! It stands on `vd_answers`, `vd_digits` and `vd_model`. `Printed` hears an answer and appends exactly its reply line; where
//! there is room, a short answer takes no memory.
#![tactic(auto)]

mod printed;
mod put;
mod words;

pub use printed::{Printed, ROOM};

#[cfg(test)]
mod tests;
