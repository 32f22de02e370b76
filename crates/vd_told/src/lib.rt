//! An answer that is told once, and is both kept and printed.
//!
//! It stands on `vd_answers` and `vd_replies`. A checker compares the reply, and looks at the answer.
#![tactic(auto)]

mod copied;
#[cfg(test)]
mod tests;
mod told;

pub use told::Told;
