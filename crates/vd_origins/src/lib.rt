//! Where the bytes of a memory came from, kept by runs of bytes that have one origin.
//!
//! Contracts see the list of the runs, and speak of the origin of each address alone. What no run has is a zero.
//! A range is set, or copied from elsewhere, in one pass over the runs, and neighbours of one origin are joined.
//! So a store costs what its runs cost, however long they are.
#![tactic(auto)]

mod origins;
mod run;
#[cfg(test)]
mod tests;

pub use origins::Origins;
pub use run::Run;
