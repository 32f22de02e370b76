//! Rings over memory in a vector: layouts, walks, and both sides of a queue.
//!
//! It stands on the crates of rings and has tests alone, so that none of those is proved a second time with its tests.
#![tactic(auto)]

#[cfg(test)]
mod tests;
