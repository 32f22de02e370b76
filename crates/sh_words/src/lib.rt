//! The words of a run, read as one simple command with three options.
#![tactic(auto)]

mod words;

pub use words::{WordsError, WorkOptions, read_words};

#[cfg(test)]
mod tests;
