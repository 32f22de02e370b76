//! Worked rows, each a script with the replies that are due, through `script_top`, and over a cache.
//!
//! It stands on `vd_top` and `vd_cached`, and has tests alone. Expected replies are worked out by hand from the rules, never taken from
//! the program's own output.
#![tactic(auto)]

#[cfg(test)]
mod tests;
