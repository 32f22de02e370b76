//! The lines of a text, answered one after another, and how that ends.
//!
//! It stands on `vd_lines` and `vd_io`. A program gives a `Machine` that answers a line; the loop reads the lines, keeps
//! the replies until they are many, writes them, and says by a status why it stopped. `run_lines` says of every text
//! which lines were answered, and that exactly their replies were written.
#![tactic(auto)]

mod ended;
mod exit;
mod machine;
mod progress;
mod session;
#[cfg(test)]
mod tests;
mod waiting;

pub use ended::{Ended, run_lines};
pub use exit::Exit;
pub use machine::{Answer, Machine};
pub use progress::{Progress, Stop};
pub use waiting::{Mark, Waiting};
