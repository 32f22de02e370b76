//! The lines of a script, both ways: a line is read as a step, and a step is written.
//!
//! It stands on `vd_model`, which has the steps and the grammar as definitions, and on `vd_words`,
//! which has the words of a line. `read_line` accepts
//! exactly the grammar: a step, nothing for an empty line and a comment, and `Bad` for every other
//! line. What `print_step` writes of a step that was read is read as that step again.
#![tactic(auto)]

mod area;
mod bus;
mod control;
mod driver;
mod form;
mod node;
mod print;
mod put;
mod queue;
mod read;

pub use print::print_step;
pub use queue::read_parts;
pub use read::read_line;
pub use vd_words::LineError;
