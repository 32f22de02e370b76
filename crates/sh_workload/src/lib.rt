//! The work of a run: the requests of each driver, made from a number, what they leave of its part
//! of the image, and the line that sums the run up.
#![tactic(auto)]

mod counts;
mod generator;
mod line;
mod options;
mod plan;
mod requests;

pub use counts::Counts;
pub use generator::Generator;
pub use line::summary;
pub use options::WorkOptions;
pub use plan::Plan;
pub use requests::{WorkRequest, request};

#[cfg(test)]
mod tests;
