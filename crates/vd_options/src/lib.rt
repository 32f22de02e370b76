//! The options of a run, and the words that ask for them.
//!
//! The program stands on it. `read_words` gives the options that the words of a run ask for, by the
//! definition of `specs/`, and refuses exactly the words of any other form. `read_numbers` gives them
//! without the path of an image, and takes no memory; `read_sizes` reads the pairs of a run alone.
#![tactic(auto)]

mod options;
mod programs;
mod words;

pub use options::Options;
pub use programs::{QueueOptions, RingKind, read_guest, read_queue};
pub use words::{WordsError, number, read_numbers, read_sizes, read_words};
