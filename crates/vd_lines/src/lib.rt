//! The lines of a script, as they come from a source.
//!
//! It stands on `vd_model`, whose definitions say what the lines of a text are and where a run of
//! them stops, and on the sources of `vd_io`. A `LineReader` pulls pieces of at most 65,536 bytes
//! and lends one line after another. Its contract says, for every text that the source tells,
//! which line that is, and that a script or a line past its limit is refused at exactly its byte.
#![tactic(auto)]

mod reader;

pub use reader::{LINE_LIMIT, LineReader, Next, ReadFault, TEXT_LIMIT};
