//! The words of a line: cut one after the other, and read as first words and fields.
//!
//! It stands on `vd_model`, which has the words and fields as definitions, and on `vd_digits`.
#![tactic(auto)]

mod error;
mod keyword;
mod words;

pub use error::LineError;
pub use keyword::keyword_of;
pub use words::Words;
