//! A whole run: its words, its script, and the replies.
//!
//! It stands on the door (lines, words, grammar, replies) and on the engine. `script_top` writes
//! exactly the replies to the lines that it answered, and says by its status why it stopped.
#![tactic(auto)]

mod exit;
mod grammar;
mod player;
mod script;
mod top;

pub use top::script_top;
pub use vd_loop::Exit;
pub use vd_options::{Options, WordsError, read_words};
