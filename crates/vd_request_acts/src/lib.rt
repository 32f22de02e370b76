//! What the acts come to by which a block request's buffers are made, filled and mapped.
//!
//! The code fills a request's buffers in more steps than the history machine takes. Both leave the same memory.
#![tactic(auto)]

mod acts;

pub use acts::request_acts;
