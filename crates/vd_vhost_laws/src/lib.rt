//! What the table of a guest's bus promises: a daemon sees and changes bytes through its regions alone, and a
//! denial names its first address.
//!
//! It stands on the definitions of `vd_vhost_model`.
#![tactic(auto)]

mod table;

pub use table::{instances_of_the_table, table_law};
