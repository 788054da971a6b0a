//! Writes pages of a b-tree: a page is built cell by cell, packed to its end.
//!
//! Section numbers are those of SQLite's "Database File Format".
#![tactic(auto)]

mod builder;
mod bytes;
mod cell;

pub use builder::PageBuilder;
pub use bytes::{four_bytes, lay};
pub use cell::write_cell;
