//! The trees of a database as lists of entries.
//!
//! A cursor goes through one tree, page by page of any source, and gives its entries in order: the rows of a table, or the
//! entries of an index, with payloads that overflow. Each page that it meets is marked, so that no page is met twice.
//! Section numbers are those of SQLite's "Database File Format".
#![tactic(auto)]

mod chain;
mod cursor;
mod error;
mod number;
mod order;
mod page;
mod path;
mod turn;

pub use cursor::{Cursor, Entry};
pub use error::WalkError;
pub use number::is_in_range;
pub use page::tree_family;
