//! The rows of a table by their rowids, read through its tree: of a large file, the pages that lead to them alone.
//!
//! Each page that a search meets is marked, so that a damaged tree that goes in circles is read once. Section numbers are those
//! of SQLite's "Database File Format".
#![tactic(auto)]

mod chain;
mod error;
mod page;
mod row;
mod search;
mod table;
mod visit;
mod wanted;

pub use error::FindError;
pub use search::{find, find_from};
pub use table::{is_text, names_table, table_root};
