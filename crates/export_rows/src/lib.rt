//! The rows of a database as text that says them exactly: a line for the database, one for each schema row, and one for each entry
//! of its tree. Values are written as `row_text` has it.
#![tactic(auto)]

mod content;
mod error;
mod item;
mod lines;
mod tree;

pub use content::{after_check, export};
pub use error::ExportError;
pub use lines::{put_database, put_end, put_schema_row};
