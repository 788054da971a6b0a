//! The whole of a database: its freelist, its schema, and the tree of each schema row that has one.
//!
//! Every page has at most one place, every payload is read as a record, and what is found is counted, or a defect of the
//! earliest part that has one is answered. Section numbers are those of SQLite's "Database File Format".
#![tactic(auto)]

mod counts;
mod root;
mod schema;
mod tree;
mod trees;
mod unused;
mod whole;

pub use counts::Census;
pub use schema::{Payload, Schema, SchemaRow, read_schema};
pub use whole::{Started, census, start};
