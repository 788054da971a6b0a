//! The names of a schema that are a given name but for the case of ASCII letters, each with what it is a name of.
//!
//! Section numbers are those of SQLite's "Database File Format".
#![tactic(auto)]

mod kind;
mod near;

pub use kind::SchemaKind;
pub use near::{MOST_NAMES, NearName, StoredName, near_names};
