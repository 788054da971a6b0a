//! The database of a number: three trees of so many rows, and their schema, loaded row by row.
#![tactic(auto)]

mod loading;
mod making;
mod part;
mod rows;
mod schema;

pub use making::{Made, fill};
