//! Loads a tree from its entries in order, page by page, with one open page a level.
//!
//! Section numbers are those of SQLite's "Database File Format".
#![tactic(auto)]

mod cells;
mod chain;
mod closing;
mod ending;
mod error;
mod leaf;
mod level;
mod levels;
mod loader;
mod mem_out;
mod out;
mod pair;
mod putting;
mod root;

pub use error::LoadError;
pub use loader::Loader;
pub use mem_out::MemOut;
pub use out::{OutError, PageOut};
