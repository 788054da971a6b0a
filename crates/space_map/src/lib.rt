//! The freelist of a database: its trunks and leaves, each marked, or the first thing that is wrong with it.
//!
//! Trunks are lent by any source of pages, and leaves are never read. Section numbers are those of SQLite's
//! "Database File Format".
#![tactic(auto)]

mod free_map;
mod trunk;
mod walk;

pub use free_map::{FreeMap, freelist};
