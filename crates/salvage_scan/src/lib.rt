//! The rows of a damaged file: those of every leaf of a table that can be read, whatever became of the schema, the freelist or the
//! header. Rows that were deleted may be among them.
//!
//! | line | what it says |
//! |---|---|
//! | `page N: tag refused` | the page is not the one that was written there |
//! | `row N ROWID` and values | a row that stands on page N |
//! | `lost N ROWID` | a row of page N whose payload is not whole, or is no record |
//! | `page N: bad cell INDEX` | a leaf of a table of which no row is taken |
//! | `salvaged: R rows, L lost, T refused pages` | the last line |
//!
//! Section numbers are those of SQLite's "Database File Format".
#![tactic(auto)]

mod ahead;
mod cell;
mod chain;
mod error;
mod lines;
mod page;
mod room;
mod salvaging;
mod scan;

pub use error::SalvageError;
pub use salvaging::salvage;
pub use scan::Salvaged;
