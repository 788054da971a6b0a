//! Whether the entries of an index belong to the rows of its table, by their rowids: each row has one entry, and each entry a row.
//!
//! The entries of an index are in the order of its values, so the row of an entry is looked up. The rowids of the table are held in
//! windows of 2^20, each with a bit for whether it was met: 8 MiB and 128 KiB, whatever the file. For each window the table is
//! walked once and the index once; the counts and the least rowids of all windows are those of the whole.
//!
//! Section numbers are those of SQLite's "Database File Format".
#![tactic(auto)]

mod agreement;
mod index;
mod laws;
mod missing;
mod owner;
mod part;
mod place;
mod rowids;
mod tally;
mod window;

pub use agreement::Agreement;
pub use index::check_index;
pub use laws::{beyond_law, whole_law};
pub use rowids::Rowids;
