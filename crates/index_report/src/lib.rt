//! The indexes of a database beside their tables, as text: a line for each way in which an index and its table differ, one for each
//! index that is not checked and why, and a last line that counts.
//!
//! Rowids alone are compared: values, order and twins are not. Section numbers are those of SQLite's "Database File Format".
#![tactic(auto)]

mod judge;
mod laws;
mod lines;
mod report;
mod summary;
mod verdict;

pub use laws::agreeing_law;
pub use report::report_indexes;
pub use summary::Summary;
pub use verdict::{Unchecked, Verdict};
