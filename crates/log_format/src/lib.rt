//! The format of the log of SQLite's WAL mode: "Database File Format", section 4.
//!
//! The header of a log, its frames, and the checksum that runs through both. No call takes memory.
#![tactic(auto)]

mod frame;
mod header;
mod sum;

pub use frame::{LogFrame, read_log_frame};
pub use header::{LogHeader, read_log_header};
pub use sum::LogSum;
