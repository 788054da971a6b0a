//! The format of a rollback journal: SQLite's "Database File Format", section 3.
//!
//! Headers of segments, records with their checksums, and the name of a super-journal at the end. No call takes memory.
#![tactic(auto)]

mod header;
mod record;
mod super_journal;

pub use header::{SegmentHeader, read_header, sector_ok, write_header};
pub use record::{checksum, record_page, write_record};
pub use super_journal::ends_super;
