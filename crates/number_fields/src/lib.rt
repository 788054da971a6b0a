//! Fixed-width numbers of the formats, by `byteorder`: those of SQLite's files, the most significant byte first, and the page
//! number in a tag of SQLCipher, the least significant byte first.
#![tactic(auto)]

mod reading;
mod writing;

pub use reading::{u16_at, u32_at};
pub use writing::{u16_bytes, u32_bytes, u32_bytes_low_first, u64_bytes};
