//! The plain data of SQLite's database file format: the header of a database, the count of its pages, varints and records, the
//! text of values; where pages come from, marks of those that were met, and what can be wrong with their structure.
//!
//! What is read are decrypted pages. Section numbers are those of SQLite's "Database File Format".
#![tactic(auto)]

mod column;
mod count;
mod counted;
mod defect;
mod header;
mod mem_pages;
mod memory;
mod plain;
mod record;
mod row;
mod seen;
mod serial;
mod source;
mod value;
mod value_text;
mod values;
mod varint;

pub use count::{CountRefusal, LARGEST_DATABASE, counted_pages};
pub use counted::Counted;
pub use defect::Defect;
pub use header::{
    APPLICATION_ID_AT, CHANGE_AT, Header, HeaderRefusal, SIZE_AT, USER_VERSION_AT, VALID_FOR_AT,
    read_header, write_header,
};
pub use mem_pages::{MemPages, NoPage};
pub use memory::OutOfMemory;
pub use number_fields::{u16_at, u32_at};
pub use plain::plain_run;
pub use record::{LONGEST_PAYLOAD, RecordFault, RecordView};
pub use row::{RowPieces, write_row};
pub use seen::Seen;
pub use source::PageSource;
pub use value::Value;
pub use value_text::write_value_text;
pub use values::Values;
pub use varint::{LONGEST_VARINT, read_varint, write_varint};
