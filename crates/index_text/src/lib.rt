//! What the text of an index in the schema says of it: whether it has an entry for each row of its table.
//!
//! The text is read by the grammar of `sqlite_syntax`, which has CREATE INDEX over plain columns, with a collation and a direction,
//! and neither WHERE nor expressions. So an index whose text it reads is not partial; one whose text it doesn't read may be.
#![tactic(auto)]

mod plain;

pub use plain::is_plain;
