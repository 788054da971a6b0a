//! A file written anew in another profile: every tree is read entry by entry and loaded into a new file beside, which then takes the old
//! one's place.
//!
//! The whole database is checked first, so that nothing is drawn or written where a part has a defect. The new file has the old one's
//! content: seven fields of its header, every schema row but for the number of its root page, and every entry in its order.
#![tactic(auto)]

mod checking;
mod copying;
mod database;
mod error;
mod job;
mod renewing;
mod row;
mod rows;
mod tree;

pub use copying::copy_next;
pub use error::MigrateError;
pub use job::migrate;
