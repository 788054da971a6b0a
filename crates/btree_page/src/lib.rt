//! The pages of a b-tree: their kind, their cells, and how much of a payload stays in its cell.
//!
//! Pages are decrypted and borrowed, and no call takes memory. Section numbers are those of SQLite's "Database File Format".
#![tactic(auto)]

mod array;
mod cell;
mod kind;
mod page;
mod payload;
mod step;

pub use cell::Cell;
pub use kind::{Family, Kind, page_kind};
pub use page::{PageFault, PageView};
pub use payload::local_len;
pub use step::{Step, read_step};
