//! The outside, as the program sees it: where key lines come from, where text goes, what is drawn, and three files on a
//! device that may stop at any moment. The forms in memory are in `edge_memory`.
#![tactic(auto)]

mod disk;
mod entropy;
mod role;
mod sink;
mod source;

pub use disk::Disk;
pub use entropy::Entropy;
pub use role::{Failed, OutOfMemory, Role};
pub use sink::{Sink, put_all};
pub use source::Source;
