//! The pointer-map pages of a database become its freelist, in a transaction of the pager: the pages of the new trunks are written.
#![tactic(auto)]

mod fill;
mod trunks;

pub use trunks::{TrunkError, put_trunks};
