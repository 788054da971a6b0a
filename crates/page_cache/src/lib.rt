//! A cache of pages: pages of one size, lent out of a fixed number of frames.
//!
//! A contract sees a cache as the list of the pages that it holds, the most recently used first, beside the number of frames and
//! the bytes of each (`specs/Pages.antt`), and each call says that list after it. All memory is taken by `Cache::new`. A look-up costs
//! the same however many frames there are.
#![tactic(auto)]

mod cache;
mod frame;
mod index;
mod lending;
mod table;

pub use cache::{Cache, Full, OutOfMemory};
