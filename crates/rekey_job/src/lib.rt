//! A file under other keys: every page is opened under the old ones and sealed under the new ones, in one transaction.
//!
//! The whole database is checked first, so that nothing is written where a page in use is refused or a part has a defect. The
//! count of pages and each plain page stay, and the file begins with the salt of the new keys; a leaf of the freelist, whose bytes hold no content, is sealed as zeros.
#![tactic(auto)]

mod check;
mod error;
mod job;
mod rewrite;

pub use error::RekeyError;
pub use job::rekey;
