//! `make`: an encrypted database of so many rows, written beside, and published where no file was.
#![tactic(auto)]

mod error;
mod job;
mod publishing;
mod writing;

pub use db_maker::Made;
pub use error::MakeError;
pub use job::make;
