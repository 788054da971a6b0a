//! A file read through its log, of which nothing is changed: "Database File Format", section 4.
#![tactic(auto)]

mod indexing;
mod opening;
mod reading;
mod view;

pub use opening::ViewError;
pub use view::LogView;
