//! Numbers that are read from words, and lines that are printed. No call takes memory.
#![tactic(auto)]

mod numbers;
mod text;

pub use numbers::number_of;
pub use text::Text;
