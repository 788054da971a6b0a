//! Scripts of sessions that share one file: each line is a step of a session, and each step prints its answer.
#![tactic(auto)]

mod answer;
mod laws;
mod line;
mod playing;
mod rest;
mod script;
#[cfg(test)]
mod tests;

pub use laws::{script_is_a_run_law, script_order_law};
pub use playing::{MAX_LINES, PlayError, play};
pub use script::{ScriptStep, step_of};
