//! A new encrypted file, written into Fresh: every page is sealed with random bytes of its own, 64 of them side by side, page 1 last.
//!
//! A loader takes numbers and puts plain pages by a `FreshOut`; `FreshState::finish` writes page 1 with the header, and syncs.
#![tactic(auto)]

mod finishing;
mod fresh_out;
mod held;
mod sealing;
mod state;

pub use atomic_commit::CommitFault;
pub use fresh_out::FreshOut;
pub use state::{FreshState, StartError};
