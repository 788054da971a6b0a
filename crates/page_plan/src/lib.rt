//! Pages of a database are written anew, in one transaction: those that a plan names, each as the plan says.
//!
//! 1. All memory is taken before the first write. Where it is not to be had, or the codec for writing has another layout, nothing
//!    was called (`write_plan: unbegun, layout, differs`).
//! 2. A page of the plan becomes what the plan says, sealed with bytes of its own. Every other page has its stored bytes
//!    (`write_plan: changed`).
//! 3. A stop at any moment leaves the old pages or the new ones, which are one and the same at every moment; where the bytes cannot be
//!    had, the old ones alone. After Ok each image has the new ones alone, and no journal (`write_plan: any_moment, one_new, only_old,
//!    new`).
//! 4. Old bytes of neighbours wait for the journal together, one segment behind one gate, where the plan says that this pays.
//! 5. Where a page is refused, nobody else having changed the file, a call failed (`write_plan: stopped`). Else all is taken back.
#![tactic(auto)]

mod error;
mod plan;
mod walk;
mod writing;

pub use error::WriteError;
pub use plan::{Over, Plan};
pub use writing::write_plan;
