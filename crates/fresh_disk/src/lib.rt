//! A file that is written beside Main while Main is read, and how it takes Main's place.
//!
//! Whatever is done through a `Side`, Main and Journal stay as they are, and so does what a crash leaves of them. `publish_new` then
//! puts the new file in Main's place: at each moment an image has the old files or the new one.
#![tactic(auto)]

mod clearing;
mod pair;
mod publishing;
mod side;

pub use clearing::{clear_fresh, create_fresh};
pub use pair::Pair;
pub use publishing::{publish, publish_new};
pub use side::Side;
