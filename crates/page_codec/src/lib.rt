//! The stored pages of a SQLCipher file or a plain one: which pages a key accepts, and how they are opened and sealed.
#![tactic(auto)]

mod codec;
mod laws;
mod listed;
mod opening;
mod sealing;
mod side_by_side;
mod tag;

pub use codec::{Codec, MAGIC};
pub use laws::{no_tag_law, opened_law};
pub use opening::TagRefused;
